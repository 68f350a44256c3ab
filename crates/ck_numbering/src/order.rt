//! Drafts in the order of their places.
ghost use Rattle.std.specs.Prelude.{◌≡◌, map, vec_len, OnOk};
ghost use Rattle.std.specs.List.Sorted.{IsPermutation};
ghost use Rattle.ck_drafts.specs.Drafts.{plain_place, plain_side, plain_draft};
ghost use Rattle.ck_points.specs.Places as places;
ghost use Rattle.ck_numbering.specs.PlaceOrder.{place_cmp, ArePlacedApart, AreAscending};

use ck_base::OutOfMemory;
use ck_drafts::{Draft, Place, Side};
use std::cmp::Ordering;

/// Which of the points of its part a side is, as a point of a graph has it.
pub(crate) fn side_number(side: Side) -> u8
    ensures { result ≡ places.side_number (plain_side side) }
{
    side as u8
}

/// How two places are ordered: by path, orders and side.
pub(crate) fn compare(a: &Place, b: &Place) -> Ordering
    ensures { result ≡ place_cmp (plain_place a.now) (plain_place b.now) }
{
    a.path
        .as_slice()
        .cmp(b.path.as_slice())
        .then_with(|| a.orders.as_slice().cmp(b.orders.as_slice()))
        .then_with(|| side_number(a.side).cmp(&side_number(b.side)))
}

/// Puts drafts of one function into the order of their places. No two of them are at one place.
pub(crate) fn sort(drafts: &mut Vec<Draft>) -> Result<(), OutOfMemory>
    requires { ArePlacedApart (map plain_draft drafts.old.items) }
    ensures ascending { OnOk result (AreAscending (map plain_draft drafts.new.items)) }
    ensures same { IsPermutation (map plain_draft drafts.old.items) (map plain_draft drafts.new.items) }
    ensures length { vec_len drafts.new ≡ vec_len drafts.old }
{
    drafts.sort_by(|a, b| compare(&a.at, &b.at))?;
    Ok(())
}
