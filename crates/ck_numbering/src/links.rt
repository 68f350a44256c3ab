//! Edges by numbers.
ghost use Rattle.std.specs.Prelude.{◌≡◌, ◌<◌, ◌≤◌, ◌+◌, ◌^◌, ℕ, List, length, map, All, IfOk};
ghost use Rattle.std.specs.List.{AllZip};
ghost use Rattle.ck_drafts.specs.Drafts.{PlainEdge, plain_place, plain_edge, plain_draft};
ghost use Rattle.ck_numbering.specs.PlaceOrder.{AreAscending};
ghost use Rattle.ck_numbering.specs.Closed.{HasDraftAt, AllLeadInto};
ghost use Rattle.ck_numbering.specs.Numbered.{IsIndexOf, IsNumberOf, AreEdgesOf, AreEdgesOfEach};

use crate::order::compare;
use ck_base::{OutOfMemory, PointId};
use ck_drafts::{Draft, DraftEdge, Place};
use ck_graph::Edge;
use std::alloc::Global;

/// The index of the draft that is at a place.
fn index_at(drafts: &[Draft], at: &Place) -> usize
    requires ascending { AreAscending (map plain_draft drafts.now) }
    requires there { HasDraftAt (map plain_draft drafts.now) (plain_place at.now) }
    ensures { IsIndexOf (map plain_draft drafts.now) (plain_place at.now) result }
{
    match drafts.binary_search_by(|draft| compare(&draft.at, at)) {
        Ok(index) => index,
        Err(_) => unreachable!(),
    }
}

/// The number of the point that is at a place, where the first of the drafts gets this number.
pub(crate) fn number_at(drafts: &[Draft], first: u32, at: &Place) -> PointId
    requires ascending { AreAscending (map plain_draft drafts.now) }
    requires there { HasDraftAt (map plain_draft drafts.now) (plain_place at.now) }
    requires room { first + length drafts.now < 2 ^ 32 }
    ensures { IsNumberOf first (map plain_draft drafts.now) (plain_place at.now) result.0 }
{
    PointId(first + index_at(drafts, at) as u32)
}

/// The edges of a point by numbers, where the first of the drafts gets this number.
fn edges_of(
    alloc: Global,
    drafts: &[Draft],
    first: u32,
    edges: &[DraftEdge],
) -> Result<Vec<Edge>, OutOfMemory>
    requires ascending { AreAscending (map plain_draft drafts.now) }
    requires there { All (λ e. HasDraftAt (map plain_draft drafts.now) (plain_place e.to)) edges.now }
    requires room { first + length drafts.now < 2 ^ 32 }
    ensures { IfOk result (λ made.
        AreEdgesOf first (map plain_draft drafts.now) (map plain_edge edges.now) made.items) }
{
    let mut made = Vec::new(alloc);
    'edges: for edge in edges {
        made.push(Edge {
            to: number_at(drafts, first, &edge.to),
            label: edge.label,
        })?;
    }
    Ok(made)
}

/// The edges of each point by numbers, where the first of the drafts gets this number.
pub(crate) fn all_edges(
    alloc: Global,
    drafts: &[Draft],
    first: u32,
) -> Result<Vec<Vec<Edge>>, OutOfMemory>
    requires ascending { AreAscending (map plain_draft drafts.now) }
    requires stay { AllLeadInto (map plain_draft drafts.now) (map plain_draft drafts.now) }
    requires room { first + length drafts.now < 2 ^ 32 }
    ensures { IfOk result (λ made.
        AreEdgesOfEach first (map plain_draft drafts.now) (map plain_draft drafts.now) made.items) }
{
    let mut made = Vec::new(alloc);
    'drafts: for draft in drafts {
        made.push(edges_of(alloc, drafts, first, &draft.edges)?)?;
    }
    Ok(made)
}
