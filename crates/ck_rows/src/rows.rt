//! Relations as masks.
ghost use Rattle.std.specs.Prelude.{
  ◌≡◌,
  ◌≤◌,
  ◌<◌,
  ◌*◌,
  ◌↔◌,
  ◌⊎◌,
  ◌++◌,
  ◌^◌,
  ℕ,
  IsTrue,
  map,
  slice_index,
  true,
  false,
};
ghost use Rattle.std.specs.Int.{bit_at};
ghost use Rattle.std.specs.Int.Bits.{bit_or};
ghost use Rattle.std.specs.Simd.Lanes.{zip2};
ghost use Rattle.ck_rows.specs.Relation.{
  pairs,
  rows_of,
  composition,
  HaveSamePairs,
  HasNewPair,
  Relates,
};
ghost use Rattle.ck_rows.specs.Room.{room};

use std::simd::prelude::*;

/// A relation on sixteen things, numbered from 0: bit j of `mask[i]` says that the pair (i, j) is in
/// the relation.
#[derive(Clone, Copy, Debug, PartialEq, Eq)]
pub struct Rows {
    pub mask: [u16; 16],
}

/// Adds the pairs of `from` to `into`, and answers whether a pair was added.
pub fn union_into(into: &mut Rows, from: &Rows) -> bool
    ensures pairs { HaveSamePairs (pairs into.new) (pairs into.old ++ pairs from.now) }
    ensures grew { IsTrue result ↔ HasNewPair (pairs into.old) (pairs into.new) }
    ensures kept { (i j : ℕ) → Relates into.old i j → Relates into.new i j }
    ensures added { (i j : ℕ) → Relates from.now i j → Relates into.new i j }
    ensures only { (i j : ℕ) → Relates into.new i j → Relates into.old i j ⊎ Relates from.now i j }
    ensures unchanged { result ≡ false → into.new ≡ into.old }
    ensures room { room into.new ≤ room into.old }
    ensures less_room { result ≡ true → room into.new < room into.old }
{
    let had = into.mask;
    into.mask = joined(u16x16::from_array(had), u16x16::from_array(from.mask)).to_array();
    into.mask != had
}

/// The composition of two relations: (i, k) exactly where some j has (i, j) in `first` and (j, k) in
/// `second`.
pub fn compose(first: &Rows, second: &Rows) -> Rows
    ensures pairs { HaveSamePairs (pairs result) (composition (pairs first.now) (pairs second.now)) }
    ensures composed { (i j k : ℕ) → Relates first.now i j → Relates second.now j k → Relates result i k }
    ensures only { (i k : ℕ) → Relates result i k → (j : ℕ) × Relates first.now i j × Relates second.now j k }
{
    image(first, &second.mask)
}

/// The composition of a relation with the one whose masks are `step`: each thing that it leads to is
/// followed by what `step` has for it.
pub fn image(rows: &Rows, step: &[u16; 16]) -> Rows
    ensures pairs { HaveSamePairs (pairs result) (composition (pairs rows.now) (pairs (rows_of step.now))) }
    ensures composed { (i j k : ℕ) → Relates rows.now i j → Relates (rows_of step.now) j k → Relates result i k }
    ensures only { (i k : ℕ) → Relates result i k → (j : ℕ) × Relates rows.now i j × Relates (rows_of step.now) j k }
{
    let chosen = u16x16::from_array(rows.mask);
    let mut all = u16x16::splat(0);
    'steps: for j in 0..16 {
        all = joined_where(all, chosen, j, step[j as usize]);
    }
    Rows {
        mask: all.to_array(),
    }
}

/// The masks of two relations joined, lane by lane.
fn joined(masks: u16x16, others: u16x16) -> u16x16
    ensures lanes { result ≡ zip2 bit_or masks others }
    ensures fits { (k : ℕ) → slice_index result k < 2 ^ 16 }
{
    masks | others
}

/// The masks, with `step` joined to each of them where the mask of `chosen` in the same lane has bit `j`.
fn joined_where(masks: u16x16, chosen: u16x16, j: u16, step: u16) -> u16x16
    requires { j < 16 }
    ensures { result ≡ zip2 bit_or masks (map (λ m. bit_at m j * step) chosen) }
{
    let bits = (chosen >> u16x16::splat(j)) & u16x16::splat(1);
    masks | (bits * u16x16::splat(step))
}
