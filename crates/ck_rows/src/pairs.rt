//! Single pairs of a relation.
ghost use Rattle.std.specs.Prelude.{◌≡◌, ◌<◌, ◌↔◌, ◌⊎◌, ℕ, [], ◌∷◌, IsTrue};
ghost use Rattle.ck_rows.specs.Relation.{pair, pairs, HaveSamePairs, Relates};

use crate::rows::Rows;

/// The relation without a pair.
pub fn no_pairs() -> Rows
    ensures pairs { HaveSamePairs (pairs result) [] }
    ensures none { (i j : ℕ) → Relates result i j → ⊥ }
{
    Rows { mask: [0; 16] }
}

/// Adds the pair of two numbers below 16.
pub fn add_pair(rows: &mut Rows, from: usize, to: usize)
    requires from { from < 16 }
    requires to { to < 16 }
    ensures pairs { HaveSamePairs (pairs rows.new) (pair from to ∷ pairs rows.old) }
    ensures there { Relates rows.new from to }
    ensures kept { (i j : ℕ) → Relates rows.old i j → Relates rows.new i j }
    ensures only { (i j : ℕ) → Relates rows.new i j → Relates rows.old i j ⊎ ((i ≡ from) × (j ≡ to)) }
{
    let had = rows.mask[from];
    rows.mask[from] = had | (1 << to);
}

/// Whether the pair of two numbers below 16 is in the relation.
pub fn has_pair(rows: &Rows, from: usize, to: usize) -> bool
    requires from { from < 16 }
    requires to { to < 16 }
    ensures { IsTrue result ↔ Relates rows.now from to }
{
    (rows.mask[from] >> to) & 1 == 1
}
