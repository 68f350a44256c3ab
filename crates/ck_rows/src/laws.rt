//! A law about the definitions, the contract of a function that does nothing.
ghost use Rattle.std.specs.Prelude.{ℕ, ◌↔◌, Contains};
ghost use Rattle.ck_rows.specs.Relation.{pair, pairs, Relates};
ghost use Rattle.ck_rows.specs.declared.rows.Rows.{Rows};

/// A relation's list has the pair (i, j) exactly where i and j are below 16 and bit j of mask i is
/// set.
pub fn pairs_are_bits()
    ensures { (rows : Rows) (i j : ℕ) → Contains (pairs rows) (pair i j) ↔ Relates rows i j }
{}
