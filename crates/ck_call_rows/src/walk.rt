//! A walk over the body of a function.
ghost use Rattle.std.specs.Prelude.{◌≡◌, true, length};
ghost use Rattle.ck_tables.specs.Numbers.{is_closed};

use ck_base::FnId;
use ck_tables::{Linked, UseInfo};
use std::alloc::Global;

/// A walk over the body of a function, whose calls get rows.
#[derive(Clone, Copy)]
pub(crate) struct Walk<'a> {
    /// where rows are made
    pub alloc: Global,
    /// the tables of the project
    pub linked: &'a Linked,
    /// what a call by a declared name is, by `EntryId`
    pub uses: &'a [UseInfo],
    /// the function
    pub function: FnId,
    pub ghost closed: { is_closed linked.now ≡ true },
    pub ghost each: { length uses.now ≡ length linked.now.entries.rows.items },
}
