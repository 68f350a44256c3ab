//! A walk over the body of a function.
use ck_tables::Program;
use std::alloc::Global;

/// A walk over the body of a function.
#[derive(Clone, Copy)]
pub(crate) struct BodyWalk<'a> {
    /// where points are made
    pub alloc: Global,
    /// the project
    pub program: &'a Program,
}
