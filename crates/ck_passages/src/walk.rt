//! A walk over the expressions of a project.
use ck_tables::Program;
use std::alloc::Global;

/// A walk over the expressions of a project, under operators of these orders.
#[derive(Clone, Copy)]
pub struct Walk<'a> {
    /// where points are made
    pub alloc: Global,
    /// the project
    pub program: &'a Program,
    /// the orders, the outermost first
    pub orders: &'a [u8],
}
