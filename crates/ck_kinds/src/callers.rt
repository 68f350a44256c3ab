//! A function whose calls have numbers.
use ck_base::FnId;
use ck_tables::Program;

/// A function of a typed project, with the number of the project's calls that are no acts.
#[derive(Clone, Copy)]
pub(crate) struct Caller<'a> {
    /// the project
    pub program: &'a Program,
    /// how many such calls the project has
    pub calls: u32,
    /// the function
    pub function: FnId,
}
