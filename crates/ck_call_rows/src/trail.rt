//! Paths of parts, while a walk is inside of them.
ghost use Rattle.std.specs.Prelude.{◌≡◌, [], ◌∷◌, ◌++◌, IfOk};
ghost use Rattle.ck_call_rows.specs.Walks.{path_of};

use ck_base::OutOfMemory;
use smallvec::SmallVec;
use std::alloc::Global;

/// The path of a part: that of the part around it, and the step that leads to it.
#[derive(Clone, Copy)]
pub(crate) enum Trail<'a> {
    /// the body of a function
    Body,
    /// a part, by its step
    Below(&'a Trail<'a>, u64),
}

impl<'a> Trail<'a> {
    /// The path of the part to which a step leads.
    pub(crate) fn below(&'a self, step: u64) -> Trail<'a>
        ensures { path_of result ≡ path_of self.now ++ step ∷ [] }
    {
        Trail::Below(self, step)
    }

    /// The path in numbers of 32 bits.
    pub(crate) fn numbers(&self, alloc: Global) -> Result<SmallVec<u32, 8>, OutOfMemory>
        ensures { IfOk result (λ path. path.items ≡ path_of self.now) }
    {
        match self {
            Trail::Body => Ok(SmallVec::new(alloc)),
            Trail::Below(above, step) => {
                let number = step_number(*step)?;
                let mut path = above.numbers(alloc)?;
                path.push(number)?;
                Ok(path)
            }
        }
    }
}

/// A step as a number of 32 bits.
pub(crate) fn step_number(step: u64) -> Result<u32, OutOfMemory>
    ensures { IfOk result (λ number. number ≡ step) }
{
    match u32::try_from(step) {
        Ok(number) => Ok(number),
        Err(_) => Err(OutOfMemory),
    }
}
