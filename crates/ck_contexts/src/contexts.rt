//! Entry points of a project, with the functions that each runs.
ghost use Rattle.std.specs.Prelude.{◌≡◌, ◌<◌, ◌^◌, length};
ghost use Rattle.ck_contexts.specs.Synthetic.{functions_of, site_of, start_of};

use ck_base::{FnId, Spot, State};

/// A function, and the place of its name in its definition.
#[derive(Clone, Copy, Debug, PartialEq, Eq)]
pub struct Named {
    pub function: FnId,
    pub name: Spot,
}

/// What starts a context, and the functions that it runs. Functions that are called back are in the order
/// of their numbers.
#[derive(Debug, Drop)]
pub enum Context {
    /// The program, which runs `main`.
    Main(Named),
    /// A thread with this function.
    Thread(Named),
    /// The interrupt of a vector with this function. A fast one is of a priority above the kernel's mask.
    Vector { function: Named, fast: bool },
    /// The interrupt of a driver that calls any of these functions back, locked if the driver holds the lock.
    Callback { functions: Vec<FnId>, locked: bool },
    /// The interrupt of the kernel's timer, which calls any of these functions.
    Timer { functions: Vec<FnId> },
}

impl Context {
    /// The state in which the context starts (docs/FLOW.md, "Entries").
    pub fn start(&self) -> State
        ensures { result ≡ start_of self.now }
    {
        match self {
            Context::Main(_) => State::TI,
            Context::Thread(_) => State::TN,
            Context::Vector { fast: true, .. } => State::FF,
            Context::Vector { .. } | Context::Callback { .. } | Context::Timer { .. } => State::HB,
        }
    }

    /// The place in the text of the points of its synthetic function.
    pub(crate) fn site(&self) -> Spot
        ensures { result ≡ site_of self.now }
    {
        match self {
            Context::Main(function) => function.name,
            Context::Thread(function) => function.name,
            Context::Vector { function, .. } => function.name,
            Context::Callback { .. } | Context::Timer { .. } => Spot::Nowhere,
        }
    }

    /// How many functions it runs.
    pub(crate) fn function_count(&self) -> u32
        requires { length (functions_of self.now) < 2 ^ 32 }
        ensures { result ≡ length (functions_of self.now) }
    {
        match self {
            Context::Main(_) | Context::Thread(_) | Context::Vector { .. } => 1,
            Context::Callback { functions, .. } => functions.len() as u32,
            Context::Timer { functions } => functions.len() as u32,
        }
    }
}
