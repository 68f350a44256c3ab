//! Laws about the definitions, each the contract of a function that does nothing.
ghost use Rattle.ck_contexts.specs.Actions.{EntriesDo};
ghost use Rattle.ck_contexts.specs.KernelActs.{ActsAreKernelCalls};
ghost use Rattle.ck_contexts.specs.Laws.{ContextsAddFew, FilledIsSound};

/// In the graph that `extended` gives, the ways through the synthetic function of each context make exactly the
/// acts and calls that docs/FLOW.md says of its kind, in any number and order where it says any list.
pub fn entries_do()
    ensures { EntriesDo }
{}

/// The acts of the kernel in synthetic functions are rows of its call table: chSysLockFromISR,
/// chSysUnlockFromISR, CH_IRQ_PROLOGUE and CH_IRQ_EPILOGUE, with their ops.
pub fn acts_are_kernel_calls()
    ensures { ActsAreKernelCalls }
{}

/// A graph without a fault has none with its targets filled in, where they are numbers of its functions.
pub fn filled_is_sound()
    ensures { FilledIsSound }
{}

/// Each context adds one function, and at most three points for each function that it runs and seven more. So
/// what `extended` requires of the numbers holds where contexts and functions are few.
pub fn contexts_add_few()
    ensures { ContextsAddFew }
{}
