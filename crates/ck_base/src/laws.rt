//! Laws about the definitions, each the contract of a function that does nothing.
ghost use Rattle.ck_base.specs.Counters.{CountersFollowKernel, StatusFollowsKernel, TableFollowsKernel};

/// The state table says what the kernel's own words say. Outside a fast handler, the table gives SV#n
/// for an op exactly where the kernel halts with it, at the two counters and the status that the state
/// stands for. So protocol alarms and ORDER come only where the kernel halts with no SV#n. And where
/// the table allows a call, the next state stands for the counters and the status after it.
pub fn table_follows_the_kernel()
    ensures halts { TableFollowsKernel }
    ensures counters { CountersFollowKernel }
    ensures status { StatusFollowsKernel }
{}
