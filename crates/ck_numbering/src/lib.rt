//! Numbers for the points of all functions.
//!
//! In: the drafts of each function, in any order. Out: the parts of a flow graph, whose points are numbered by
//! function, path, orders and side, and whose edges lead to numbers. What rules it: `IsGraph` of ck_points. The order
//! of places is in `specs/PlaceOrder.antt`.
//!
//! It must not know: trees, how drafts are made, call targets.
#![tactic(auto)]

mod functions;
mod limit;
mod links;
mod order;

pub use functions::graph_of;
pub use limit::function_past_limit;
