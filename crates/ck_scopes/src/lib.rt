//! What names mean while scopes are open, over the numbers of names, in constant time.
//!
//! In: the scopes of a project's files as they open and close, each declaration with the number of its name and its
//! name space, and its linkage where it has one. Out: the number of what a name means, of what it means by the
//! innermost scope alone, and of the latest declaration that is one with another. The definitions that rule it are
//! `specs/Environments.antt`, which has the places of ck_prog over numbers, and `specs/Links.antt`; two laws lead back
//! to ck_prog's entries (`specs/Agreement.antt`).
//!
//! Nothing is searched: each declaration in sight keeps the one that it hides, and what a scope declared is taken back
//! once, where it closes.
//!
//! It must not know: the bytes of names, types, settings, flow, what is refused.
#![tactic(auto)]

mod heads;
mod laws;
mod linkages;
mod scopes;
mod sight;
mod spaces;

pub use laws::{links_agree, meanings_agree, names_may_be_added};
pub use linkages::Linkages;
pub use scopes::Scopes;
pub use spaces::Space;
