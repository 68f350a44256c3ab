//! The points of whole functions, with their edges, from a typed project's tables (C99 6.7.8, 6.8, 6.9.1).
//!
//! In: a project, and the number of a function with a body. Out: its points, as ck_points defines them, without the
//! deeds of their edges, the last one first. The body is walked from its last item to its first; what it has of labels
//! and status variables is noted before, and the labels of a `switch` where its test is drawn. A walk goes into what a
//! statement encloses, and over items, declarators and elements by loops. `specs/Lib.antt` is in reading order.
//!
//! It must not know: numbers of points, kinds of calls, the deeds of edges, how an expression is drawn.
#![tactic(auto)]

mod declarations;
mod functions;
mod initialisers;
mod labels;
mod notes;
mod parts;
mod statements;
mod switches;
mod walk;

pub use functions::function_points;
