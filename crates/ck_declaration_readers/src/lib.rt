//! Readers of initialisers and of declarations that declare no types (C99 6.7.8, 6.7) over any trees.
//!
//! In: a `Source`, the builders of `BuildingDeclarations`, and closures that read what is inside. Out: for each
//! production the tree at a place and the place after it, where the grammar's reader reads one. What rules it is
//! `ReadingStatements.antt` of ck_grammar, function by function, by the clauses of `Places.antt` of ck_readers.
//! Nothing here recurses: who puts the readers together does, and says how deep.
//!
//! It must not know: where trees are kept, how deep a file may nest, what a type or a name means.
#![tactic(auto)]

mod declarations;
mod designators;
mod initialisers;
mod laws;

pub use declarations::{declaration, declares};
pub use initialisers::initialiser;
pub use laws::reads_block_declarations;
