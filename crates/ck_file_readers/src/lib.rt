//! Readers of external declarations and of whole files (C99 6.9) over any trees.
//!
//! In: a `Source`, the builders of `BuildingStatements`, and closures that read what is inside. Out: the tree of an
//! external declaration and the place after it, and that of a file. What rules it is `external_at` and `file_loop` of
//! ck_grammar's `ReadingStatements.antt`. A declaration of types makes its names typedef names of the source, each
//! after its declarator, so the closures take the source as it is then. Nothing here recurses.
//!
//! It must not know: where trees are kept, how deep a file may nest, what a type or a name means.
#![tactic(auto)]

mod declarations;
mod externals;
mod files;
mod types;

pub use externals::external;
pub use files::file;
