//! The syntax trees of the C subset in memory.
//!
//! In: tokens, smaller trees, and an allocator for boxes. Out: one type per kind of node with one variant per
//! production; for each production a builder, whose clause says which plain tree came of it; first and last
//! tokens, and the name and shape of a declarator. What rules it is the views from the trees in memory to the
//! plain trees of ck_grammar, `specs/ExpressionViews.antt` and its neighbours. A builder takes its parts as
//! the tree holds them, so it can't fail: `boxed` of each type that is boxed is all that takes memory.
//!
//! Crates above rest on `proofs/Views.antt`, whose one ruleset `views` has the plain tree of each production and of
//! each struct by its fields, and on `proofs/GrowingRows.antt`, rows that a loop pushes. What the grammar writes as a
//! first element and others is read by the fields, which `views` says too: a walk needs no list of its own.
//!
//! Left-associative operators, suffixes, pointer stars and items are vectors, so no walk and no drop goes
//! deeper than the nesting. It must not know: types, scopes, and how tokens are cut or read.
#![tactic(auto)]

mod declarations;
mod declarator_ends;
mod declarators;
mod ends;
mod expressions;
mod externals;
mod initialisers;
mod shapes;
mod specifiers;
mod statement_ends;
mod statements;

pub use declarations::{Decl, ForStart, Initialiser, NextDeclared};
pub use declarators::{
    Declarator, Dim, Ellipsis, NextDeclarator, NextParameter, Parameters, TypeName,
};
pub use expressions::{Expr, Operand, Suffix};
pub use externals::{External, Unit};
pub use initialisers::{BracedInit, Designation, Designator, EarlierInit, Init};
pub use shapes::Shape;
pub use specifiers::{
    EarlierEnumerator, EnumSpecifier, Enumerator, Member, Specifier, StructSpecifier,
};
pub use statements::{BlockItem, Controlling, ForHead, Stmt};
