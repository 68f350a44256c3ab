//! Trees of ck_syntax, each with how deep it nests beside it.
ghost use Rattle.std.specs.Prelude.{◌≡◌, max};
ghost use Rattle.ck_boxes.specs.Depths.{kept, NestBefore};
ghost use Rattle.ck_grammar.specs.Nesting.{nesting, specifiers_nesting, declarator_nesting, params_nesting};
ghost use Rattle.ck_grammar.specs.Nesting.{enumerators_nesting};
ghost use Rattle.ck_syntax.specs.ExpressionViews.{expr_tree, specifier_trees, declarator_tree, parameters_tree};
ghost use Rattle.ck_syntax.specs.ExpressionViews.{last_enumerator, enumerator_before, enumerator_trees};

use ck_base::Token;
use ck_syntax::{Declarator, EarlierEnumerator, Enumerator, Expr, Parameters, TypeName};
use std::alloc::Allocator;

/// An expression (C99 6.5), and how deep it nests: 65,535 where it nests deeper.
#[derive(Drop)]
pub struct MeasuredExpr<A: Allocator> {
    pub tree: Expr<A>,
    pub depth: u16,
    pub ghost measured: { depth ≡ kept (nesting (expr_tree tree)) },
}

/// `(` type name `)` (6.7.6), and how deep it nests.
#[derive(Drop)]
pub struct MeasuredTypeName<A: Allocator> {
    pub tree: TypeName<A>,
    pub depth: u16,
    pub ghost measured: { depth ≡ kept (max (specifiers_nesting (specifier_trees tree.specifiers.items))
        (declarator_nesting (declarator_tree tree.declarator))) },
}

/// A declarator (6.7.5, 6.7.6), and how deep it nests.
#[derive(Drop)]
pub struct MeasuredDeclarator<A: Allocator> {
    pub tree: Declarator<A>,
    pub depth: u16,
    pub ghost measured: { depth ≡ kept (declarator_nesting (declarator_tree tree)) },
}

/// Parameters (6.7.5.3), and how deep they nest.
#[derive(Drop)]
pub struct MeasuredParams<A: Allocator> {
    pub tree: Parameters<A>,
    pub depth: u16,
    pub ghost measured: { depth ≡ kept (params_nesting (parameters_tree tree)) },
}

/// An enumerator (6.7.2.2) without the comma after it, and how deep it nests.
#[derive(Drop)]
pub struct MeasuredEnumerator<A: Allocator> {
    pub tree: Enumerator<A>,
    pub depth: u16,
    pub ghost last: { (comma : _) → depth ≡ kept (enumerators_nesting (last_enumerator tree comma)) },
    pub ghost before: { (comma : _) → NestBefore enumerators_nesting (enumerator_before tree comma) depth },
}

/// The enumerators of an enum (6.7.2.2), and how deep they nest.
#[derive(Drop)]
pub struct MeasuredEnumerators<A: Allocator> {
    pub earlier: Vec<EarlierEnumerator<A>, A>,
    pub last: Enumerator<A>,
    pub comma: Option<Token>,
    pub depth: u16,
    pub ghost measured: { depth ≡ kept (enumerators_nesting (enumerator_trees earlier.items last comma)) },
}
