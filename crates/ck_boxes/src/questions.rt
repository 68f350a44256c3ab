//! What readers ask of trees.
ghost use Rattle.std.specs.Prelude.{◌≡◌};
ghost use Rattle.ck_boxes.specs.Depths.{kept};
ghost use Rattle.ck_grammar.specs.Fitting.{is_written};
ghost use Rattle.ck_grammar.specs.Nesting.{abstract_nesting, dims_nesting};
ghost use Rattle.ck_grammar.specs.Trees as plain;
ghost use Rattle.ck_readers.specs.Forms.{first_operator, form, only_word_of};
ghost use Rattle.ck_readers.specs.Rows.{ellipsis_end};
ghost use Rattle.ck_syntax.specs.ExpressionViews.{expr_tree, operand_trees, specifier_before, specifier_trees};
ghost use Rattle.ck_syntax.specs.ExpressionViews.{declarator_tree, dim_trees, ellipsis_tree};

use crate::depths::one_more;
use ck_base::Token;
use ck_readers::Form;
use ck_syntax::{Declarator, Dim, Ellipsis, Expr, Operand, Specifier};
use std::alloc::Allocator;

/// The outermost production of an expression.
#[tactic(auto, using(ck_syntax::proofs::Views::views))]
pub fn form_of<A: Allocator>(tree: &Expr<A>) -> Form
    ensures { result ≡ form (expr_tree tree.now) }
{
    match tree {
        Expr::Name(_) => Form::Unary,
        Expr::Constant(_) => Form::Unary,
        Expr::Strings { .. } => Form::Unary,
        Expr::Paren { .. } => Form::Unary,
        Expr::Postfix { .. } => Form::Unary,
        Expr::Unary { .. } => Form::Unary,
        Expr::SizeofType { .. } => Form::Unary,
        Expr::Cast { .. } => Form::Cast,
        Expr::Chain { operands, .. } => Form::Chain(operator_of(operands.as_slice())),
        Expr::Conditional { .. } => Form::Looser,
        Expr::Assignment { .. } => Form::Looser,
    }
}

/// The first operator of a chain, if it has one.
fn operator_of<A: Allocator>(operands: &[Operand<A>]) -> Option<Token>
    ensures { result ≡ first_operator (operand_trees operands.now) }
{
    match operands {
        [first, ..] => Some(first.operator),
        [] => None,
    }
}

/// The only specifier, where it is a word.
pub fn only_word_in<A: Allocator>(specifiers: &[Specifier<A>]) -> Option<Token>
    ensures { result ≡ only_word_of (specifier_trees specifiers.now) }
{
    match specifiers {
        [only] => word_of(only),
        _ => None,
    }
}

/// The token of a specifier that is a word.
#[tactic(auto, using(ck_syntax::proofs::Views::views))]
fn word_of<A: Allocator>(specifier: &Specifier<A>) -> Option<Token>
    ensures { result ≡ only_word_of (specifier_before specifier.now plain.NoSpecifiers) }
{
    match specifier {
        Specifier::Word(token) => Some(*token),
        Specifier::TypedefName(_) => None,
        Specifier::Tagged { .. } => None,
        Specifier::Struct(_) => None,
        Specifier::Enum(_) => None,
    }
}

/// Whether something of a declarator is written.
#[tactic(auto, using(ck_syntax::proofs::Views::views))]
pub fn shows<A: Allocator>(tree: &Declarator<A>) -> bool
    ensures { result ≡ is_written (declarator_tree tree.now) }
{
    match tree {
        Declarator::Abstract { stars, dims } => shows_parts(stars.as_slice(), dims.as_slice()),
        Declarator::Named { .. } => true,
        Declarator::Nested { .. } => true,
    }
}

/// Whether something of an abstract declarator is written.
fn shows_parts<A: Allocator>(stars: &[Token], dims: &[Dim<A>]) -> bool
    ensures { result ≡ is_written (plain.Abstract stars.now (dim_trees dims.now)) }
{
    if !stars.is_empty() {
        return true;
    }
    !dims.is_empty()
}

/// How deep an abstract declarator nests, whose dimensions and parameters nest so deep.
pub fn abstract_depth<A: Allocator>(stars: &[Token], dims: &[Dim<A>], depth: u16) -> u16
    ensures { depth ≡ kept (dims_nesting (dim_trees dims.now))
        → result ≡ kept (abstract_nesting stars.now (dim_trees dims.now) (dims_nesting (dim_trees dims.now))) }
{
    if !shows_parts(stars, dims) {
        return 0;
    }
    one_more(depth)
}

/// A comma and `...`, if they are there.
pub fn ellipsis_of(marks: Option<(Token, Token)>) -> Option<Ellipsis>
    ensures { ellipsis_tree result ≡ ellipsis_end marks }
{
    match marks {
        Some(both) => Some(Ellipsis {
            comma: both.0,
            dots: both.1,
        }),
        None => None,
    }
}
