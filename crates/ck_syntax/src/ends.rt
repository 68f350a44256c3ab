//! The first and the last token that an expression is written with, and a part of a declaration; and so its span.
ghost use Rattle.std.specs.Prelude.{◌≡◌, ◌∷◌, Some, None};
ghost use Rattle.ck_grammar.specs.Trees as plain;
ghost use Rattle.ck_grammar.specs.Written as tokens;
ghost use Rattle.ck_syntax.specs.Ends.{first, IsFirst, IsLast};
ghost use Rattle.ck_syntax.specs.ExpressionViews.{expr_tree, suffix_before, specifier_before, dim_before};
ghost use Rattle.ck_syntax.specs.ExpressionViews.{last_enumerator, member_before, declarator_trees};

use crate::declarator_ends::{first_of_specifiers, last_of};
use crate::declarators::{Dim, NextDeclarator};
use crate::expressions::{Expr, Suffix};
use crate::specifiers::{Enumerator, Member, Specifier};
use ck_base::Token;
use std::alloc::Allocator;

#[tactic(auto, using(crate::proofs::Equations::views))]
impl<A: Allocator> Expr<A> {
    /// The first token of the expression.
    pub fn first_token(&self) -> Token
        ensures { IsFirst (Some result) (tokens.written (expr_tree self.now)) }
    {
        match self {
            Expr::Name(token) => *token,
            Expr::Constant(token) => *token,
            Expr::Strings { first, .. } => *first,
            Expr::Paren { opening, .. } => *opening,
            Expr::Postfix { primary, .. } => primary.first_token(),
            Expr::Unary { operator, .. } => *operator,
            Expr::SizeofType { keyword, .. } => *keyword,
            Expr::Cast { type_name, .. } => type_name.opening,
            Expr::Chain { first, .. } => first.first_token(),
            Expr::Conditional { test, .. } => test.first_token(),
            Expr::Assignment { target, .. } => target.first_token(),
        }
    }

    /// The last token of the expression.
    pub fn last_token(&self) -> Token
        ensures { IsLast (Some result) (tokens.written (expr_tree self.now)) }
    {
        match self {
            Expr::Name(token) => *token,
            Expr::Constant(token) => *token,
            Expr::Strings { first, others } => last_of(others).unwrap_or(*first),
            Expr::Paren { closing, .. } => *closing,
            Expr::Postfix { primary, suffixes } => match suffixes.as_slice() {
                [.., suffix] => suffix.last_token(),
                [] => primary.last_token(),
            },
            Expr::Unary { operand, .. } => operand.last_token(),
            Expr::SizeofType { type_name, .. } => type_name.closing,
            Expr::Cast { operand, .. } => operand.last_token(),
            Expr::Chain { first, operands } => match operands.as_slice() {
                [.., operand] => operand.operand.last_token(),
                [] => first.last_token(),
            },
            Expr::Conditional { otherwise, .. } => otherwise.last_token(),
            Expr::Assignment { value, .. } => value.last_token(),
        }
    }
}

#[tactic(auto, using(crate::proofs::Equations::views))]
impl<A: Allocator> Suffix<A> {
    /// The first token of the suffix.
    pub fn first_token(&self) -> Token
        ensures { IsFirst (Some result) (tokens.suffixes (suffix_before self.now plain.NoSuffixes)) }
    {
        match self {
            Suffix::Index { opening, .. } => *opening,
            Suffix::CallEmpty { opening, .. } => *opening,
            Suffix::Call { opening, .. } => *opening,
            Suffix::MemberAccess { operator, .. } => *operator,
            Suffix::PostIncrement(operator) => *operator,
        }
    }

    /// The last token of the suffix.
    pub fn last_token(&self) -> Token
        ensures { IsLast (Some result) (tokens.suffixes (suffix_before self.now plain.NoSuffixes)) }
    {
        match self {
            Suffix::Index { closing, .. } => *closing,
            Suffix::CallEmpty { closing, .. } => *closing,
            Suffix::Call { closing, .. } => *closing,
            Suffix::MemberAccess { member, .. } => *member,
            Suffix::PostIncrement(operator) => *operator,
        }
    }
}

#[tactic(auto, using(crate::proofs::Equations::views, crate::proofs::Equations::parts))]
impl<A: Allocator> Specifier<A> {
    /// The first token of the specifier.
    pub fn first_token(&self) -> Token
        ensures { IsFirst (Some result) (tokens.specifiers (specifier_before self.now plain.NoSpecifiers)) }
    {
        match self {
            Specifier::Word(token) => *token,
            Specifier::TypedefName(token) => *token,
            Specifier::Tagged { keyword, .. } => *keyword,
            Specifier::Struct(specifier) => specifier.keyword,
            Specifier::Enum(specifier) => specifier.keyword,
        }
    }

    /// The last token of the specifier.
    pub fn last_token(&self) -> Token
        ensures { IsLast (Some result) (tokens.specifiers (specifier_before self.now plain.NoSpecifiers)) }
    {
        match self {
            Specifier::Word(token) => *token,
            Specifier::TypedefName(token) => *token,
            Specifier::Tagged { tag, .. } => *tag,
            Specifier::Struct(specifier) => specifier.closing,
            Specifier::Enum(specifier) => specifier.closing,
        }
    }
}

impl<A: Allocator> Member<A> {
    /// The first token of the member declaration.
    pub fn first_token(&self) -> Token
        ensures { IsFirst (Some result) (tokens.members (member_before self.now plain.NoMembers)) }
    {
        first_of_specifiers(&self.specifiers)
            .or(self.first.first_token())
            .unwrap_or(after_first(&self.others, self.semicolon))
    }

    /// The last token of the member declaration, its `;`.
    pub fn last_token(&self) -> Token
        ensures { IsLast (Some result) (tokens.members (member_before self.now plain.NoMembers)) }
    {
        self.semicolon
    }
}

#[tactic(auto, using(crate::proofs::Equations::views))]
impl<A: Allocator> Enumerator<A> {
    /// The first token of the enumerator.
    pub fn first_token(&self) -> Token
        ensures { IsFirst (Some result) (tokens.enumerators (last_enumerator self.now None)) }
    {
        match self {
            Enumerator::Plain(name) => *name,
            Enumerator::Valued { name, .. } => *name,
        }
    }

    /// The last token of the enumerator.
    pub fn last_token(&self) -> Token
        ensures { IsLast (Some result) (tokens.enumerators (last_enumerator self.now None)) }
    {
        match self {
            Enumerator::Plain(name) => *name,
            Enumerator::Valued { value, .. } => value.last_token(),
        }
    }
}

#[tactic(auto, using(crate::proofs::Equations::views))]
impl<A: Allocator> Dim<A> {
    /// The first token of the dimension or the parameters.
    pub fn first_token(&self) -> Token
        ensures { IsFirst (Some result) (tokens.dims (dim_before self.now plain.NoDims)) }
    {
        match self {
            Dim::Open { opening, .. } => *opening,
            Dim::Sized { opening, .. } => *opening,
            Dim::Function { opening, .. } => *opening,
        }
    }

    /// The last token of the dimension or the parameters.
    pub fn last_token(&self) -> Token
        ensures { IsLast (Some result) (tokens.dims (dim_before self.now plain.NoDims)) }
    {
        match self {
            Dim::Open { closing, .. } => *closing,
            Dim::Sized { closing, .. } => *closing,
            Dim::Function { closing, .. } => *closing,
        }
    }
}

/// The first token after the first declarator of a member declaration: of the others, or the `;`.
fn after_first<A: Allocator>(others: &Vec<NextDeclarator<A>, A>, semicolon: Token) -> Token
    ensures { (more : _)
        → first (tokens.declarators (declarator_trees others.now.items) (semicolon ∷ more)) ≡ Some result }
{
    match others.as_slice() {
        [next, ..] => next.comma,
        [] => semicolon,
    }
}
