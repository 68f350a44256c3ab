//! Expressions: the types, and a builder for each production.
ghost use Rattle.std.specs.Prelude.{◌≡◌, IfOk};
ghost use Rattle.ck_grammar.specs.Trees as plain;
ghost use Rattle.ck_syntax.specs.ExpressionViews.{expr_tree, operand_before, operand_trees, suffix_before};
ghost use Rattle.ck_syntax.specs.ExpressionViews.{suffix_trees, specifier_trees, declarator_tree};

use crate::declarators::TypeName;
use ck_base::{OutOfMemory, Token};
use std::alloc::Allocator;

/// An expression (C99 6.5).
#[cycle(trees)]
pub enum Expr<A: Allocator> {
    /// A name.
    Name(Token),
    /// A number or a character constant.
    Constant(Token),
    /// String literals, neighbours joined.
    Strings {
        first: Token,
        others: Vec<Token, A>,
    },
    /// `(` expression `)`
    Paren {
        opening: Token,
        inner: Box<Expr<A>, A>,
        closing: Token,
    },
    /// A primary expression and its suffixes.
    Postfix {
        primary: Box<Expr<A>, A>,
        suffixes: Vec<Suffix<A>, A>,
    },
    /// A prefix operator or `sizeof`, and an operand.
    Unary {
        operator: Token,
        operand: Box<Expr<A>, A>,
    },
    /// `sizeof` `(` type name `)`
    SizeofType {
        keyword: Token,
        type_name: Box<TypeName<A>, A>,
    },
    /// `(` type name `)` operand
    Cast {
        type_name: Box<TypeName<A>, A>,
        operand: Box<Expr<A>, A>,
    },
    /// Operands of one left-associative level, from `*` to `||`, or of the comma.
    Chain {
        first: Box<Expr<A>, A>,
        operands: Vec<Operand<A>, A>,
    },
    /// test `?` expression `:` expression
    Conditional {
        test: Box<Expr<A>, A>,
        question: Token,
        then: Box<Expr<A>, A>,
        colon: Token,
        otherwise: Box<Expr<A>, A>,
    },
    /// Left side, assignment operator, right side.
    Assignment {
        target: Box<Expr<A>, A>,
        operator: Token,
        value: Box<Expr<A>, A>,
    },
}

/// An operator and its right operand; in a call, a comma and an argument.
#[cycle(trees)]
pub struct Operand<A: Allocator> {
    pub operator: Token,
    pub operand: Expr<A>,
}

/// A suffix of a primary expression (6.5.2).
#[cycle(trees)]
pub enum Suffix<A: Allocator> {
    /// `[` expression `]`
    Index {
        opening: Token,
        index: Box<Expr<A>, A>,
        closing: Token,
    },
    /// `(` `)`
    CallEmpty {
        opening: Token,
        closing: Token,
    },
    /// `(` argument, and with commas before them the others `)` The arguments are `first`, and the operands of `others`
    /// in order; the law `suffix_before-Call` of the ruleset `views` says so.
    Call {
        opening: Token,
        first: Box<Expr<A>, A>,
        others: Vec<Operand<A>, A>,
        closing: Token,
    },
    /// `.` or `->`, and a member's name.
    MemberAccess {
        operator: Token,
        member: Token,
    },
    /// `++` or `--`
    PostIncrement(Token),
}

// Drops are written by hand: a derived one is written out wherever a tree is let go, here and in the crates above.
impl<A: Allocator> Drop for Expr<A> {
    #[cycle(trees)]
    fn drop(self) {
        match self {
            Expr::Name(_token) => {}
            Expr::Constant(_token) => {}
            Expr::Strings {
                first: _first,
                others: _others,
            } => {}
            Expr::Paren {
                opening: _opening,
                inner: _inner,
                closing: _closing,
            } => {}
            Expr::Postfix {
                primary: _primary,
                suffixes: _suffixes,
            } => {}
            Expr::Unary {
                operator: _operator,
                operand: _operand,
            } => {}
            Expr::SizeofType {
                keyword: _keyword,
                type_name: _type_name,
            } => {}
            Expr::Cast {
                type_name: _type_name,
                operand: _operand,
            } => {}
            Expr::Chain {
                first: _first,
                operands: _operands,
            } => {}
            Expr::Conditional {
                test: _test,
                question: _question,
                then: _then,
                colon: _colon,
                otherwise: _otherwise,
            } => {}
            Expr::Assignment {
                target: _target,
                operator: _operator,
                value: _value,
            } => {}
        }
    }
}

impl<A: Allocator> Drop for Operand<A> {
    #[cycle(trees)]
    fn drop(self) {
        let Operand {
            operator: _operator,
            operand: _operand,
        } = self;
    }
}

impl<A: Allocator> Drop for Suffix<A> {
    #[cycle(trees)]
    fn drop(self) {
        match self {
            Suffix::Index {
                opening: _opening,
                index: _index,
                closing: _closing,
            } => {}
            Suffix::CallEmpty {
                opening: _opening,
                closing: _closing,
            } => {}
            Suffix::Call {
                opening: _opening,
                first: _first,
                others: _others,
                closing: _closing,
            } => {}
            Suffix::MemberAccess {
                operator: _operator,
                member: _member,
            } => {}
            Suffix::PostIncrement(_operator) => {}
        }
    }
}

#[tactic(auto, using(crate::proofs::Equations::views))]
impl<A: Allocator> Expr<A> {
    /// The expression in a box, as builders take it.
    pub fn boxed(self, alloc: A) -> Result<Box<Expr<A>, A>, OutOfMemory>
        ensures { IfOk result (λ boxed. boxed.value ≡ self) }
    {
        Ok(Box::new(alloc, self)?)
    }

    /// A name.
    pub fn name(token: Token) -> Expr<A>
        ensures { expr_tree result ≡ plain.Name token }
    {
        Expr::Name(token)
    }

    /// A number or a character constant.
    pub fn constant(token: Token) -> Expr<A>
        ensures { expr_tree result ≡ plain.Constant token }
    {
        Expr::Constant(token)
    }

    /// String literals, neighbours joined.
    pub fn strings(first: Token, others: Vec<Token, A>) -> Expr<A>
        ensures { expr_tree result ≡ plain.Strings first others.items }
    {
        Expr::Strings { first, others }
    }

    /// `(` expression `)`
    pub fn paren(opening: Token, inner: Box<Expr<A>, A>, closing: Token) -> Expr<A>
        ensures { expr_tree result ≡ plain.Paren opening (expr_tree inner.value) closing }
    {
        Expr::Paren {
            opening,
            inner,
            closing,
        }
    }

    /// A primary expression and its suffixes.
    pub fn postfix(primary: Box<Expr<A>, A>, suffixes: Vec<Suffix<A>, A>) -> Expr<A>
        ensures { expr_tree result ≡ plain.Postfix (expr_tree primary.value) (suffix_trees suffixes.items) }
    {
        Expr::Postfix { primary, suffixes }
    }

    /// A prefix operator or `sizeof`, and an operand.
    pub fn unary(operator: Token, operand: Box<Expr<A>, A>) -> Expr<A>
        ensures { expr_tree result ≡ plain.Unary operator (expr_tree operand.value) }
    {
        Expr::Unary { operator, operand }
    }

    /// `sizeof` `(` type name `)`
    pub fn sizeof_type(keyword: Token, type_name: Box<TypeName<A>, A>) -> Expr<A>
        ensures { expr_tree result ≡ plain.SizeofType keyword type_name.value.opening
            (specifier_trees type_name.value.specifiers.items) (declarator_tree type_name.value.declarator)
            type_name.value.closing }
    {
        Expr::SizeofType { keyword, type_name }
    }

    /// `(` type name `)` operand
    pub fn cast(type_name: Box<TypeName<A>, A>, operand: Box<Expr<A>, A>) -> Expr<A>
        ensures { expr_tree result ≡ plain.Cast type_name.value.opening
            (specifier_trees type_name.value.specifiers.items) (declarator_tree type_name.value.declarator)
            type_name.value.closing (expr_tree operand.value) }
    {
        Expr::Cast { type_name, operand }
    }

    /// Operands of one left-associative level, or of the comma.
    pub fn chain(first: Box<Expr<A>, A>, operands: Vec<Operand<A>, A>) -> Expr<A>
        ensures { expr_tree result ≡ plain.Chain (expr_tree first.value) (operand_trees operands.items) }
    {
        Expr::Chain { first, operands }
    }

    /// test `?` expression `:` expression
    pub fn conditional(
        test: Box<Expr<A>, A>,
        question: Token,
        then: Box<Expr<A>, A>,
        colon: Token,
        otherwise: Box<Expr<A>, A>,
    ) -> Expr<A>
        ensures { expr_tree result ≡ plain.Conditional (expr_tree test.value) question (expr_tree then.value) colon
            (expr_tree otherwise.value) }
    {
        Expr::Conditional {
            test,
            question,
            then,
            colon,
            otherwise,
        }
    }

    /// Left side, assignment operator, right side.
    pub fn assignment(target: Box<Expr<A>, A>, operator: Token, value: Box<Expr<A>, A>) -> Expr<A>
        ensures { expr_tree result ≡ plain.Assignment (expr_tree target.value) operator (expr_tree value.value) }
    {
        Expr::Assignment {
            target,
            operator,
            value,
        }
    }
}

impl<A: Allocator> Operand<A> {
    /// An operator and its right operand.
    pub fn new(operator: Token, operand: Expr<A>) -> Operand<A>
        ensures { operand_before result ≡ plain.Operand operator (expr_tree operand) }
    {
        Operand { operator, operand }
    }
}

#[tactic(auto, using(crate::proofs::Equations::views))]
impl<A: Allocator> Suffix<A> {
    /// `[` expression `]`
    pub fn index(opening: Token, index: Box<Expr<A>, A>, closing: Token) -> Suffix<A>
        ensures { (rest : plain.Suffixes) → suffix_before result rest
            ≡ plain.Index opening (expr_tree index.value) closing rest }
    {
        Suffix::Index {
            opening,
            index,
            closing,
        }
    }

    /// `(` `)`
    pub fn call_empty(opening: Token, closing: Token) -> Suffix<A>
        ensures { (rest : plain.Suffixes) → suffix_before result rest ≡ plain.CallEmpty opening closing rest }
    {
        Suffix::CallEmpty { opening, closing }
    }

    /// `(` argument, and with commas before them the others `)`
    pub fn call(
        opening: Token,
        first: Box<Expr<A>, A>,
        others: Vec<Operand<A>, A>,
        closing: Token,
    ) -> Suffix<A>
        ensures { (rest : plain.Suffixes) → suffix_before result rest
            ≡ plain.Call opening (expr_tree first.value) (operand_trees others.items) closing rest }
    {
        Suffix::Call {
            opening,
            first,
            others,
            closing,
        }
    }

    /// `.` or `->`, and a member's name.
    pub fn member_access(operator: Token, member: Token) -> Suffix<A>
        ensures { (rest : plain.Suffixes) → suffix_before result rest ≡ plain.MemberAccess operator member rest }
    {
        Suffix::MemberAccess { operator, member }
    }

    /// `++` or `--`
    pub fn post_increment(operator: Token) -> Suffix<A>
        ensures { (rest : plain.Suffixes) → suffix_before result rest ≡ plain.PostIncrement operator rest }
    {
        Suffix::PostIncrement(operator)
    }
}
