//! Declarators, type names and parameters: the types, and a builder for each production.
ghost use Rattle.std.specs.Prelude.{◌≡◌, IfOk};
ghost use Rattle.ck_grammar.specs.Trees as plain;
ghost use Rattle.ck_syntax.specs.ExpressionViews.{expr_tree, specifier_trees, declarator_tree, declarator_before};
ghost use Rattle.ck_syntax.specs.ExpressionViews.{dim_before, dim_trees, parameters_tree, parameter_before};
ghost use Rattle.ck_syntax.specs.ExpressionViews.{parameter_trees};

use crate::expressions::Expr;
use crate::specifiers::Specifier;
use ck_base::{OutOfMemory, Token};
use std::alloc::Allocator;

/// A declarator, or the abstract declarator of a type name (C99 6.7.5, 6.7.6): `*` and qualifiers, what is in the
/// middle, dimensions and parameters.
#[cycle(trees)]
pub enum Declarator<A: Allocator> {
    /// Nothing in the middle.
    Abstract {
        stars: Vec<Token, A>,
        dims: Vec<Dim<A>, A>,
    },
    /// A name in the middle.
    Named {
        stars: Vec<Token, A>,
        name: Token,
        dims: Vec<Dim<A>, A>,
    },
    /// `(` declarator `)` in the middle.
    Nested {
        stars: Vec<Token, A>,
        opening: Token,
        inner: Box<Declarator<A>, A>,
        closing: Token,
        dims: Vec<Dim<A>, A>,
    },
}

/// `(` type name `)`, as in a cast and after `sizeof` (6.7.6).
#[cycle(trees)]
pub struct TypeName<A: Allocator> {
    pub opening: Token,
    pub specifiers: Vec<Specifier<A>, A>,
    pub declarator: Declarator<A>,
    pub closing: Token,
}

/// A comma and a further declarator.
#[cycle(trees)]
pub struct NextDeclarator<A: Allocator> {
    pub comma: Token,
    pub declarator: Declarator<A>,
}

/// A suffix of a declarator (6.7.5.2, 6.7.5.3).
#[cycle(trees)]
pub enum Dim<A: Allocator> {
    /// `[` `]`
    Open {
        opening: Token,
        closing: Token,
    },
    /// `[` conditional expression `]`
    Sized {
        opening: Token,
        size: Box<Expr<A>, A>,
        closing: Token,
    },
    /// `(` parameters `)`
    Function {
        opening: Token,
        parameters: Box<Parameters<A>, A>,
        closing: Token,
    },
}

/// Parameters (6.7.5.3).
#[cycle(trees)]
pub enum Parameters<A: Allocator> {
    /// None.
    Empty,
    /// `void` alone.
    Void(Token),
    /// A list, and maybe a comma and `...` The parameters are `specifiers` with `declarator`, and those of `others` in
    /// order; the law `parameters_tree-Listed` of the ruleset `views` says so.
    Listed {
        specifiers: Vec<Specifier<A>, A>,
        declarator: Declarator<A>,
        others: Vec<NextParameter<A>, A>,
        ellipsis: Option<Ellipsis>,
    },
}

/// A comma and a further parameter.
#[cycle(trees)]
pub struct NextParameter<A: Allocator> {
    pub comma: Token,
    pub specifiers: Vec<Specifier<A>, A>,
    pub declarator: Declarator<A>,
}

/// A comma and `...`
#[derive(Clone, Copy, Debug, PartialEq, Eq)]
pub struct Ellipsis {
    pub comma: Token,
    pub dots: Token,
}

// Drops are written by hand: a derived one is written out wherever a tree is let go, here and in the crates above.
impl<A: Allocator> Drop for Declarator<A> {
    #[cycle(trees)]
    fn drop(self) {
        match self {
            Declarator::Abstract {
                stars: _stars,
                dims: _dims,
            } => {}
            Declarator::Named {
                stars: _stars,
                name: _name,
                dims: _dims,
            } => {}
            Declarator::Nested {
                stars: _stars,
                opening: _opening,
                inner: _inner,
                closing: _closing,
                dims: _dims,
            } => {}
        }
    }
}

impl<A: Allocator> Drop for TypeName<A> {
    #[cycle(trees)]
    fn drop(self) {
        let TypeName {
            opening: _opening,
            specifiers: _specifiers,
            declarator: _declarator,
            closing: _closing,
        } = self;
    }
}

impl<A: Allocator> Drop for NextDeclarator<A> {
    #[cycle(trees)]
    fn drop(self) {
        let NextDeclarator {
            comma: _comma,
            declarator: _declarator,
        } = self;
    }
}

impl<A: Allocator> Drop for Dim<A> {
    #[cycle(trees)]
    fn drop(self) {
        match self {
            Dim::Open {
                opening: _opening,
                closing: _closing,
            } => {}
            Dim::Sized {
                opening: _opening,
                size: _size,
                closing: _closing,
            } => {}
            Dim::Function {
                opening: _opening,
                parameters: _parameters,
                closing: _closing,
            } => {}
        }
    }
}

impl<A: Allocator> Drop for Parameters<A> {
    #[cycle(trees)]
    fn drop(self) {
        match self {
            Parameters::Empty => {}
            Parameters::Void(_token) => {}
            Parameters::Listed {
                specifiers: _specifiers,
                declarator: _declarator,
                others: _others,
                ellipsis: _ellipsis,
            } => {}
        }
    }
}

impl<A: Allocator> Drop for NextParameter<A> {
    #[cycle(trees)]
    fn drop(self) {
        let NextParameter {
            comma: _comma,
            specifiers: _specifiers,
            declarator: _declarator,
        } = self;
    }
}

#[tactic(auto, using(crate::proofs::Equations::views))]
impl<A: Allocator> Declarator<A> {
    /// The declarator in a box, as builders take it.
    pub fn boxed(self, alloc: A) -> Result<Box<Declarator<A>, A>, OutOfMemory>
        ensures { IfOk result (λ boxed. boxed.value ≡ self) }
    {
        Ok(Box::new(alloc, self)?)
    }

    /// Nothing in the middle.
    pub fn nameless(stars: Vec<Token, A>, dims: Vec<Dim<A>, A>) -> Declarator<A>
        ensures { declarator_tree result ≡ plain.Abstract stars.items (dim_trees dims.items) }
    {
        Declarator::Abstract { stars, dims }
    }

    /// A name in the middle.
    pub fn named(stars: Vec<Token, A>, name: Token, dims: Vec<Dim<A>, A>) -> Declarator<A>
        ensures { declarator_tree result ≡ plain.Named stars.items name (dim_trees dims.items) }
    {
        Declarator::Named { stars, name, dims }
    }

    /// `(` declarator `)` in the middle.
    pub fn nested(
        stars: Vec<Token, A>,
        opening: Token,
        inner: Box<Declarator<A>, A>,
        closing: Token,
        dims: Vec<Dim<A>, A>,
    ) -> Declarator<A>
        ensures { declarator_tree result ≡ plain.Nested stars.items opening (declarator_tree inner.value) closing
            (dim_trees dims.items) }
    {
        Declarator::Nested {
            stars,
            opening,
            inner,
            closing,
            dims,
        }
    }
}

impl<A: Allocator> TypeName<A> {
    /// The type name in a box, as builders take it.
    pub fn boxed(self, alloc: A) -> Result<Box<TypeName<A>, A>, OutOfMemory>
        ensures { IfOk result (λ boxed. boxed.value ≡ self) }
    {
        Ok(Box::new(alloc, self)?)
    }
}

impl<A: Allocator> NextDeclarator<A> {
    /// A comma and a further declarator.
    pub fn new(comma: Token, declarator: Declarator<A>) -> NextDeclarator<A>
        ensures { declarator_before result ≡ plain.Also comma (declarator_tree declarator) }
    {
        NextDeclarator { comma, declarator }
    }
}

#[tactic(auto, using(crate::proofs::Equations::views))]
impl<A: Allocator> Dim<A> {
    /// `[` `]`
    pub fn unspecified(opening: Token, closing: Token) -> Dim<A>
        ensures { (rest : plain.Dims) → dim_before result rest ≡ plain.Open opening closing rest }
    {
        Dim::Open { opening, closing }
    }

    /// `[` conditional expression `]`
    pub fn sized(opening: Token, size: Box<Expr<A>, A>, closing: Token) -> Dim<A>
        ensures { (rest : plain.Dims) → dim_before result rest
            ≡ plain.Sized opening (expr_tree size.value) closing rest }
    {
        Dim::Sized {
            opening,
            size,
            closing,
        }
    }

    /// `(` parameters `)`
    pub fn function(opening: Token, parameters: Box<Parameters<A>, A>, closing: Token) -> Dim<A>
        ensures { (rest : plain.Dims) → dim_before result rest
            ≡ plain.Function opening (parameters_tree parameters.value) closing rest }
    {
        Dim::Function {
            opening,
            parameters,
            closing,
        }
    }
}

#[tactic(auto, using(crate::proofs::Equations::views))]
impl<A: Allocator> Parameters<A> {
    /// The parameters in a box, as builders take them.
    pub fn boxed(self, alloc: A) -> Result<Box<Parameters<A>, A>, OutOfMemory>
        ensures { IfOk result (λ boxed. boxed.value ≡ self) }
    {
        Ok(Box::new(alloc, self)?)
    }

    /// None.
    pub fn empty() -> Parameters<A>
        ensures { parameters_tree result ≡ plain.NoParams }
    {
        Parameters::Empty
    }

    /// `void` alone.
    pub fn void(token: Token) -> Parameters<A>
        ensures { parameters_tree result ≡ plain.VoidParams token }
    {
        Parameters::Void(token)
    }

    /// A list, and maybe a comma and `...`
    pub fn listed(
        specifiers: Vec<Specifier<A>, A>,
        declarator: Declarator<A>,
        others: Vec<NextParameter<A>, A>,
        ellipsis: Option<Ellipsis>,
    ) -> Parameters<A>
        ensures { parameters_tree result ≡ plain.Parameters (specifier_trees specifiers.items)
            (declarator_tree declarator) (parameter_trees others.items ellipsis) }
    {
        Parameters::Listed {
            specifiers,
            declarator,
            others,
            ellipsis,
        }
    }
}

impl<A: Allocator> NextParameter<A> {
    /// A comma and a further parameter.
    pub fn new(
        comma: Token,
        specifiers: Vec<Specifier<A>, A>,
        declarator: Declarator<A>,
    ) -> NextParameter<A>
        ensures { parameter_before result
            ≡ plain.More comma (specifier_trees specifiers.items) (declarator_tree declarator) }
    {
        NextParameter {
            comma,
            specifiers,
            declarator,
        }
    }
}
