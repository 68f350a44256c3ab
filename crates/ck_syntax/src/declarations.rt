//! Declarations, and what `for` begins with: the types, and a builder for each production.
ghost use Rattle.std.specs.Prelude.{◌≡◌, IfOk};
ghost use Rattle.ck_grammar.specs.Statements as plain;
ghost use Rattle.ck_syntax.specs.ExpressionViews.{expr_tree, declarator_tree, specifier_trees};
ghost use Rattle.ck_syntax.specs.DeclarationViews.{declared_before, declared_trees, declared_tree, declaration_tree};
ghost use Rattle.ck_syntax.specs.DeclarationViews.{for_start_tree, initialised_before};

use crate::declarators::Declarator;
use crate::expressions::Expr;
use crate::initialisers::Init;
use crate::specifiers::Specifier;
use ck_base::{OutOfMemory, Token};
use std::alloc::Allocator;

/// `=` and an initialiser (C99 6.7).
pub struct Initialiser<A: Allocator> {
    pub equals: Token,
    pub init: Init<A>,
}

/// A comma and a further declarator, maybe with an initialiser (6.7).
pub struct NextDeclared<A: Allocator> {
    pub comma: Token,
    pub declarator: Declarator<A>,
    pub initialiser: Option<Initialiser<A>>,
}

/// A declaration (6.7).
pub enum Decl<A: Allocator> {
    /// Specifiers and `;`
    Bare {
        specifiers: Vec<Specifier<A>, A>,
        semicolon: Token,
    },
    /// Specifiers, a declarator and maybe its initialiser, further ones, `;` The declarators are `declarator`, and
    /// those of `others` in order; the definition `declaration_tree` says so.
    Declares {
        specifiers: Vec<Specifier<A>, A>,
        declarator: Declarator<A>,
        initialiser: Option<Initialiser<A>>,
        others: Vec<NextDeclared<A>, A>,
        semicolon: Token,
    },
}

/// What `for` begins with (6.8.5.3).
pub enum ForStart<A: Allocator> {
    /// `;`
    Empty(Token),
    /// expression `;`
    ExpressionStatement { expr: Expr<A>, semicolon: Token },
    /// A declaration.
    Declares(Box<Decl<A>, A>),
}

// Drops are written by hand: a derived one is written out wherever a tree is let go, here and in the crates above.
impl<A: Allocator> Drop for Initialiser<A> {
    fn drop(self) {
        let Initialiser {
            equals: _equals,
            init: _init,
        } = self;
    }
}

impl<A: Allocator> Drop for NextDeclared<A> {
    fn drop(self) {
        let NextDeclared {
            comma: _comma,
            declarator: _declarator,
            initialiser: _initialiser,
        } = self;
    }
}

impl<A: Allocator> Drop for Decl<A> {
    fn drop(self) {
        match self {
            Decl::Bare {
                specifiers: _specifiers,
                semicolon: _semicolon,
            } => {}
            Decl::Declares {
                specifiers: _specifiers,
                declarator: _declarator,
                initialiser: _initialiser,
                others: _others,
                semicolon: _semicolon,
            } => {}
        }
    }
}

impl<A: Allocator> Drop for ForStart<A> {
    fn drop(self) {
        match self {
            ForStart::Empty(_semicolon) => {}
            ForStart::ExpressionStatement {
                expr: _expr,
                semicolon: _semicolon,
            } => {}
            ForStart::Declares(_declaration) => {}
        }
    }
}

impl<A: Allocator> NextDeclared<A> {
    /// A comma and a further declarator, maybe with an initialiser.
    pub fn new(
        comma: Token,
        declarator: Declarator<A>,
        initialiser: Option<Initialiser<A>>,
    ) -> NextDeclared<A>
        ensures { declared_before result ≡ initialised_before comma declarator initialiser }
    {
        NextDeclared {
            comma,
            declarator,
            initialiser,
        }
    }
}

impl<A: Allocator> Decl<A> {
    /// The declaration in a box, as builders take it.
    pub fn boxed(self, alloc: A) -> Result<Box<Decl<A>, A>, OutOfMemory>
        ensures { IfOk result (λ boxed. boxed.value ≡ self) }
    {
        Ok(Box::new(alloc, self)?)
    }

    /// Specifiers and `;`
    pub fn bare(specifiers: Vec<Specifier<A>, A>, semicolon: Token) -> Decl<A>
        ensures { declaration_tree result ≡ plain.Bare (specifier_trees specifiers.items) semicolon }
    {
        Decl::Bare {
            specifiers,
            semicolon,
        }
    }

    /// Specifiers, a declarator and maybe its initialiser, further ones, `;`
    pub fn declares(
        specifiers: Vec<Specifier<A>, A>,
        declarator: Declarator<A>,
        initialiser: Option<Initialiser<A>>,
        others: Vec<NextDeclared<A>, A>,
        semicolon: Token,
    ) -> Decl<A>
        ensures { declaration_tree result ≡ plain.Declares (specifier_trees specifiers.items)
            (declarator_tree declarator) (declared_tree initialiser (declared_trees others.items)) semicolon }
    {
        Decl::Declares {
            specifiers,
            declarator,
            initialiser,
            others,
            semicolon,
        }
    }
}

impl<A: Allocator> ForStart<A> {
    /// `;`
    pub fn empty(semicolon: Token) -> ForStart<A>
        ensures { for_start_tree result ≡ plain.StartEmpty semicolon }
    {
        ForStart::Empty(semicolon)
    }

    /// expression `;`
    pub fn expression(expr: Expr<A>, semicolon: Token) -> ForStart<A>
        ensures { for_start_tree result ≡ plain.StartExpr (expr_tree expr) semicolon }
    {
        ForStart::ExpressionStatement { expr, semicolon }
    }

    /// A declaration.
    pub fn declaration(declaration: Box<Decl<A>, A>) -> ForStart<A>
        ensures { for_start_tree result ≡ plain.StartDeclaration (declaration_tree declaration.value) }
    {
        ForStart::Declares(declaration)
    }
}
