//! Initialisers and designators: the types, and a builder for each production.
ghost use Rattle.std.specs.Prelude.{◌≡◌, IfOk};
ghost use Rattle.ck_grammar.specs.Statements as plain;
ghost use Rattle.ck_syntax.specs.ExpressionViews.{expr_tree};
ghost use Rattle.ck_syntax.specs.Rows.{row_before};
ghost use Rattle.ck_syntax.specs.InitialiserViews.{designator_before, designation_tree, designation_option, init_tree};
ghost use Rattle.ck_syntax.specs.InitialiserViews.{init_before, init_trees, braced_tree};

use crate::expressions::Expr;
use ck_base::{OutOfMemory, Token};
use std::alloc::Allocator;

/// A designator (C99 6.7.8).
pub enum Designator<A: Allocator> {
    /// `.` name
    DotName {
        dot: Token,
        name: Token,
    },
    /// `[` conditional expression `]`
    AtIndex {
        opening: Token,
        index: Box<Expr<A>, A>,
        closing: Token,
    },
}

/// Designators and `=`.
pub struct Designation<A: Allocator> {
    pub designators: Vec<Designator<A>, A>,
    pub equals: Token,
}

/// An initialiser (6.7.8).
#[cycle(initialisers)]
pub enum Init<A: Allocator> {
    /// An assignment expression.
    Value(Expr<A>),
    /// Initialisers in braces.
    Braced(Box<BracedInit<A>, A>),
}

/// `{` initialisers `}` (6.7.8): those before a comma and others, the last one after its designators, and maybe a
/// comma. Its initialisers are those of `earlier` in order, and `last`; the law `braced_tree-parts` of the ruleset
/// `views` says so.
#[cycle(initialisers)]
pub struct BracedInit<A: Allocator> {
    pub opening: Token,
    pub earlier: Vec<EarlierInit<A>, A>,
    pub designation: Option<Box<Designation<A>, A>>,
    pub last: Init<A>,
    pub comma: Option<Token>,
    pub closing: Token,
}

/// An initialiser in braces, maybe after designators, and the comma after it, before another one.
#[cycle(initialisers)]
pub struct EarlierInit<A: Allocator> {
    pub designation: Option<Box<Designation<A>, A>>,
    pub init: Init<A>,
    pub comma: Token,
}

// Drops are written by hand: a derived one is written out wherever a tree is let go, here and in the crates above.
impl<A: Allocator> Drop for Designator<A> {
    fn drop(self) {
        match self {
            Designator::DotName {
                dot: _dot,
                name: _name,
            } => {}
            Designator::AtIndex {
                opening: _opening,
                index: _index,
                closing: _closing,
            } => {}
        }
    }
}

impl<A: Allocator> Drop for Designation<A> {
    fn drop(self) {
        let Designation {
            designators: _designators,
            equals: _equals,
        } = self;
    }
}

impl<A: Allocator> Drop for Init<A> {
    #[cycle(initialisers)]
    fn drop(self) {
        match self {
            Init::Value(_value) => {}
            Init::Braced(_braced) => {}
        }
    }
}

impl<A: Allocator> Drop for BracedInit<A> {
    #[cycle(initialisers)]
    fn drop(self) {
        let BracedInit {
            opening: _opening,
            earlier: _earlier,
            designation: _designation,
            last: _last,
            comma: _comma,
            closing: _closing,
        } = self;
    }
}

impl<A: Allocator> Drop for EarlierInit<A> {
    #[cycle(initialisers)]
    fn drop(self) {
        let EarlierInit {
            designation: _designation,
            init: _init,
            comma: _comma,
        } = self;
    }
}

impl<A: Allocator> Designator<A> {
    /// `.` name
    pub fn dot_name(dot: Token, name: Token) -> Designator<A>
        ensures { designator_before result ≡ plain.DotName dot name }
    {
        Designator::DotName { dot, name }
    }

    /// `[` conditional expression `]`
    pub fn at_index(opening: Token, index: Box<Expr<A>, A>, closing: Token) -> Designator<A>
        ensures { designator_before result ≡ plain.AtIndex opening (expr_tree index.value) closing }
    {
        Designator::AtIndex {
            opening,
            index,
            closing,
        }
    }
}

impl<A: Allocator> Designation<A> {
    /// The designation in a box, as builders take it.
    pub fn boxed(self, alloc: A) -> Result<Box<Designation<A>, A>, OutOfMemory>
        ensures { IfOk result (λ boxed. boxed.value ≡ self) }
    {
        Ok(Box::new(alloc, self)?)
    }

    /// Designators and `=`.
    pub fn new(designators: Vec<Designator<A>, A>, equals: Token) -> Designation<A>
        ensures { designation_tree result ≡ row_before designator_before designators.items (plain.Equals equals) }
    {
        Designation {
            designators,
            equals,
        }
    }
}

#[tactic(auto, using(crate::proofs::InitialiserEquations::initialiser_views))]
impl<A: Allocator> Init<A> {
    /// An assignment expression.
    pub fn value(value: Expr<A>) -> Init<A>
        ensures { init_tree result ≡ plain.Value (expr_tree value) }
    {
        Init::Value(value)
    }

    /// Initialisers in braces.
    pub fn braced(braced: Box<BracedInit<A>, A>) -> Init<A>
        ensures { init_tree result ≡ braced_tree braced.value }
    {
        Init::Braced(braced)
    }
}

#[tactic(auto, using(crate::proofs::InitialiserEquations::initialiser_views))]
impl<A: Allocator> BracedInit<A> {
    /// The initialisers in a box, as builders take them.
    pub fn boxed(self, alloc: A) -> Result<Box<BracedInit<A>, A>, OutOfMemory>
        ensures { IfOk result (λ boxed. boxed.value ≡ self) }
    {
        Ok(Box::new(alloc, self)?)
    }

    /// `{` initialisers `}`
    pub fn new(
        opening: Token,
        earlier: Vec<EarlierInit<A>, A>,
        designation: Option<Box<Designation<A>, A>>,
        last: Init<A>,
        comma: Option<Token>,
        closing: Token,
    ) -> BracedInit<A>
        ensures { braced_tree result ≡ plain.Braced opening
            (init_trees earlier.items (plain.LastInit (designation_option designation) (init_tree last) comma))
            closing }
    {
        BracedInit {
            opening,
            earlier,
            designation,
            last,
            comma,
            closing,
        }
    }
}

#[tactic(auto, using(crate::proofs::InitialiserEquations::initialiser_views))]
impl<A: Allocator> EarlierInit<A> {
    /// An initialiser in braces, maybe after designators, and the comma after it.
    pub fn new(
        designation: Option<Box<Designation<A>, A>>,
        init: Init<A>,
        comma: Token,
    ) -> EarlierInit<A>
        ensures { init_before result ≡ plain.NextInit (designation_option designation) (init_tree init) comma }
    {
        EarlierInit {
            designation,
            init,
            comma,
        }
    }
}
