//! What a declarator declares: its name, and what it says of the name first.
ghost use Rattle.std.specs.Prelude.{◌≡◌, ◌↔◌, IfSome};
ghost use Rattle.ck_syntax.specs.ExpressionViews.{declarator_tree, dim_before, dim_trees};
ghost use Rattle.ck_syntax.specs.Shapes as plain;

use crate::declarators::{Declarator, Dim};
use ck_base::Token;
use std::alloc::Allocator;

/// What a declarator says of its name first (C99 6.7.5).
#[derive(Clone, Copy, Debug, PartialEq, Eq)]
pub enum Shape {
    /// Nothing: the name has the type of the specifiers.
    Plain,
    /// A pointer.
    Pointer,
    /// An array.
    Array,
    /// A function.
    Function,
}

#[tactic(auto, using(crate::proofs::Equations::views))]
impl<A: Allocator> Declarator<A> {
    /// The name that is declared; an abstract declarator has none.
    pub fn name(&self) -> Option<Token>
        ensures { result ≡ plain.declared_name (declarator_tree self.now) }
    {
        match self {
            Declarator::Abstract { .. } => None,
            Declarator::Named { name, .. } => Some(*name),
            Declarator::Nested { inner, .. } => inner.name(),
        }
    }

    /// What the declarator says of its name first: `*f()` is a function, `(*f)()` a pointer.
    pub fn shape(&self) -> Shape
        ensures { result ≡ plain.shape (declarator_tree self.now) }
    {
        self.shape_within(Shape::Plain)
    }

    /// What the declarator says of its name first, and `outer` where it says nothing.
    fn shape_within(&self, outer: Shape) -> Shape
        ensures { result ≡ plain.shape_within (declarator_tree self.now) outer }
    {
        match self {
            Declarator::Abstract { stars, dims } => shape_of(stars, dims, outer),
            Declarator::Named { stars, dims, .. } => shape_of(stars, dims, outer),
            Declarator::Nested {
                stars,
                inner,
                dims,
                ..
            } => inner.shape_within(shape_of(stars, dims, outer)),
        }
    }
}

/// What stars and dimensions say first, and `outer` where there are none.
#[tactic(auto, using(crate::proofs::Equations::views))]
fn shape_of<A: Allocator>(stars: &Vec<Token, A>, dims: &Vec<Dim<A>, A>, outer: Shape) -> Shape
    ensures { result ≡ plain.dims_shape (dim_trees dims.now.items) (plain.stars_shape stars.now.items outer) }
{
    match dims.as_slice() {
        [dim, ..] => shape_of_dim(dim),
        [] if stars.is_empty() => outer,
        [] => Shape::Pointer,
    }
}

/// What a dimension or parameters say.
#[tactic(auto, using(crate::proofs::Equations::views))]
fn shape_of_dim<A: Allocator>(dim: &Dim<A>) -> Shape
    ensures { (rest : _) (outer : _) → result ≡ plain.dims_shape (dim_before dim.now rest) outer }
{
    match dim {
        Dim::Open { .. } => Shape::Array,
        Dim::Sized { .. } => Shape::Array,
        Dim::Function { .. } => Shape::Function,
    }
}
