//! The first and the last token that declarators, parameters and specifiers are written with. A declarator or
//! parameters of which nothing is written have none.
ghost use Rattle.std.specs.Prelude.{◌≡◌, None, Some};
ghost use Rattle.ck_grammar.specs.Trees as plain;
ghost use Rattle.ck_grammar.specs.Written as tokens;
ghost use Rattle.ck_syntax.specs.Ends.{first, last_after, IsFirst, IsLast};
ghost use Rattle.ck_syntax.specs.ExpressionViews.{specifier_trees, declarator_tree, dim_trees, parameters_tree};
ghost use Rattle.ck_syntax.specs.ExpressionViews.{parameter_before, parameter_trees, ellipsis_tree};

use crate::declarators::{Declarator, Dim, Ellipsis, NextParameter, Parameters};
use crate::specifiers::Specifier;
use ck_base::Token;
use std::alloc::Allocator;

#[tactic(auto, using(crate::proofs::Equations::views))]
impl<A: Allocator> Declarator<A> {
    /// The first token of the declarator; an abstract declarator of which nothing is written has none.
    pub fn first_token(&self) -> Option<Token>
        ensures { IsFirst result (tokens.declarator (declarator_tree self.now)) }
    {
        match self {
            Declarator::Abstract { stars, dims } => first_of(stars).or(first_of_dims(dims)),
            Declarator::Named { stars, name, .. } => first_of(stars).or(Some(*name)),
            Declarator::Nested { stars, opening, .. } => first_of(stars).or(Some(*opening)),
        }
    }

    /// The last token of the declarator; an abstract declarator of which nothing is written has none.
    pub fn last_token(&self) -> Option<Token>
        ensures { IsLast result (tokens.declarator (declarator_tree self.now)) }
    {
        match self {
            Declarator::Abstract { stars, dims } => last_of_dims(dims).or(last_of(stars)),
            Declarator::Named { name, dims, .. } => last_of_dims(dims).or(Some(*name)),
            Declarator::Nested { closing, dims, .. } => last_of_dims(dims).or(Some(*closing)),
        }
    }
}

#[tactic(auto, using(crate::proofs::Equations::views))]
impl<A: Allocator> Parameters<A> {
    /// The first token of the parameters; where nothing is between their parentheses there is none.
    pub fn first_token(&self) -> Option<Token>
        ensures { IsFirst result (tokens.params (parameters_tree self.now)) }
    {
        match self {
            Parameters::Empty => None,
            Parameters::Void(token) => Some(*token),
            Parameters::Listed {
                specifiers,
                declarator,
                others,
                ellipsis,
            } => first_of_specifiers(specifiers)
                .or(declarator.first_token())
                .or(first_of_parameters(others))
                .or(first_of_ellipsis(ellipsis)),
        }
    }

    /// The last token of the parameters; where nothing is between their parentheses there is none.
    pub fn last_token(&self) -> Option<Token>
        ensures { IsLast result (tokens.params (parameters_tree self.now)) }
    {
        match self {
            Parameters::Empty => None,
            Parameters::Void(token) => Some(*token),
            Parameters::Listed {
                specifiers,
                declarator,
                others,
                ellipsis,
            } => last_of_ellipsis(ellipsis)
                .or(last_of_parameters(others))
                .or(declarator.last_token())
                .or(last_of_specifiers(specifiers)),
        }
    }
}

impl<A: Allocator> NextParameter<A> {
    /// The first token of the further parameter, its comma.
    pub fn first_token(&self) -> Token
        ensures { IsFirst (Some result) (tokens.more_params (parameter_before self.now plain.NoMore)) }
    {
        self.comma
    }

    /// The last token of the further parameter; where nothing of it is written, its comma.
    pub fn last_token(&self) -> Token
        ensures { IsLast (Some result) (tokens.more_params (parameter_before self.now plain.NoMore)) }
    {
        self.declarator
            .last_token()
            .or(last_of_specifiers(&self.specifiers))
            .unwrap_or(self.comma)
    }
}

/// The first of these tokens.
pub(crate) fn first_of<A: Allocator>(tokens: &Vec<Token, A>) -> Option<Token>
    ensures { result ≡ first tokens.now.items }
{
    match tokens.as_slice() {
        [token, ..] => Some(*token),
        [] => None,
    }
}

/// The last of these tokens.
pub(crate) fn last_of<A: Allocator>(tokens: &Vec<Token, A>) -> Option<Token>
    ensures { result ≡ last_after None tokens.now.items }
{
    match tokens.as_slice() {
        [.., token] => Some(*token),
        [] => None,
    }
}

/// The first token of specifiers.
pub(crate) fn first_of_specifiers<A: Allocator>(specifiers: &Vec<Specifier<A>, A>) -> Option<Token>
    ensures { IsFirst result (tokens.specifiers (specifier_trees specifiers.now.items)) }
{
    match specifiers.as_slice() {
        [specifier, ..] => Some(specifier.first_token()),
        [] => None,
    }
}

/// The last token of specifiers.
fn last_of_specifiers<A: Allocator>(specifiers: &Vec<Specifier<A>, A>) -> Option<Token>
    ensures { IsLast result (tokens.specifiers (specifier_trees specifiers.now.items)) }
{
    match specifiers.as_slice() {
        [.., specifier] => Some(specifier.last_token()),
        [] => None,
    }
}

/// The first token of dimensions and parameters.
fn first_of_dims<A: Allocator>(dims: &Vec<Dim<A>, A>) -> Option<Token>
    ensures { IsFirst result (tokens.dims (dim_trees dims.now.items)) }
{
    match dims.as_slice() {
        [dim, ..] => Some(dim.first_token()),
        [] => None,
    }
}

/// The last token of dimensions and parameters.
fn last_of_dims<A: Allocator>(dims: &Vec<Dim<A>, A>) -> Option<Token>
    ensures { IsLast result (tokens.dims (dim_trees dims.now.items)) }
{
    match dims.as_slice() {
        [.., dim] => Some(dim.last_token()),
        [] => None,
    }
}

/// The first token of further parameters.
fn first_of_parameters<A: Allocator>(others: &Vec<NextParameter<A>, A>) -> Option<Token>
    ensures { IsFirst result (tokens.more_params (parameter_trees others.now.items None)) }
{
    match others.as_slice() {
        [parameter, ..] => Some(parameter.first_token()),
        [] => None,
    }
}

/// The last token of further parameters.
fn last_of_parameters<A: Allocator>(others: &Vec<NextParameter<A>, A>) -> Option<Token>
    ensures { IsLast result (tokens.more_params (parameter_trees others.now.items None)) }
{
    match others.as_slice() {
        [.., parameter] => Some(parameter.last_token()),
        [] => None,
    }
}

/// The first token of what may end parameters.
fn first_of_ellipsis(ellipsis: &Option<Ellipsis>) -> Option<Token>
    ensures { IsFirst result (tokens.more_params (ellipsis_tree ellipsis.now)) }
{
    match ellipsis {
        Some(ellipsis) => Some(ellipsis.comma),
        None => None,
    }
}

/// The last token of what may end parameters.
fn last_of_ellipsis(ellipsis: &Option<Ellipsis>) -> Option<Token>
    ensures { IsLast result (tokens.more_params (ellipsis_tree ellipsis.now)) }
{
    match ellipsis {
        Some(ellipsis) => Some(ellipsis.dots),
        None => None,
    }
}
