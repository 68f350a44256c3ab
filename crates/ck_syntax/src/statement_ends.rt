//! The first or the last token that a designator, an initialiser, a declaration or a statement is written with.
ghost use Rattle.std.specs.Prelude.{◌≡◌, ◌∷◌, Some};
ghost use Rattle.ck_grammar.specs.Statements as plain;
ghost use Rattle.ck_grammar.specs.StatementsWritten as tokens;
ghost use Rattle.ck_syntax.specs.DeclarationViews.{declaration_tree, declared_tree, declared_trees};
ghost use Rattle.ck_syntax.specs.Ends.{first, IsFirst, IsLast, last_after};
ghost use Rattle.ck_syntax.specs.InitialiserViews.{designator_before, designation_tree, init_tree};
ghost use Rattle.ck_syntax.specs.StatementViews.{statement_tree, item_before, external_tree};

use crate::declarations::{Decl, Initialiser, NextDeclared};
use crate::declarator_ends::first_of_specifiers;
use crate::externals::External;
use crate::initialisers::{Designation, Designator, Init};
use crate::statements::{BlockItem, Stmt};
use ck_base::Token;
use std::alloc::Allocator;

impl<A: Allocator> Designator<A> {
    /// The first token of the designator.
    pub fn first_token(&self) -> Token
        ensures { (rest : plain.Designators)
            → IsFirst (Some result) (tokens.designators (designator_before self.now rest)) }
    {
        match self {
            Designator::DotName { dot, .. } => *dot,
            Designator::AtIndex { opening, .. } => *opening,
        }
    }

    /// The last token of the designator.
    pub fn last_token(&self) -> Token
        ensures { (before : _) (rest : plain.Designators) (more : _)
            → last_after before (tokens.designators (designator_before self.now rest) more)
            ≡ last_after (Some result) (tokens.designators rest more) }
    {
        match self {
            Designator::DotName { name, .. } => *name,
            Designator::AtIndex { closing, .. } => *closing,
        }
    }
}

impl<A: Allocator> Designation<A> {
    /// The last token of the designation, its `=`.
    pub fn last_token(&self) -> Token
        ensures { IsLast (Some result) (tokens.designators (designation_tree self.now)) }
    {
        self.equals
    }
}

#[tactic(auto, using(crate::proofs::InitialiserEquations::initialiser_parts))]
impl<A: Allocator> Init<A> {
    /// The first token of the initialiser.
    pub fn first_token(&self) -> Token
        ensures { IsFirst (Some result) (tokens.init (init_tree self.now)) }
    {
        match self {
            Init::Value(value) => value.first_token(),
            Init::Braced(braced) => braced.opening,
        }
    }

    /// The last token of the initialiser.
    pub fn last_token(&self) -> Token
        ensures { IsLast (Some result) (tokens.init (init_tree self.now)) }
    {
        match self {
            Init::Value(value) => value.last_token(),
            Init::Braced(braced) => braced.closing,
        }
    }
}

impl<A: Allocator> Decl<A> {
    /// The first token of the declaration.
    pub fn first_token(&self) -> Token
        ensures { IsFirst (Some result) (tokens.declaration (declaration_tree self.now)) }
    {
        match self {
            Decl::Bare {
                specifiers,
                semicolon,
            } => first_of_specifiers(specifiers).unwrap_or(*semicolon),
            Decl::Declares {
                specifiers,
                declarator,
                initialiser,
                others,
                semicolon,
            } => first_of_specifiers(specifiers)
                .or(declarator.first_token())
                .unwrap_or(after_declarator(initialiser, others, *semicolon)),
        }
    }

    /// The last token of the declaration, its `;`.
    pub fn last_token(&self) -> Token
        ensures { IsLast (Some result) (tokens.declaration (declaration_tree self.now)) }
    {
        match self {
            Decl::Bare { semicolon, .. } => *semicolon,
            Decl::Declares { semicolon, .. } => *semicolon,
        }
    }
}

#[tactic(auto, using(crate::proofs::StatementEquations::statement_views))]
impl<A: Allocator> Stmt<A> {
    /// The first token of the statement.
    pub fn first_token(&self) -> Token
        ensures { IsFirst (Some result) (tokens.statement (statement_tree self.now)) }
    {
        match self {
            Stmt::Block { opening, .. } => *opening,
            Stmt::Empty(semicolon) => *semicolon,
            Stmt::ExpressionStatement { expr, .. } => expr.first_token(),
            Stmt::If { keyword, .. } => *keyword,
            Stmt::IfElse { keyword, .. } => *keyword,
            Stmt::Switch { keyword, .. } => *keyword,
            Stmt::While { keyword, .. } => *keyword,
            Stmt::Do { keyword, .. } => *keyword,
            Stmt::For { keyword, .. } => *keyword,
            Stmt::Case { keyword, .. } => *keyword,
            Stmt::Default { keyword, .. } => *keyword,
            Stmt::Label { name, .. } => *name,
            Stmt::Goto { keyword, .. } => *keyword,
            Stmt::Jump { keyword, .. } => *keyword,
            Stmt::Return { keyword, .. } => *keyword,
            Stmt::ReturnValue { keyword, .. } => *keyword,
        }
    }

    /// The last token of the statement.
    pub fn last_token(&self) -> Token
        ensures { IsLast (Some result) (tokens.statement (statement_tree self.now)) }
    {
        match self {
            Stmt::Block { closing, .. } => *closing,
            Stmt::Empty(semicolon) => *semicolon,
            Stmt::ExpressionStatement { semicolon, .. } => *semicolon,
            Stmt::If { then, .. } => then.last_token(),
            Stmt::IfElse { otherwise, .. } => otherwise.last_token(),
            Stmt::Switch { body, .. } => body.last_token(),
            Stmt::While { body, .. } => body.last_token(),
            Stmt::Do { semicolon, .. } => *semicolon,
            Stmt::For { body, .. } => body.last_token(),
            Stmt::Case { body, .. } => body.last_token(),
            Stmt::Default { body, .. } => body.last_token(),
            Stmt::Label { body, .. } => body.last_token(),
            Stmt::Goto { semicolon, .. } => *semicolon,
            Stmt::Jump { semicolon, .. } => *semicolon,
            Stmt::Return { semicolon, .. } => *semicolon,
            Stmt::ReturnValue { semicolon, .. } => *semicolon,
        }
    }
}

#[tactic(auto, using(crate::proofs::StatementEquations::statement_views))]
impl<A: Allocator> BlockItem<A> {
    /// The first token of the declaration or statement.
    pub fn first_token(&self) -> Token
        ensures { IsFirst (Some result) (tokens.items (item_before self.now plain.NoBlockItems)) }
    {
        match self {
            BlockItem::DeclarationItem(declaration) => declaration.first_token(),
            BlockItem::StatementItem(statement) => statement.first_token(),
        }
    }

    /// The last token of the declaration or statement.
    pub fn last_token(&self) -> Token
        ensures { IsLast (Some result) (tokens.items (item_before self.now plain.NoBlockItems)) }
    {
        match self {
            BlockItem::DeclarationItem(declaration) => declaration.last_token(),
            BlockItem::StatementItem(statement) => statement.last_token(),
        }
    }
}

impl<A: Allocator> External<A> {
    /// The first token of the external declaration.
    pub fn first_token(&self) -> Token
        ensures { IsFirst (Some result) (tokens.external (external_tree self.now)) }
    {
        match self {
            External::FileDeclaration(declaration) => declaration.first_token(),
            External::FunctionDefinition {
                specifiers,
                declarator,
                opening,
                ..
            } => first_of_specifiers(specifiers)
                .or(declarator.first_token())
                .unwrap_or(*opening),
        }
    }

    /// The last token of the external declaration.
    pub fn last_token(&self) -> Token
        ensures { IsLast (Some result) (tokens.external (external_tree self.now)) }
    {
        match self {
            External::FileDeclaration(declaration) => declaration.last_token(),
            External::FunctionDefinition { closing, .. } => *closing,
        }
    }
}

/// The first token after the first declarator of a declaration: of its initialiser, of the others, or the `;`.
fn after_declarator<A: Allocator>(
    initialiser: &Option<Initialiser<A>>,
    others: &Vec<NextDeclared<A>, A>,
    semicolon: Token,
) -> Token
    ensures { (more : _)
        → first (tokens.declared (declared_tree initialiser.now (declared_trees others.now.items)) (semicolon ∷ more))
        ≡ Some result }
{
    match (initialiser, others.as_slice()) {
        (Some(initialiser), _) => initialiser.equals,
        (None, [next, ..]) => next.comma,
        (None, []) => semicolon,
    }
}
