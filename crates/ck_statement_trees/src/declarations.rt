//! Builders of initialisers and declarations.
ghost use Rattle.std.specs.Prelude.{◌≡◌, Option, Some, None, IfOk, OnOk};
ghost use Rattle.ck_base.specs.declared.tokens.Token.{Token};
ghost use Rattle.ck_grammar.specs.ReadingStatements as reading;
ghost use Rattle.ck_grammar.specs.Statements as plain;
ghost use Rattle.ck_grammar.specs.StatementsFitting as fitting;
ghost use Rattle.ck_grammar.specs.Trees.{NoSpecifiers};
ghost use Rattle.ck_readers.specs.SourceView.{words};

use ck_base::{OutOfMemory, Token};
use ck_readers::{Building, Source};

/// Trees of initialisers and declarations (C99 6.7.8 and 6.7), wherever they are kept.
///
/// Each tree is seen as the plain tree that it stands for, and each row as what it is before the elements that follow.
/// A builder takes its parts, and fails only for want of memory. A row that a failed push leaves may have lost the
/// element.
pub trait BuildingDeclarations: Building {
    /// Designators of an initialiser, before the `=`.
    type Designators: Drop;
    /// Designators and `=`, or nothing.
    type Designation: Drop;
    /// An initialiser.
    type Init: Drop;
    /// Initialisers in braces, each with the comma after it.
    type EarlierInits: Drop;
    /// The initialisers in braces.
    type Inits: Drop;
    /// Further declarators, each after a comma, maybe with an initialiser.
    type MoreDeclared: Drop;
    /// What is after the first declarator of a declaration.
    type Declared: Drop;
    /// A declaration.
    type Declaration: Drop;

    ghost designators: { Self.Designators → plain.Designators → plain.Designators };

    ghost designation: { Self.Designation → Option plain.Designators };

    ghost init: { Self.Init → plain.Init };

    ghost earlier_inits: { Self.EarlierInits → plain.Inits → plain.Inits };

    ghost inits: { Self.Inits → plain.Inits };

    ghost more_declared: { Self.MoreDeclared → plain.MoreDeclared → plain.MoreDeclared };

    ghost declared: { Self.Declared → plain.Declared };

    ghost declaration: { Self.Declaration → plain.Declaration };

    /// No designators.
    fn no_designators(&self) -> Self::Designators
        ensures { (rest : plain.Designators) → designators result rest ≡ rest };

    /// `.` name after the others (6.7.8).
    fn push_dot_name(
        &self,
        row: &mut Self::Designators,
        dot: Token,
        name: Token,
    ) -> Result<(), OutOfMemory>
        ensures { OnOk result ((rest : plain.Designators) → designators row.new rest
            ≡ designators row.old (plain.DotName dot name rest)) };

    /// `[` expression `]` after the others (6.7.8).
    fn push_at_index(
        &self,
        row: &mut Self::Designators,
        opening: Token,
        index: Self::Expr,
        closing: Token,
    ) -> Result<(), OutOfMemory>
        ensures { OnOk result ((rest : plain.Designators) → designators row.new rest
            ≡ designators row.old (plain.AtIndex opening (Self.expr index) closing rest)) };

    /// No designation.
    fn no_designation(&self) -> Self::Designation
        ensures { designation result ≡ None };

    /// Designators and `=` (6.7.8).
    fn designated(
        &self,
        row: Self::Designators,
        equals: Token,
    ) -> Result<Self::Designation, OutOfMemory>
        ensures { IfOk result (λ all. designation all ≡ Some (designators row (plain.Equals equals))) };

    /// An assignment expression as an initialiser (6.7.8).
    fn value(&self, tree: Self::Expr) -> Self::Init
        ensures { init result ≡ plain.Value (Self.expr tree) };

    /// `{` initialisers `}` (6.7.8)
    fn braced(
        &self,
        opening: Token,
        all: Self::Inits,
        closing: Token,
    ) -> Result<Self::Init, OutOfMemory>
        ensures { IfOk result (λ tree. init tree ≡ plain.Braced opening (inits all) closing) };

    /// No initialisers.
    fn no_earlier_inits(&self) -> Self::EarlierInits
        ensures { (rest : plain.Inits) → earlier_inits result rest ≡ rest };

    /// An initialiser, maybe after designators, and a comma after the others (6.7.8).
    fn push_init(
        &self,
        row: &mut Self::EarlierInits,
        before: Self::Designation,
        next: Self::Init,
        comma: Token,
    ) -> Result<(), OutOfMemory>
        ensures { OnOk result ((rest : plain.Inits) → earlier_inits row.new rest
            ≡ earlier_inits row.old (plain.NextInit (designation before) (init next) comma rest)) };

    /// Initialisers, the last one, maybe after designators, and maybe a comma (6.7.8).
    fn all_inits(
        &self,
        row: Self::EarlierInits,
        before: Self::Designation,
        final_one: Self::Init,
        comma: Option<Token>,
    ) -> Self::Inits
        ensures { inits result ≡ earlier_inits row (plain.LastInit (designation before) (init final_one) comma) };

    /// No further declarators.
    fn no_more_declared(&self) -> Self::MoreDeclared
        ensures { (rest : plain.MoreDeclared) → more_declared result rest ≡ rest };

    /// A comma and a declarator after the others (6.7).
    fn push_plainly(
        &self,
        row: &mut Self::MoreDeclared,
        comma: Token,
        next: Self::Declarator,
    ) -> Result<(), OutOfMemory>
        ensures { OnOk result ((rest : plain.MoreDeclared) → more_declared row.new rest
            ≡ more_declared row.old (plain.AndPlainly comma (Self.declarator next) rest)) };

    /// A comma, a declarator, `=` and an initialiser after the others (6.7).
    fn push_initialised(
        &self,
        row: &mut Self::MoreDeclared,
        comma: Token,
        next: Self::Declarator,
        equals: Token,
        tree: Self::Init,
    ) -> Result<(), OutOfMemory>
        ensures { OnOk result ((rest : plain.MoreDeclared) → more_declared row.new rest
            ≡ more_declared row.old (plain.AndInitialised comma (Self.declarator next) equals (init tree) rest)) };

    /// Further declarators after one without an initialiser (6.7).
    fn plainly(&self, others: Self::MoreDeclared) -> Self::Declared
        ensures { declared result ≡ plain.Plainly (more_declared others plain.NoMoreDeclared) };

    /// `=`, an initialiser and further declarators (6.7).
    fn initialised(
        &self,
        equals: Token,
        tree: Self::Init,
        others: Self::MoreDeclared,
    ) -> Self::Declared
        ensures { declared result ≡ plain.Initialised equals (init tree)
            (more_declared others plain.NoMoreDeclared) };

    /// Specifiers and `;` (6.7)
    fn bare(&self, of: Self::Specifiers, semicolon: Token) -> Self::Declaration
        ensures { declaration result ≡ plain.Bare (Self.specifiers of NoSpecifiers) semicolon };

    /// Specifiers, a declarator, what is after it, `;` (6.7)
    fn declares(
        &self,
        of: Self::Specifiers,
        first: Self::Declarator,
        others: Self::Declared,
        semicolon: Token,
    ) -> Self::Declaration
        ensures { declaration result ≡ plain.Declares (Self.specifiers of NoSpecifiers) (Self.declarator first)
            (declared others) semicolon };

    /// Whether `typedef` is among specifiers (6.7.1).
    fn has_typedef(&self, source: &Source<'_>, row: &Self::Specifiers) -> bool
        ensures { result ≡ fitting.is_typedef (words source.now) (Self.specifiers row.now NoSpecifiers) };

    /// The name that a declarator declares (6.7.5).
    fn declared_name(&self, tree: &Self::Declarator) -> Option<Token>
        ensures { result ≡ fitting.name_of (Self.declarator tree.now) };

    /// Whether a declarator makes its name a function without `...` before all else (6.7.5, 6.9.1).
    fn declares_function(&self, tree: &Self::Declarator) -> bool
        ensures { result ≡ reading.is_function (fitting.shape (Self.declarator tree.now)) };
}
