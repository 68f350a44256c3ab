//! Builders of statements, external declarations and files.
ghost use Rattle.std.specs.Prelude.{◌≡◌, ◌++◌, ◌∷◌, [], Option, List, IfOk, OnOk};
ghost use Rattle.ck_base.specs.declared.tokens.Token.{Token};
ghost use Rattle.ck_grammar.specs.Statements as plain;
ghost use Rattle.ck_grammar.specs.Trees.{Expr, NoSpecifiers};
ghost use Rattle.ck_statement_trees.specs.Parts.{ForHead, for_statement, maybe};

use crate::declarations::BuildingDeclarations;
use ck_base::{OutOfMemory, Token};

/// Trees of statements, external declarations and files (C99 6.8 and 6.9), wherever they are kept; as
/// `BuildingDeclarations`.
pub trait BuildingStatements: BuildingDeclarations {
    /// `(` expression `)` of a selection or a loop.
    type Controlling: Drop;
    /// What `for` begins with, up to its first `;`.
    type ForStart: Drop;
    /// What is between the parentheses of `for`, and they.
    type ForHead: Drop;
    /// A statement.
    type Statement: Drop;
    /// Items of a block.
    type BlockItems: Drop;
    /// An external declaration.
    type External: Drop;
    /// A file.
    type Unit: Drop;

    ghost controlling: { Self.Controlling → Token × Expr × Token };

    ghost for_start: { Self.ForStart → plain.ForStart };

    ghost for_head: { Self.ForHead → ForHead };

    ghost statement: { Self.Statement → plain.Statement };

    ghost block_items: { Self.BlockItems → plain.BlockItems → plain.BlockItems };

    ghost external: { Self.External → plain.External };

    ghost unit: { Self.Unit → List plain.External };

    /// `(` expression `)` (6.8.4, 6.8.5)
    fn parenthesised_test(
        &self,
        opening: Token,
        inner: Self::Expr,
        closing: Token,
    ) -> Result<Self::Controlling, OutOfMemory>
        ensures { IfOk result (λ test. controlling test ≡ (opening, Self.expr inner, closing)) };

    /// `;` (6.8.5.3)
    fn start_empty(&self, semicolon: Token) -> Self::ForStart
        ensures { for_start result ≡ plain.StartEmpty semicolon };

    /// expression `;` (6.8.5.3)
    fn start_expr(&self, tree: Self::Expr, semicolon: Token) -> Self::ForStart
        ensures { for_start result ≡ plain.StartExpr (Self.expr tree) semicolon };

    /// A declaration (6.8.5.3).
    fn start_declaration(&self, tree: Self::Declaration) -> Result<Self::ForStart, OutOfMemory>
        ensures { IfOk result (λ first. for_start first ≡ plain.StartDeclaration (Self.declaration tree)) };

    /// `(` start [expression] `;` [expression] `)` (6.8.5.3)
    fn head_of_for(
        &self,
        opening: Token,
        first: Self::ForStart,
        test: Option<Self::Expr>,
        semicolon: Token,
        step: Option<Self::Expr>,
        closing: Token,
    ) -> Result<Self::ForHead, OutOfMemory>
        ensures { IfOk result (λ head. for_head head ≡ record {
          opening = opening;
          start = for_start first;
          test = maybe Self.expr test;
          semicolon = semicolon;
          step = maybe Self.expr step;
          closing = closing;
        }) };

    /// `{` items `}` (6.8.2)
    fn block(&self, opening: Token, items: Self::BlockItems, closing: Token) -> Self::Statement
        ensures { statement result ≡ plain.Block opening (block_items items plain.NoBlockItems) closing };

    /// `;` (6.8.3)
    fn empty(&self, semicolon: Token) -> Self::Statement
        ensures { statement result ≡ plain.Empty semicolon };

    /// expression `;` (6.8.3)
    fn expression_statement(&self, tree: Self::Expr, semicolon: Token) -> Self::Statement
        ensures { statement result ≡ plain.ExpressionStatement (Self.expr tree) semicolon };

    /// `if` `(` expression `)` statement (6.8.4.1)
    fn if_then(
        &self,
        keyword: Token,
        test: Self::Controlling,
        body: Self::Statement,
    ) -> Result<Self::Statement, OutOfMemory>
        ensures { IfOk result (λ tree. statement tree ≡ plain.If keyword (controlling test).0 (controlling test).1
            (controlling test).2 (statement body)) };

    /// `if` `(` expression `)` statement `else` statement (6.8.4.1)
    fn if_else(
        &self,
        keyword: Token,
        test: Self::Controlling,
        body: Self::Statement,
        else_keyword: Token,
        otherwise: Self::Statement,
    ) -> Result<Self::Statement, OutOfMemory>
        ensures { IfOk result (λ tree. statement tree ≡ plain.IfElse keyword (controlling test).0 (controlling test).1
            (controlling test).2 (statement body) else_keyword (statement otherwise)) };

    /// `switch` `(` expression `)` statement (6.8.4.2)
    fn switch(
        &self,
        keyword: Token,
        test: Self::Controlling,
        body: Self::Statement,
    ) -> Result<Self::Statement, OutOfMemory>
        ensures { IfOk result (λ tree. statement tree ≡ plain.Switch keyword (controlling test).0 (controlling test).1
            (controlling test).2 (statement body)) };

    /// `while` `(` expression `)` statement (6.8.5.1)
    fn while_loop(
        &self,
        keyword: Token,
        test: Self::Controlling,
        body: Self::Statement,
    ) -> Result<Self::Statement, OutOfMemory>
        ensures { IfOk result (λ tree. statement tree ≡ plain.While keyword (controlling test).0 (controlling test).1
            (controlling test).2 (statement body)) };

    /// `do` statement `while` `(` expression `)` `;` (6.8.5.2)
    fn do_loop(
        &self,
        keyword: Token,
        body: Self::Statement,
        while_keyword: Token,
        test: Self::Controlling,
        semicolon: Token,
    ) -> Result<Self::Statement, OutOfMemory>
        ensures { IfOk result (λ tree. statement tree ≡ plain.Do keyword (statement body) while_keyword
            (controlling test).0 (controlling test).1 (controlling test).2 semicolon) };

    /// `for`, its head, a statement (6.8.5.3)
    fn for_loop(
        &self,
        keyword: Token,
        head: Self::ForHead,
        body: Self::Statement,
    ) -> Result<Self::Statement, OutOfMemory>
        ensures { IfOk result (λ tree. statement tree ≡ for_statement keyword (for_head head) (statement body)) };

    /// `case` expression `:` statement (6.8.1)
    fn case_label(
        &self,
        keyword: Token,
        value: Self::Expr,
        colon: Token,
        body: Self::Statement,
    ) -> Result<Self::Statement, OutOfMemory>
        ensures { IfOk result (λ tree. statement tree
            ≡ plain.Case keyword (Self.expr value) colon (statement body)) };

    /// `default` `:` statement (6.8.1)
    fn default_label(
        &self,
        keyword: Token,
        colon: Token,
        body: Self::Statement,
    ) -> Result<Self::Statement, OutOfMemory>
        ensures { IfOk result (λ tree. statement tree ≡ plain.Default keyword colon (statement body)) };

    /// name `:` statement (6.8.1)
    fn label(
        &self,
        name: Token,
        colon: Token,
        body: Self::Statement,
    ) -> Result<Self::Statement, OutOfMemory>
        ensures { IfOk result (λ tree. statement tree ≡ plain.Label name colon (statement body)) };

    /// `goto` name `;` (6.8.6.1)
    fn goto(&self, keyword: Token, name: Token, semicolon: Token) -> Self::Statement
        ensures { statement result ≡ plain.Goto keyword name semicolon };

    /// `break` `;` or `continue` `;` (6.8.6.2, 6.8.6.3)
    fn jump(&self, keyword: Token, semicolon: Token) -> Self::Statement
        ensures { statement result ≡ plain.Jump keyword semicolon };

    /// `return` `;` (6.8.6.4)
    fn return_nothing(&self, keyword: Token, semicolon: Token) -> Self::Statement
        ensures { statement result ≡ plain.Return keyword semicolon };

    /// `return` expression `;` (6.8.6.4)
    fn return_value(
        &self,
        keyword: Token,
        value: Self::Expr,
        semicolon: Token,
    ) -> Result<Self::Statement, OutOfMemory>
        ensures { IfOk result (λ tree. statement tree
            ≡ plain.ReturnValue keyword (Self.expr value) semicolon) };

    /// No items.
    fn no_items(&self) -> Self::BlockItems
        ensures { (rest : plain.BlockItems) → block_items result rest ≡ rest };

    /// A declaration after the others (6.8.2).
    fn push_declaration(
        &self,
        row: &mut Self::BlockItems,
        next: Self::Declaration,
    ) -> Result<(), OutOfMemory>
        ensures { OnOk result ((rest : plain.BlockItems) → block_items row.new rest
            ≡ block_items row.old (plain.DeclarationItem (Self.declaration next) rest)) };

    /// A statement after the others (6.8.2).
    fn push_statement(
        &self,
        row: &mut Self::BlockItems,
        next: Self::Statement,
    ) -> Result<(), OutOfMemory>
        ensures { OnOk result ((rest : plain.BlockItems) → block_items row.new rest
            ≡ block_items row.old (plain.StatementItem (statement next) rest)) };

    /// A declaration at file scope (6.9).
    fn file_declaration(&self, tree: Self::Declaration) -> Self::External
        ensures { external result ≡ plain.FileDeclaration (Self.declaration tree) };

    /// Specifiers, a declarator, `{` items `}`: a function definition (6.9.1).
    fn function_definition(
        &self,
        of: Self::Specifiers,
        name: Self::Declarator,
        opening: Token,
        items: Self::BlockItems,
        closing: Token,
    ) -> Self::External
        ensures { external result ≡ plain.FunctionDefinition (Self.specifiers of NoSpecifiers)
            (Self.declarator name) opening (block_items items plain.NoBlockItems) closing };

    /// A file of nothing.
    fn no_externals(&self) -> Self::Unit
        ensures { unit result ≡ [] };

    /// An external declaration after the others (6.9).
    fn push_external(&self, row: &mut Self::Unit, next: Self::External) -> Result<(), OutOfMemory>
        ensures { OnOk result (unit row.new ≡ unit row.old ++ external next ∷ []) };
}
