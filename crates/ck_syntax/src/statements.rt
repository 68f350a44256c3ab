//! Statements and the items of blocks: the types, and a builder for each production.
ghost use Rattle.std.specs.Prelude.{◌≡◌, IfOk};
ghost use Rattle.ck_grammar.specs.Statements as plain;
ghost use Rattle.ck_syntax.specs.ExpressionViews.{expr_tree};
ghost use Rattle.ck_syntax.specs.DeclarationViews.{declaration_tree, for_start_tree};
ghost use Rattle.ck_syntax.specs.StatementViews.{statement_tree, item_before, item_trees, expr_option};

use crate::declarations::{Decl, ForStart};
use crate::expressions::Expr;
use ck_base::{OutOfMemory, Token};
use std::alloc::Allocator;

/// `(` controlling expression `)` of `if`, `switch`, `while` and `do` (C99 6.8.4, 6.8.5).
pub struct Controlling<A: Allocator> {
    pub opening: Token,
    pub expr: Expr<A>,
    pub closing: Token,
}

/// `(` start [expression] `;` [expression] `)` of `for` (6.8.5.3).
pub struct ForHead<A: Allocator> {
    pub opening: Token,
    pub start: ForStart<A>,
    pub test: Option<Expr<A>>,
    pub semicolon: Token,
    pub step: Option<Expr<A>>,
    pub closing: Token,
}

/// A statement (6.8).
#[cycle(statements)]
pub enum Stmt<A: Allocator> {
    /// `{` items `}`
    Block {
        opening: Token,
        items: Vec<BlockItem<A>, A>,
        closing: Token,
    },
    /// `;`
    Empty(Token),
    /// expression `;`
    ExpressionStatement {
        expr: Expr<A>,
        semicolon: Token,
    },
    /// `if` `(` expression `)` statement
    If {
        keyword: Token,
        test: Box<Controlling<A>, A>,
        then: Box<Stmt<A>, A>,
    },
    /// `if` `(` expression `)` statement `else` statement
    IfElse {
        keyword: Token,
        test: Box<Controlling<A>, A>,
        then: Box<Stmt<A>, A>,
        else_keyword: Token,
        otherwise: Box<Stmt<A>, A>,
    },
    /// `switch` `(` expression `)` statement
    Switch {
        keyword: Token,
        value: Box<Controlling<A>, A>,
        body: Box<Stmt<A>, A>,
    },
    /// `while` `(` expression `)` statement
    While {
        keyword: Token,
        test: Box<Controlling<A>, A>,
        body: Box<Stmt<A>, A>,
    },
    /// `do` statement `while` `(` expression `)` `;`
    Do {
        keyword: Token,
        body: Box<Stmt<A>, A>,
        while_keyword: Token,
        test: Box<Controlling<A>, A>,
        semicolon: Token,
    },
    /// `for` `(` start [expression] `;` [expression] `)` statement
    For {
        keyword: Token,
        head: Box<ForHead<A>, A>,
        body: Box<Stmt<A>, A>,
    },
    /// `case` conditional expression `:` statement
    Case {
        keyword: Token,
        value: Box<Expr<A>, A>,
        colon: Token,
        body: Box<Stmt<A>, A>,
    },
    /// `default` `:` statement
    Default {
        keyword: Token,
        colon: Token,
        body: Box<Stmt<A>, A>,
    },
    /// name `:` statement
    Label {
        name: Token,
        colon: Token,
        body: Box<Stmt<A>, A>,
    },
    /// `goto` name `;`
    Goto {
        keyword: Token,
        name: Token,
        semicolon: Token,
    },
    /// `break` `;` or `continue` `;`
    Jump {
        keyword: Token,
        semicolon: Token,
    },
    /// `return` `;`
    Return {
        keyword: Token,
        semicolon: Token,
    },
    /// `return` expression `;`
    ReturnValue {
        keyword: Token,
        value: Box<Expr<A>, A>,
        semicolon: Token,
    },
}

/// What is in a block (6.8.2).
#[cycle(statements)]
pub enum BlockItem<A: Allocator> {
    /// A declaration.
    DeclarationItem(Box<Decl<A>, A>),
    /// A statement.
    StatementItem(Stmt<A>),
}

// Drops are written by hand: a derived one is written out wherever a tree is let go, here and in the crates above.
impl<A: Allocator> Drop for Controlling<A> {
    fn drop(self) {
        let Controlling {
            opening: _opening,
            expr: _expr,
            closing: _closing,
        } = self;
    }
}

impl<A: Allocator> Drop for ForHead<A> {
    fn drop(self) {
        let ForHead {
            opening: _opening,
            start: _start,
            test: _test,
            semicolon: _semicolon,
            step: _step,
            closing: _closing,
        } = self;
    }
}

impl<A: Allocator> Drop for Stmt<A> {
    #[cycle(statements)]
    fn drop(self) {
        match self {
            Stmt::Block {
                opening: _opening,
                items: _items,
                closing: _closing,
            } => {}
            Stmt::Empty(_semicolon) => {}
            Stmt::ExpressionStatement {
                expr: _expr,
                semicolon: _semicolon,
            } => {}
            Stmt::If {
                keyword: _keyword,
                test: _test,
                then: _then,
            } => {}
            Stmt::IfElse {
                keyword: _keyword,
                test: _test,
                then: _then,
                else_keyword: _else_keyword,
                otherwise: _otherwise,
            } => {}
            Stmt::Switch {
                keyword: _keyword,
                value: _value,
                body: _body,
            } => {}
            Stmt::While {
                keyword: _keyword,
                test: _test,
                body: _body,
            } => {}
            Stmt::Do {
                keyword: _keyword,
                body: _body,
                while_keyword: _while_keyword,
                test: _test,
                semicolon: _semicolon,
            } => {}
            Stmt::For {
                keyword: _keyword,
                head: _head,
                body: _body,
            } => {}
            Stmt::Case {
                keyword: _keyword,
                value: _value,
                colon: _colon,
                body: _body,
            } => {}
            Stmt::Default {
                keyword: _keyword,
                colon: _colon,
                body: _body,
            } => {}
            Stmt::Label {
                name: _name,
                colon: _colon,
                body: _body,
            } => {}
            Stmt::Goto {
                keyword: _keyword,
                name: _name,
                semicolon: _semicolon,
            } => {}
            Stmt::Jump {
                keyword: _keyword,
                semicolon: _semicolon,
            } => {}
            Stmt::Return {
                keyword: _keyword,
                semicolon: _semicolon,
            } => {}
            Stmt::ReturnValue {
                keyword: _keyword,
                value: _value,
                semicolon: _semicolon,
            } => {}
        }
    }
}

impl<A: Allocator> Drop for BlockItem<A> {
    #[cycle(statements)]
    fn drop(self) {
        match self {
            BlockItem::DeclarationItem(_declaration) => {}
            BlockItem::StatementItem(_statement) => {}
        }
    }
}

impl<A: Allocator> Controlling<A> {
    /// The expression and its parentheses in a box, as builders take it.
    pub fn boxed(self, alloc: A) -> Result<Box<Controlling<A>, A>, OutOfMemory>
        ensures { IfOk result (λ boxed. boxed.value ≡ self) }
    {
        Ok(Box::new(alloc, self)?)
    }
}

impl<A: Allocator> ForHead<A> {
    /// What `for` has in its parentheses in a box, as builders take it.
    pub fn boxed(self, alloc: A) -> Result<Box<ForHead<A>, A>, OutOfMemory>
        ensures { IfOk result (λ boxed. boxed.value ≡ self) }
    {
        Ok(Box::new(alloc, self)?)
    }
}

#[tactic(auto, using(crate::proofs::StatementEquations::statement_views))]
impl<A: Allocator> Stmt<A> {
    /// The statement in a box, as builders take it.
    pub fn boxed(self, alloc: A) -> Result<Box<Stmt<A>, A>, OutOfMemory>
        ensures { IfOk result (λ boxed. boxed.value ≡ self) }
    {
        Ok(Box::new(alloc, self)?)
    }

    /// `{` items `}`
    pub fn block(opening: Token, items: Vec<BlockItem<A>, A>, closing: Token) -> Stmt<A>
        ensures { statement_tree result ≡ plain.Block opening (item_trees items.items) closing }
    {
        Stmt::Block {
            opening,
            items,
            closing,
        }
    }

    /// `;`
    pub fn empty(semicolon: Token) -> Stmt<A>
        ensures { statement_tree result ≡ plain.Empty semicolon }
    {
        Stmt::Empty(semicolon)
    }

    /// expression `;`
    pub fn expression(expr: Expr<A>, semicolon: Token) -> Stmt<A>
        ensures { statement_tree result ≡ plain.ExpressionStatement (expr_tree expr) semicolon }
    {
        Stmt::ExpressionStatement { expr, semicolon }
    }

    /// `if` `(` expression `)` statement
    pub fn if_then(keyword: Token, test: Box<Controlling<A>, A>, then: Box<Stmt<A>, A>) -> Stmt<A>
        ensures { statement_tree result ≡ plain.If keyword test.value.opening (expr_tree test.value.expr)
            test.value.closing (statement_tree then.value) }
    {
        Stmt::If {
            keyword,
            test,
            then,
        }
    }

    /// `if` `(` expression `)` statement `else` statement
    pub fn if_else(
        keyword: Token,
        test: Box<Controlling<A>, A>,
        then: Box<Stmt<A>, A>,
        else_keyword: Token,
        otherwise: Box<Stmt<A>, A>,
    ) -> Stmt<A>
        ensures { statement_tree result ≡ plain.IfElse keyword test.value.opening (expr_tree test.value.expr)
            test.value.closing (statement_tree then.value) else_keyword (statement_tree otherwise.value) }
    {
        Stmt::IfElse {
            keyword,
            test,
            then,
            else_keyword,
            otherwise,
        }
    }

    /// `switch` `(` expression `)` statement
    pub fn switch(keyword: Token, value: Box<Controlling<A>, A>, body: Box<Stmt<A>, A>) -> Stmt<A>
        ensures { statement_tree result ≡ plain.Switch keyword value.value.opening (expr_tree value.value.expr)
            value.value.closing (statement_tree body.value) }
    {
        Stmt::Switch {
            keyword,
            value,
            body,
        }
    }

    /// `while` `(` expression `)` statement
    pub fn while_loop(
        keyword: Token,
        test: Box<Controlling<A>, A>,
        body: Box<Stmt<A>, A>,
    ) -> Stmt<A>
        ensures { statement_tree result ≡ plain.While keyword test.value.opening (expr_tree test.value.expr)
            test.value.closing (statement_tree body.value) }
    {
        Stmt::While {
            keyword,
            test,
            body,
        }
    }

    /// `do` statement `while` `(` expression `)` `;`
    pub fn do_while(
        keyword: Token,
        body: Box<Stmt<A>, A>,
        while_keyword: Token,
        test: Box<Controlling<A>, A>,
        semicolon: Token,
    ) -> Stmt<A>
        ensures { statement_tree result ≡ plain.Do keyword (statement_tree body.value) while_keyword
            test.value.opening (expr_tree test.value.expr) test.value.closing semicolon }
    {
        Stmt::Do {
            keyword,
            body,
            while_keyword,
            test,
            semicolon,
        }
    }

    /// `for` `(` start [expression] `;` [expression] `)` statement
    pub fn for_loop(keyword: Token, head: Box<ForHead<A>, A>, body: Box<Stmt<A>, A>) -> Stmt<A>
        ensures { statement_tree result ≡ plain.For keyword head.value.opening (for_start_tree head.value.start)
            (expr_option head.value.test) head.value.semicolon (expr_option head.value.step) head.value.closing
            (statement_tree body.value) }
    {
        Stmt::For {
            keyword,
            head,
            body,
        }
    }

    /// `case` conditional expression `:` statement
    pub fn case(
        keyword: Token,
        value: Box<Expr<A>, A>,
        colon: Token,
        body: Box<Stmt<A>, A>,
    ) -> Stmt<A>
        ensures { statement_tree result ≡ plain.Case keyword (expr_tree value.value) colon (statement_tree body.value) }
    {
        Stmt::Case {
            keyword,
            value,
            colon,
            body,
        }
    }

    /// `default` `:` statement
    pub fn default(keyword: Token, colon: Token, body: Box<Stmt<A>, A>) -> Stmt<A>
        ensures { statement_tree result ≡ plain.Default keyword colon (statement_tree body.value) }
    {
        Stmt::Default {
            keyword,
            colon,
            body,
        }
    }

    /// name `:` statement
    pub fn label(name: Token, colon: Token, body: Box<Stmt<A>, A>) -> Stmt<A>
        ensures { statement_tree result ≡ plain.Label name colon (statement_tree body.value) }
    {
        Stmt::Label { name, colon, body }
    }

    /// `goto` name `;`
    pub fn goto(keyword: Token, name: Token, semicolon: Token) -> Stmt<A>
        ensures { statement_tree result ≡ plain.Goto keyword name semicolon }
    {
        Stmt::Goto {
            keyword,
            name,
            semicolon,
        }
    }

    /// `break` `;` or `continue` `;`
    pub fn jump(keyword: Token, semicolon: Token) -> Stmt<A>
        ensures { statement_tree result ≡ plain.Jump keyword semicolon }
    {
        Stmt::Jump { keyword, semicolon }
    }

    /// `return` `;`
    pub fn return_nothing(keyword: Token, semicolon: Token) -> Stmt<A>
        ensures { statement_tree result ≡ plain.Return keyword semicolon }
    {
        Stmt::Return { keyword, semicolon }
    }

    /// `return` expression `;`
    pub fn return_value(keyword: Token, value: Box<Expr<A>, A>, semicolon: Token) -> Stmt<A>
        ensures { statement_tree result ≡ plain.ReturnValue keyword (expr_tree value.value) semicolon }
    {
        Stmt::ReturnValue {
            keyword,
            value,
            semicolon,
        }
    }
}

#[tactic(auto, using(crate::proofs::StatementEquations::statement_views))]
impl<A: Allocator> BlockItem<A> {
    /// A declaration.
    pub fn declaration(declaration: Box<Decl<A>, A>) -> BlockItem<A>
        ensures { (rest : plain.BlockItems) → item_before result rest
            ≡ plain.DeclarationItem (declaration_tree declaration.value) rest }
    {
        BlockItem::DeclarationItem(declaration)
    }

    /// A statement.
    pub fn statement(statement: Stmt<A>) -> BlockItem<A>
        ensures { (rest : plain.BlockItems) → item_before result rest
            ≡ plain.StatementItem (statement_tree statement) rest }
    {
        BlockItem::StatementItem(statement)
    }
}
