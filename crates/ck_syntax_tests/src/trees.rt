//! Trees that are long, and trees as deep as the language allows: they are built and let go on a small stack.
use ck_base::{OutOfMemory, Span, Token, TokenKind};
use ck_syntax::{BlockItem, Declarator, Dim, Expr, Operand, Parameters, Stmt, Suffix, TypeName};
use std::alloc::Global;
use std::test::Fail;

/// How many elements a long list has.
const LONG: usize = 300_000;

/// The deepest nesting (docs/LANGUAGE.md).
const DEEP: usize = 200;

pub fn token_at(start: u32) -> Token {
    Token {
        kind: TokenKind::Mark,
        span: Span {
            file: 0,
            start,
            end: start,
        },
    }
}

pub fn name(start: u32) -> Expr<Global> {
    Expr::name(token_at(start))
}

/// A long list of elements, each made anew.
fn long_list<T: Drop, F: Fn() -> T>(alloc: Global, make: F) -> Result<Vec<T>, OutOfMemory>
    requires { F.IsAlwaysCallable make }
{
    let mut list = Vec::new(alloc);
    for _ in 0..LONG {
        list.push(make())?;
    }
    Ok(list)
}

/// A name, and many operands.
fn long_chain(alloc: Global) -> Result<Expr<Global>, OutOfMemory> {
    let operands = long_list(alloc, || Operand::new(token_at(0), name(1)))?;
    Ok(Expr::chain(name(0).boxed(alloc)?, operands))
}

/// A name, and many calls without arguments.
fn many_calls(alloc: Global) -> Result<Expr<Global>, OutOfMemory> {
    let suffixes = long_list(alloc, || Suffix::call_empty(token_at(1), token_at(2)))?;
    Ok(Expr::postfix(name(0).boxed(alloc)?, suffixes))
}

/// Many pairs of parentheses after a declarator, each without parameters.
fn many_functions(alloc: Global) -> Result<Vec<Dim<Global>>, OutOfMemory> {
    let mut dims = Vec::new(alloc);
    for _ in 0..LONG {
        let parameters = Parameters::empty().boxed(alloc)?;
        dims.push(Dim::function(token_at(2), parameters, token_at(3)))?;
    }
    Ok(dims)
}

/// A cast of a name, to a type with many stars and many pairs of parentheses.
fn wide_cast(alloc: Global) -> Result<Expr<Global>, OutOfMemory> {
    let stars = long_list(alloc, || token_at(1))?;
    let type_name = TypeName {
        opening: token_at(0),
        specifiers: Vec::new(alloc),
        declarator: Declarator::nameless(stars, many_functions(alloc)?),
        closing: token_at(4),
    };
    Ok(Expr::cast(type_name.boxed(alloc)?, name(5).boxed(alloc)?))
}

/// A block of many statements.
fn long_block(alloc: Global) -> Result<Stmt<Global>, OutOfMemory> {
    let items = long_list(alloc, || BlockItem::statement(Stmt::empty(token_at(1))))?;
    Ok(Stmt::block(token_at(0), items, token_at(2)))
}

/// Parentheses around an expression, as deep as may be.
fn deep_expr(alloc: Global, inner: Expr<Global>) -> Result<Expr<Global>, OutOfMemory> {
    let mut tree = inner;
    for _ in 0..DEEP {
        tree = Expr::paren(token_at(0), tree.boxed(alloc)?, token_at(0));
    }
    Ok(tree)
}

/// A block in a block, as deep as may be, around a statement.
fn deep_block(alloc: Global, inner: Stmt<Global>) -> Result<Stmt<Global>, OutOfMemory> {
    let mut tree = inner;
    for _ in 0..DEEP {
        let mut items = Vec::new(alloc);
        items.push(BlockItem::statement(tree))?;
        tree = Stmt::block(token_at(0), items, token_at(0));
    }
    Ok(tree)
}

/// How many elements the list at the top of a tree has.
fn width(tree: &Expr<Global>) -> usize {
    match tree {
        Expr::Chain { operands, .. } => operands.len(),
        Expr::Postfix { suffixes, .. } => suffixes.len(),
        _ => 0,
    }
}

/// Whether each long tree is built, and as long as it has to be.
fn are_long(alloc: Global) -> Result<bool, OutOfMemory> {
    Ok(
        width(&long_chain(alloc)?) == LONG
            && width(&many_calls(alloc)?) == LONG
            && width(&wide_cast(alloc)?) == 0
            && matches!(long_block(alloc)?, Stmt::Block { .. }),
    )
}

#[test]
fn long_trees(rt: HostRuntime) -> Result<(), Fail> {
    assert!(rt; are_long(rt.alloc())?);
    Ok(())
}

/// Parentheses around a long chain, in blocks.
#[test]
fn deep_trees(rt: HostRuntime) -> Result<(), Fail> {
    let alloc = rt.alloc();
    let tree = deep_expr(alloc, long_chain(alloc)?)?;
    drop(deep_block(alloc, Stmt::expression(tree, token_at(0)))?);
    Ok(())
}
