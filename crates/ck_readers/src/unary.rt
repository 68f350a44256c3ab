//! Unary expressions, `sizeof` and casts (C99 6.5.3, 6.5.4).
ghost use Rattle.std.specs.Prelude.{◌≡◌};
ghost use Rattle.ck_grammar.specs.Fitting as fitting;
ghost use Rattle.ck_grammar.specs.Levels.{Level};
ghost use Rattle.ck_grammar.specs.Readers.{Reader};
ghost use Rattle.ck_grammar.specs.ReadingExpressions as reading;
ghost use Rattle.ck_grammar.specs.Trees as plain;
ghost use Rattle.ck_readers.specs.Forms.{form as form_of};
ghost use Rattle.ck_readers.specs.Places.{ReadAt, Reads, ReadsLevels};
ghost use Rattle.ck_readers.specs.SourceView.{words};

use crate::builders::Building;
use crate::forms::Form;
use crate::sources::Source;
use crate::suffixes::postfix;
use ck_base::{OutOfMemory, Token};
use ck_grammar::{Lead, level};

/// A cast or a unary expression (6.5.4).
pub fn cast<
    T: Building,
    E: Fn(u8, usize) -> Result<Option<(T::Expr, usize)>, OutOfMemory>,
    N: Fn(usize) -> Result<Option<(T::TypeName, usize)>, OutOfMemory>,
>(
    building: &T,
    source: &Source<'_>,
    expr: &E,
    type_name: &N,
    depth: u8,
    at: usize,
) -> Result<Option<(T::Expr, usize)>, OutOfMemory>
    requires inside { E.IsAlwaysCallable expr.now }
    requires types { N.IsAlwaysCallable type_name.now }
    ensures { (inner : Level → Reader plain.Expr) (ty : Reader (plain.Specifiers × plain.Declarator))
        → ReadsLevels T.expr inner source.now.tokens (E.post expr.now)
        → Reads T.type_name (reading.in_parens (words source.now) ty) source.now.tokens (N.post type_name.now)
        → ReadAt T.expr (reading.cast (words source.now) inner ty depth) source.now.tokens at result }
{
    if !source.opens_type(at) {
        return unary(building, source, expr, type_name, depth, at);
    }
    let Some(read) = type_name(at)? else {
        return Ok(None);
    };
    let (to, next) = read;
    let Some(read) = expr(level::CAST, next)? else {
        return Ok(None);
    };
    let (operand, next) = read;
    Ok(Some((building.cast(to, operand)?, next)))
}

/// A unary expression (6.5.3).
fn unary<
    T: Building,
    E: Fn(u8, usize) -> Result<Option<(T::Expr, usize)>, OutOfMemory>,
    N: Fn(usize) -> Result<Option<(T::TypeName, usize)>, OutOfMemory>,
>(
    building: &T,
    source: &Source<'_>,
    expr: &E,
    type_name: &N,
    depth: u8,
    at: usize,
) -> Result<Option<(T::Expr, usize)>, OutOfMemory>
    requires inside { E.IsAlwaysCallable expr.now }
    requires types { N.IsAlwaysCallable type_name.now }
    ensures { (inner : Level → Reader plain.Expr) (ty : Reader (plain.Specifiers × plain.Declarator))
        → ReadsLevels T.expr inner source.now.tokens (E.post expr.now)
        → Reads T.type_name (reading.in_parens (words source.now) ty) source.now.tokens (N.post type_name.now)
        → ReadAt T.expr (reading.unary (words source.now) inner ty depth) source.now.tokens at result }
{
    match source.lead_at(at) {
        None => Ok(None),
        Some((token, lead, next)) => unary_by(
            building, source, expr, type_name, depth, lead, token, next,
        ),
    }
}

/// A unary expression by what its first token begins; `at` is the place after the token.
fn unary_by<
    T: Building,
    E: Fn(u8, usize) -> Result<Option<(T::Expr, usize)>, OutOfMemory>,
    N: Fn(usize) -> Result<Option<(T::TypeName, usize)>, OutOfMemory>,
>(
    building: &T,
    source: &Source<'_>,
    expr: &E,
    type_name: &N,
    depth: u8,
    lead: Lead,
    token: Token,
    at: usize,
) -> Result<Option<(T::Expr, usize)>, OutOfMemory>
    requires inside { E.IsAlwaysCallable expr.now }
    requires types { N.IsAlwaysCallable type_name.now }
    ensures { (inner : Level → Reader plain.Expr) (ty : Reader (plain.Specifiers × plain.Declarator))
        → ReadsLevels T.expr inner source.now.tokens (E.post expr.now)
        → Reads T.type_name (reading.in_parens (words source.now) ty) source.now.tokens (N.post type_name.now)
        → ReadAt T.expr (reading.unary_by (words source.now) inner ty depth lead token) source.now.tokens at result }
{
    match lead {
        Lead::Name => postfix(building, source, expr, depth, Lead::Name, token, at),
        Lead::Constant => postfix(building, source, expr, depth, Lead::Constant, token, at),
        Lead::String => postfix(building, source, expr, depth, Lead::String, token, at),
        Lead::Paren => postfix(building, source, expr, depth, Lead::Paren, token, at),
        Lead::Step => unary_operator(building, source, expr, Lead::Step, token, at),
        Lead::Operator => unary_operator(building, source, expr, Lead::Operator, token, at),
        Lead::Sizeof => sizeof(building, source, expr, type_name, token, at),
        Lead::Nothing => Ok(None),
    }
}

/// After `sizeof`: a type name in parentheses or a unary expression (6.5.3.4).
fn sizeof<
    T: Building,
    E: Fn(u8, usize) -> Result<Option<(T::Expr, usize)>, OutOfMemory>,
    N: Fn(usize) -> Result<Option<(T::TypeName, usize)>, OutOfMemory>,
>(
    building: &T,
    source: &Source<'_>,
    expr: &E,
    type_name: &N,
    keyword: Token,
    at: usize,
) -> Result<Option<(T::Expr, usize)>, OutOfMemory>
    requires inside { E.IsAlwaysCallable expr.now }
    requires types { N.IsAlwaysCallable type_name.now }
    ensures { (inner : Level → Reader plain.Expr) (ty : Reader (plain.Specifiers × plain.Declarator))
        → ReadsLevels T.expr inner source.now.tokens (E.post expr.now)
        → Reads T.type_name (reading.in_parens (words source.now) ty) source.now.tokens (N.post type_name.now)
        → ReadAt T.expr (reading.sizeof (words source.now) inner ty keyword) source.now.tokens at result }
{
    if !source.opens_type(at) {
        return unary_operator(building, source, expr, Lead::Sizeof, keyword, at);
    }
    let Some(read) = type_name(at)? else {
        return Ok(None);
    };
    let (of, next) = read;
    Ok(Some((building.sizeof_type(keyword, of)?, next)))
}

/// After a unary operator or `sizeof`: its operand.
fn unary_operator<T: Building, E: Fn(u8, usize) -> Result<Option<(T::Expr, usize)>, OutOfMemory>>(
    building: &T,
    source: &Source<'_>,
    expr: &E,
    lead: Lead,
    operator: Token,
    at: usize,
) -> Result<Option<(T::Expr, usize)>, OutOfMemory>
    requires { E.IsAlwaysCallable expr.now }
    ensures { (inner : Level → Reader plain.Expr) → ReadsLevels T.expr inner source.now.tokens (E.post expr.now)
        → ReadAt T.expr (reading.unary_operator (words source.now) inner lead operator) source.now.tokens at result }
{
    let Some(read) = expr(level::CAST, at)? else {
        return Ok(None);
    };
    let (operand, next) = read;
    if !takes(source, lead, building.form(&operand)) {
        return Ok(None);
    }
    Ok(Some((building.unary(operator, operand)?, next)))
}

/// Whether a unary operator takes an operand of this form.
fn takes(source: &Source<'_>, lead: Lead, form: Form) -> bool
    ensures { (e : plain.Expr) → form_of e ≡ form
        → result ≡ fitting.takes lead e (fitting.is_tight (words source.now)) }
{
    match lead {
        Lead::Step | Lead::Sizeof => is_unary(form),
        Lead::Operator => is_tight(source, form),
        _ => false,
    }
}

/// Whether an expression of this form is a unary expression (6.5.3).
pub fn is_unary(form: Form) -> bool
    ensures { (e : plain.Expr) → form_of e ≡ form → result ≡ fitting.is_unary e }
{
    matches!(form, Form::Unary)
}

/// Whether an expression of this form binds as tightly as a cast (6.5.4).
fn is_tight(source: &Source<'_>, form: Form) -> bool
    ensures { (e : plain.Expr) → form_of e ≡ form → result ≡ fitting.is_tight (words source.now) e }
{
    match form {
        Form::Unary | Form::Cast | Form::Chain(None) => true,
        Form::Chain(Some(operator)) => source.level_of(operator) == level::CAST,
        Form::Looser => false,
    }
}
