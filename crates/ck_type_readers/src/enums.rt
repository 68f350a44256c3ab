//! The enumerators of an enum (C99 6.7.2.2).
ghost use Rattle.ck_grammar.specs.Readers.{Reader};
ghost use Rattle.ck_grammar.specs.Trees as plain;
ghost use Rattle.ck_readers.specs.Places.{ReadAt, Reads};
ghost use Rattle.ck_readers.specs.SourceView.{words};
ghost use Rattle.ck_type_readers.specs.Enumerating.{EnumeratorAt};
ghost use Rattle.ck_type_readers.specs.Steps.{enumerator_after, enumerator_step, enumerators_from};

use crate::namings::Naming;
use ck_base::{OutOfMemory, Token};
use ck_grammar::FixedWord;
use ck_readers::{Building, Source};

/// Enumerators, one or more; the last one maybe with a comma after it. `expr` reads a value.
pub fn enumerators<T: Building, E: Fn(usize) -> Result<Option<(T::Expr, usize)>, OutOfMemory>>(
    building: &T,
    source: &Source<'_>,
    expr: &E,
    at: usize,
) -> Result<Option<(T::Enumerators, usize)>, OutOfMemory>
    requires { E.IsAlwaysCallable expr.now }
    ensures { (value : Reader plain.Expr) → Reads T.expr value source.now.tokens (E.post expr.now)
        → ReadAt T.enumerators (enumerators_from (words source.now) value) source.now.tokens at result }
{
    let mut row = building.no_enumerators();
    let mut here = at;
    'row: for _step in at..source.len() {
        let Some(found) = enumerator(building, source, expr, here)? else {
            return Ok(None);
        };
        let (one, after_one) = found;
        let Some(mark) = source.mark(FixedWord::Comma, after_one) else {
            let all = building.all_enumerators(row, one, None);
            return Ok(Some((all, after_one)));
        };
        let (comma, after_comma) = mark;
        if !source.is_name(after_comma) {
            let all = building.all_enumerators(row, one, Some(comma));
            return Ok(Some((all, after_comma)));
        }
        building.push_enumerator(&mut row, one, comma)?;
        here = after_comma;
    }
    Ok(None)
}

/// An enumerator without the comma after it.
fn enumerator<T: Building, E: Fn(usize) -> Result<Option<(T::Expr, usize)>, OutOfMemory>>(
    building: &T,
    source: &Source<'_>,
    expr: &E,
    at: usize,
) -> Result<Option<(T::Enumerator, usize)>, OutOfMemory>
    requires { E.IsAlwaysCallable expr.now }
    ensures { (value : Reader plain.Expr) → Reads T.expr value source.now.tokens (E.post expr.now)
        → EnumeratorAt T.last_of T.before_others (words source.now) (enumerator_step (words source.now) value)
        source.now.tokens at result }
{
    let Some(found) = source.sort_at(at) else {
        return Ok(None);
    };
    let (name, sort, after_name) = found;
    if !Naming::NewName.takes(sort) {
        return Ok(None);
    }
    enumerator_value(building, source, expr, name, after_name)
}

/// What is after an enumerator's name: maybe `=` and its value. Some token has to come.
fn enumerator_value<T: Building, E: Fn(usize) -> Result<Option<(T::Expr, usize)>, OutOfMemory>>(
    building: &T,
    source: &Source<'_>,
    expr: &E,
    name: Token,
    at: usize,
) -> Result<Option<(T::Enumerator, usize)>, OutOfMemory>
    requires { E.IsAlwaysCallable expr.now }
    ensures { (value : Reader plain.Expr) → Reads T.expr value source.now.tokens (E.post expr.now)
        → EnumeratorAt T.last_of T.before_others (words source.now) (enumerator_after (words source.now) value name)
        source.now.tokens at result }
{
    let Some(_first) = source.sort_at(at) else {
        return Ok(None);
    };
    let Some(mark) = source.mark(FixedWord::Equal, at) else {
        let one = building.enumerator(name);
        return Ok(Some((one, at)));
    };
    let (equals, after_equals) = mark;
    let Some(read) = expr(after_equals)? else {
        return Ok(None);
    };
    let (value, next) = read;
    let one = building.valued_enumerator(name, equals, value)?;
    Ok(Some((one, next)))
}
