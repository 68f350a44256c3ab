//! How many points functions have.
ghost use Rattle.std.specs.Prelude.{◌≡◌, true, IfOk, OnOk};
ghost use Rattle.ck_counts.specs.BodyPoints.{function_points};
ghost use Rattle.ck_counts.specs.Weights.{Weighs, IsKnown, StatementsCount};
ghost use Rattle.ck_numbering.specs.Counts.{AreCounts};
ghost use Rattle.ck_tables.specs.Numbers.{numbers, body_fits};
ghost use Rattle.ck_tables.specs.Program.{functions, plain_body};

use crate::body_counts::Counted;
use crate::initialisers::Known;
use crate::statements::{count_items, items_count};
use crate::weights::Weight;
use ck_base::{FnId, OutOfMemory};
use ck_tables::{Body, Program};
use std::alloc::Global;

/// The points of a function. One that keeps the kernel's status has two more.
fn function(
    program: &Program,
    known: &mut Known,
    counted: &mut Vec<Counted>,
    body: &Body,
) -> Result<Weight, OutOfMemory>
    requires fits { body_fits (numbers program.now.linked) body.now ≡ true }
    requires count { StatementsCount program.now.linked counted.old.items }
    requires known { IsKnown program.now.linked known.old }
    ensures known { OnOk result (IsKnown program.now.linked known.new) }
    ensures count { OnOk result (StatementsCount program.now.linked counted.new.items) }
    ensures is { IfOk result (λ w. Weighs w.0 (function_points (plain_body program.now.linked body.now))) }
{
    let row = body.items.as_slice();
    count_items(program, known, counted, row)?;
    let inside = items_count(program, known, counted.as_slice(), row)?;
    let ends = if inside.keeps_status { 4 } else { 2 };
    Ok(Weight::of(ends).and(inside.points))
}

/// A function's number.
fn number_of(index: usize) -> Result<FnId, OutOfMemory>
    ensures { IfOk result (λ id. id.0 ≡ index) }
{
    match u32::try_from(index) {
        Ok(number) => Ok(FnId(number)),
        Err(_) => Err(OutOfMemory),
    }
}

/// How many points each function has, in the order of their numbers; of more than 400,000 it says one more than these.
/// `ck_numbering::function_past_limit` finds by them where a project has too many. The only error is want of memory.
pub fn counts(alloc: Global, program: &Program) -> Result<Vec<u32>, OutOfMemory>
    ensures { IfOk result (λ counts. AreCounts (functions program.now.linked) counts.items) }
{
    let mut known = Known::new(alloc);
    let mut counted = Vec::new(alloc);
    let mut counts = Vec::new(alloc);
    'functions: for index in 0..program.functions() {
        let body = program.body(number_of(index)?);
        let points = function(program, &mut known, &mut counted, body)?;
        counts.push(points.0)?;
    }
    Ok(counts)
}
