//! The weights of a project's declarations.
ghost use Rattle.std.specs.Prelude.{◌≡◌, ◌<◌, true, length, IfOk, OnOk};
ghost use Rattle.std.specs.List.{list_all};
ghost use Rattle.ck_counts.specs.BodyPoints.{declared_points, declaration_points};
ghost use Rattle.ck_counts.specs.Weights.{Weighs, IsCounted, AreDeclared, IsKnown};
ghost use Rattle.ck_points.specs.Functions.{status_in_declaration};
ghost use Rattle.ck_tables.specs.Numbers.{numbers, fits_if_any, initialiser_fits, declarator_fits};
ghost use Rattle.ck_tables.specs.Program.{with_initialisers, declaration_of};
ghost use Rattle.ck_tables.specs.StmtTable.{plain_initialiser, declarators_of};

use crate::body_counts::Counted;
use crate::initialisers::{Known, initialiser};
use crate::weights::Weight;
use ck_base::OutOfMemory;
use ck_tables::{DeclarationId, Declared, InitId, Program};

/// The initialiser of a declarator, if it has one.
fn initialised(
    program: &Program,
    known: &mut Known,
    i: Option<InitId>,
) -> Result<Weight, OutOfMemory>
    requires fits { fits_if_any (initialiser_fits (numbers program.now.linked)) i ≡ true }
    requires known { IsKnown program.now.linked known.old }
    ensures known { OnOk result (IsKnown program.now.linked known.new) }
    ensures is { IfOk result (λ w. Weighs w.0
        (declared_points (plain_initialiser (with_initialisers program.now.linked) i))) }
{
    match i {
        Some(number) => initialiser(program, known, number),
        None => Ok(Weight::of(0)),
    }
}

/// Declarators: what they come to, and whether some have an initialiser.
#[derive(Clone, Copy)]
pub(crate) struct Declarators {
    pub(crate) counted: Counted,
    pub(crate) initialised: bool,
}

/// The declarators of a declaration.
fn all_declared(
    program: &Program,
    known: &mut Known,
    row: &[Declared],
) -> Result<Declarators, OutOfMemory>
    requires fit { list_all (declarator_fits (numbers program.now.linked)) row.now ≡ true }
    requires known { IsKnown program.now.linked known.old }
    ensures known { OnOk result (IsKnown program.now.linked known.new) }
    ensures are { IfOk result (λ ds.
        AreDeclared ds (declarators_of (with_initialisers program.now.linked) row.now)) }
{
    let mut all = Declarators {
        counted: Counted::plain(Weight::of(0)),
        initialised: false,
    };
    let mut left = row.len();
    'each: while 0 < left {
        left -= 1;
        let next = &row[left];
        let points = initialised(program, known, next.initialiser)?;
        all = Declarators {
            counted: Counted {
                points: points.and(all.counted.points),
                keeps_status: next.facts.status || all.counted.keeps_status,
            },
            initialised: next.initialiser.is_some() || all.initialised,
        };
    }
    Ok(all)
}

/// What a declaration comes to. It has two points of its own where some declarator has an initialiser.
pub(crate) fn declaration(
    program: &Program,
    known: &mut Known,
    d: DeclarationId,
) -> Result<Counted, OutOfMemory>
    requires there { d.0 < length program.now.linked.declarations.rows.items }
    requires known { IsKnown program.now.linked known.old }
    ensures known { OnOk result (IsKnown program.now.linked known.new) }
    ensures is { IfOk result (λ c. IsCounted c (declaration_points (declaration_of program.now.linked d.0))
        (status_in_declaration (declaration_of program.now.linked d.0))) }
{
    let row = program.declaration(d);
    let all = all_declared(program, known, row.declared.as_slice())?;
    let own = if all.initialised { 2 } else { 0 };
    Ok(all.counted.after(Weight::of(own)))
}
