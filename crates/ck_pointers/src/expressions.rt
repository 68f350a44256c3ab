//! Where the values of a typed project's expressions come from, by rules.
ghost use Rattle.std.specs.Prelude.{◌≡◌, ◌<◌, ◌≤◌, true, length, All, IfOk, OnOk};
ghost use Rattle.std.specs.List.{list_all};
ghost use Rattle.ck_call_rows.specs.TypedRows.{declarations};
ghost use Rattle.ck_pointers.specs.ExpressionSources as spec;
ghost use Rattle.ck_pointers.specs.ExpressionSources.{tables, rows, AreReady, StandsAlways, IsMade, IsMadeOf, AreMade};
ghost use Rattle.ck_pointers.specs.ExpressionSources.{origin_of_row};
ghost use Rattle.ck_pointers.specs.ExpressionSources.{after_suffix, calls_by_names, rows_call_functions, tree_of_node};
ghost use Rattle.ck_pointers.specs.Sources.{IsWithin};
ghost use Rattle.ck_pointers.specs.TypedSlots.{AreTyped, calls_functions};
ghost use Rattle.ck_prog.specs.Slots.{slot_of_result};
ghost use Rattle.ck_prog.specs.TypedExpressions.{is_function_named};
ghost use Rattle.ck_slots.specs.Holders.{holder};
ghost use Rattle.ck_slots.specs.Origins as origins;
ghost use Rattle.ck_tables.specs.ExprTable as table;
ghost use Rattle.ck_tables.specs.Numbers as fit;
ghost use Rattle.ck_tables.specs.Numbers.{numbers};
ghost use Rattle.ck_tables.specs.Program.{entry_of, readings};
ghost use Rattle.ck_tables.specs.Readings as plain;
ghost use Rattle.ck_tables.specs.Rows.{IsRow};

use crate::sources::{Source, either, result_of};
use ck_base::{FnId, OutOfMemory, SlotId};
use ck_prog::{Operator, Prefix};
use ck_reaching::{CellId, KindId, Rules};
use ck_tables::{
    EntryId, ExprId, ExprNode, Facts, Link, MeaningInfo, MemberId, Program, Step, UseInfo,
};
use ck_types::TypeId;
use std::alloc::Global;

/// A typed project, with the kinds of its calls.
#[derive(Clone, Copy)]
pub struct Callables<'a> {
    /// the project
    pub program: &'a Program,
    /// by the number of the type of what is called: the kind of such calls, none where no function may be called so
    pub kinds: &'a [Option<KindId>],
}

/// What a slot holds.
fn held(slot: Option<SlotId>) -> Source
    ensures { result ≡ spec.source_of_slot slot }
{
    match slot {
        Some(SlotId(number)) => Source::Cell(CellId(number)),
        None => Source::Nowhere,
    }
}

/// The function of a number, if there is one.
fn named(function: Option<FnId>) -> Source
    ensures { result ≡ spec.source_of_function function }
{
    match function {
        Some(function) => Source::Function(function),
        None => Source::Nowhere,
    }
}

/// What a name gives, by what it reaches and what it means.
fn by_meaning(reached: UseInfo, meaning: &MeaningInfo) -> Source
    ensures { result ≡ spec.source_of_name reached meaning.now }
{
    match meaning {
        MeaningInfo::Function { .. } => named(reached.function),
        MeaningInfo::Variable { .. } => held(reached.slot),
        _ => Source::Nowhere,
    }
}

/// Whether an operator gives what its last operand gives (6.5.17).
fn is_comma(operator: Operator) -> bool
    ensures { result ≡ origins.is_comma operator }
{
    matches!(operator, Operator::Comma)
}

/// Whether an operator gives what its operand gives (6.5.3.2).
fn goes_through(operator: Prefix) -> bool
    ensures { result ≡ origins.goes_through operator }
{
    matches!(operator, Prefix::Address | Prefix::Dereference)
}

/// The source of an expression among those that are known.
fn known(sources: &[Source], x: ExprId) -> Source
    requires { x.0 < length sources.now }
    ensures { IsRow sources.now x.0 result }
{
    sources[x.0 as usize]
}

/// What an operator before its operand gives, where the operand gives this.
fn through(operator: Prefix, operand: Source) -> Source
    ensures { result ≡ spec.source_through (origins.goes_through operator) operand }
{
    if goes_through(operator) {
        operand
    } else {
        Source::Nowhere
    }
}

/// What a chain gives: a comma gives its last operand, and no other operator gives a function (6.5.17).
fn last(sources: &[Source], first: ExprId, links: &[Link]) -> Source
    requires first { first.0 < length sources.now }
    requires links { table.links_below (length sources.now) links.now ≡ true }
    ensures { spec.IsLast sources.now first.0 links.now result }
{
    match links.last() {
        Some(link) => last_operand(sources, link),
        None => known(sources, first),
    }
}

/// What the last operator of a chain gives.
fn last_operand(sources: &[Source], link: &Link) -> Source
    requires { link.now.operand.0 < length sources.now }
    ensures { spec.IsOperand sources.now link.now result }
{
    if is_comma(link.operator) {
        known(sources, link.operand)
    } else {
        Source::Nowhere
    }
}

/// The kind of calls at a number of a table of kinds, if there is one.
fn kind_at(kinds: &[Option<KindId>], number: u32) -> Option<KindId>
    ensures { result ≡ spec.kind_at kinds.now number }
{
    if (number as usize) < kinds.len() {
        kinds[number as usize]
    } else {
        None
    }
}

/// Names and members.
impl Callables<'_> {
    /// What a name gives (6.5.1).
    fn name(&self, entry: Option<EntryId>) -> Source
        requires typed { AreTyped (tables self.now) (rows self.now) }
        requires fits { fit.fits_if_any (fit.entry_fits (numbers (tables self.now))) entry ≡ true }
        ensures { StandsAlways self.now
            (origins.origin_of_name (declarations (tables self.now))
            (plain.plain_entry (readings (tables self.now)) entry))
            result }
    {
        match entry {
            Some(entry) => by_meaning(
                self.program.use_of(entry),
                &self.program.entry(entry).meaning,
            ),
            None => Source::Nowhere,
        }
    }

    /// What a member gives (6.5.2.3).
    fn member(&self, member: Option<MemberId>) -> Source
        requires typed { AreTyped (tables self.now) (rows self.now) }
        requires fits { fit.fits_if_any (fit.member_fits (numbers (tables self.now))) member ≡ true }
        ensures { StandsAlways self.now
            (origins.origin_of_member (declarations (tables self.now))
            (plain.plain_member (readings (tables self.now)) member))
            result }
    {
        match member {
            Some(member) => held(self.program.slot_of_member(member)),
            None => Source::Nowhere,
        }
    }

    /// The kind of calls of what has a type, if any function may be called so.
    fn kind(&self, type_id: Option<TypeId>) -> Option<KindId>
        ensures { result ≡ spec.kind_of_type self.now.kinds.now type_id }
    {
        match type_id {
            Some(TypeId(number)) => kind_at(self.kinds, number),
            None => None,
        }
    }

    /// The slot that a function's result has, where the function is called by its name.
    fn result_slot(&self, function: EntryId) -> Source
        requires typed { AreTyped (tables self.now) (rows self.now) }
        requires fits { function.0 < length (tables self.now).entries.rows.items }
        requires is_function { is_function_named (entry_of (tables self.now) function.0).meaning ≡ true }
        ensures { StandsAlways self.now
            (origins.held (holder (slot_of_result (declarations (tables self.now))
            (entry_of (tables self.now) function.0))))
            result }
    {
        held(self.program.use_of(function).slot)
    }
}

/// Expressions.
impl Callables<'_> {
    /// The source of the result of a call of what gives a value (6.5.2.2).
    fn outcome(
        &self,
        alloc: Global,
        rules: &mut Rules,
        before: Facts,
        value: Source,
    ) -> Result<Source, OutOfMemory>
        requires ready { AreReady self.now rules.old }
        requires value { IsWithin rules.old value }
        ensures { IfOk result (λ source. IsMadeOf self.now
            (origins.ResultOf (origins.called_type (plain.plain_facts (readings (tables self.now)) before)))
            value source rules.old rules.new) }
    {
        match self.kind(before.type_id) {
            Some(kind) => result_of(alloc, rules, kind, value),
            None => Ok(Source::Nowhere),
        }
    }

    /// The source of a row up to a suffix, from the one before it.
    fn suffix(
        &self,
        alloc: Global,
        rules: &mut Rules,
        before: Facts,
        value: Source,
        step: &Step,
    ) -> Result<Source, OutOfMemory>
        requires typed { AreTyped (tables self.now) (rows self.now) }
        requires ready { AreReady self.now rules.old }
        requires value { IsWithin rules.old value }
        requires fits { fit.step_fits (numbers (tables self.now)) step.now ≡ true }
        requires called { calls_by_names self.now step.now ≡ true }
        ensures { IfOk result (λ source. IsMadeOf self.now (after_suffix self.now before step.now) value source
            rules.old rules.new) }
    {
        match step {
            Step::Index { .. } => Ok(value),
            Step::Call { function, .. } => match function {
                Some(function) => Ok(self.result_slot(*function)),
                None => self.outcome(alloc, rules, before, value),
            },
            Step::Access { member, .. } => Ok(self.member(*member)),
            Step::PostIncrement { .. } => Ok(Source::Nowhere),
        }
    }

    /// The source of a row of suffixes.
    fn row(
        &self,
        alloc: Global,
        rules: &mut Rules,
        sources: &[Source],
        primary: ExprId,
        steps: &[Step],
    ) -> Result<Source, OutOfMemory>
        requires typed { AreTyped (tables self.now) (rows self.now) }
        requires ready { AreReady self.now rules.old }
        requires sources { All (IsWithin rules.old) sources.now }
        requires primary { primary.0 < length sources.now }
        requires table { primary.0 < length (tables self.now).exprs }
        requires fits { list_all (fit.step_fits (numbers (tables self.now))) steps.now ≡ true }
        requires called { rows_call_functions self.now steps.now ≡ true }
        ensures { IfOk result (λ source. IsMade self.now sources.now (origin_of_row self.now primary.0 steps.now) source
            rules.old rules.new) }
    {
        let mut value = known(sources, primary);
        let mut before = self.program.linked().exprs.facts(primary);
        'steps: for step in steps {
            value = self.suffix(alloc, rules, before, value, step)?;
            before = step.facts();
        }
        Ok(value)
    }

    /// The source of an expression over those before it.
    fn node(
        &self,
        alloc: Global,
        rules: &mut Rules,
        sources: &[Source],
        node: &ExprNode,
    ) -> Result<Source, OutOfMemory>
        requires typed { AreTyped (tables self.now) (rows self.now) }
        requires ready { AreReady self.now rules.old }
        requires sources { All (IsWithin rules.old) sources.now }
        requires below { table.reads_below (length sources.now) node.now ≡ true }
        requires table { length sources.now ≤ length (tables self.now).exprs }
        requires fits { fit.expression_node_fits (numbers (tables self.now)) node.now ≡ true }
        requires called { calls_functions (tree_of_node self.now node.now) ≡ true }
        ensures { IfOk result (λ source. IsMade self.now sources.now
            (origins.origin (declarations (tables self.now)) (tree_of_node self.now node.now)) source
            rules.old rules.new) }
    {
        match node {
            ExprNode::Name { entry, .. } => Ok(self.name(*entry)),
            ExprNode::Constant { .. } => Ok(Source::Nowhere),
            ExprNode::Strings { .. } => Ok(Source::Nowhere),
            ExprNode::Paren { inner, .. } => Ok(known(sources, *inner)),
            ExprNode::Postfix { primary, steps } => {
                self.row(alloc, rules, sources, *primary, steps.as_slice())
            }
            ExprNode::Unary {
                operator,
                operand,
                ..
            } => Ok(through(*operator, known(sources, *operand))),
            ExprNode::SizeofType { .. } => Ok(Source::Nowhere),
            ExprNode::Cast { operand, .. } => Ok(known(sources, *operand)),
            ExprNode::Chain { first, links } => Ok(last(sources, *first, links.as_slice())),
            ExprNode::Conditional { second, third, .. } => {
                either(rules, known(sources, *second), known(sources, *third))
            }
            ExprNode::Assignment { value, .. } => Ok(known(sources, *value)),
        }
    }

    /// The source of an expression. Those of smaller numbers are known after it, each made once.
    pub fn expression(
        &self,
        alloc: Global,
        rules: &mut Rules,
        sources: &mut Vec<Source>,
        x: ExprId,
    ) -> Result<Source, OutOfMemory>
        requires typed { AreTyped (tables self.now) (rows self.now) }
        requires ready { AreReady self.now rules.old }
        requires sources { All (IsWithin rules.old) sources.old.items }
        requires number { x.0 < length (tables self.now).exprs }
        ensures made { OnOk result (AreMade self.now sources.old.items sources.new.items rules.old rules.new) }
        ensures is { IfOk result (λ source. IsRow sources.new.items x.0 source) }
    {
        'nodes: while sources.len() <= x.0 as usize {
            let next = self.program.expression(ExprId(sources.len() as u32));
            let source = self.node(alloc, rules, sources.as_slice(), next)?;
            sources.push(source)?;
        }
        Ok(known(sources.as_slice(), x))
    }
}
