//! Suffixes of an expression (C99 6.5.2), one function for each production, and the row of them.
ghost use Rattle.std.specs.Prelude.{◌≡◌, ℕ, true, false, All, length, IfOk};
ghost use Rattle.ck_prog.specs.Declarations.{Place, text};
ghost use Rattle.ck_prog.specs.Operators.{prefix};
ghost use Rattle.ck_prog.specs.TypedTrees as typed;
ghost use Rattle.ck_prog.specs.TypedTrees.{Steps, Typed, last_step};
ghost use Rattle.ck_tables.specs.ExprTable.{arguments_below, step_before, step_below, steps_below};
ghost use Rattle.ck_tables.specs.ExprTable.{steps_of, tree_at};
ghost use Rattle.ck_tables.specs.Readings.{Readings, plain_facts};
ghost use Rattle.ck_tables.specs.declared.exprs.Step.TheVariants as steps;
ghost use Rattle.ck_expr_nodes.specs.Finding.{Stays};
ghost use Rattle.ck_expr_nodes.specs.Made as made;
ghost use Rattle.ck_expr_nodes.specs.SenseViews.{plain_senses, sense_in};
ghost use Rattle.ck_expr_nodes.specs.StepValues.{value_in};
ghost use Rattle.ck_expr_nodes.specs.Walked.{Grows, IsKnown, IsValue};

use crate::nodes::{Value, Walk};
use crate::senses::{Sense, Senses, sense_of};
use ck_base::{OutOfMemory, Token};
use ck_prog::{Prefix, Role};
use ck_tables::{EntryId, ExprId, ExprNode, Facts, Step};
use smallvec::SmallVec;

/// The arguments of a call, in written order.
#[derive(Drop)]
pub struct Arguments {
    /// their numbers
    pub ids: SmallVec<ExprId, 4>,
    /// their senses
    pub senses: Vec<Sense>,
}

/// The value of a row up to a suffix.
pub fn value_of(step: &Step) -> Facts
    ensures { result ≡ value_in step.now }
{
    match step {
        Step::Index { facts, .. } => *facts,
        Step::Call { facts, .. } => *facts,
        Step::Access { facts, .. } => *facts,
        Step::PostIncrement { facts, .. } => *facts,
    }
}

#[tactic(auto, using(crate::proofs::Growth::staying, crate::proofs::NodeLemmas::standing))]
impl<S: Senses> Walk<S> {
    /// An index, after the value of a row so far (6.5.2.1).
    pub fn index(
        &mut self,
        at: u32,
        role: Role,
        opening: Token,
        so_far: Facts,
        index: Value,
    ) -> Result<Step, OutOfMemory>
        requires so_far { S.fits self.old.senses (sense_in so_far) }
        requires index { IsKnown (S.fits self.old.senses) self.old.exprs index }
        ensures stays { Stays S.reads S.fits S.marks self.old.senses self.new.senses }
        ensures table { self.new.exprs ≡ self.old.exprs }
        ensures there { S.place self.new.senses ≡ S.place self.old.senses }
        ensures fitting { IfOk result (λ s. S.fits self.new.senses (sense_in (value_in s))) }
        ensures below { IfOk result (λ s. step_below (length self.old.exprs) s ≡ true) }
        ensures written { IfOk result (λ s. s ≡ steps.Index opening index.id (value_in s)) }
        ensures facts { IfOk
            result
            (λ s. (w : Readings) (p : Place) → S.reads self.new.senses w → S.marks self.old.senses at p
            → plain_facts w (value_in s)
            ≡ made.index_facts p role (plain_facts w so_far) (plain_facts w index.facts)) }
    {
        let a = sense_of(so_far);
        let b = sense_of(index.facts);
        let sense = self.senses.element(at, a, b)?;
        let holds_call = so_far.holds_call || index.facts.holds_call;
        let facts = sense.facts(role, so_far.first, holds_call);
        let index = index.id;
        Ok(Step::Index {
            opening,
            index,
            facts,
        })
    }

    /// A call with its arguments, after the value of a row so far, which may be a function that is named
    /// (6.5.2.2).
    pub fn call(
        &mut self,
        at: u32,
        role: Role,
        opening: Token,
        function: Option<EntryId>,
        so_far: Facts,
        arguments: Arguments,
    ) -> Result<Step, OutOfMemory>
        requires so_far { S.fits self.old.senses (sense_in so_far) }
        requires arguments { arguments_below (length self.old.exprs) arguments.ids.items ≡ true }
        requires senses { All (S.fits self.old.senses) arguments.senses.items }
        ensures stays { Stays S.reads S.fits S.marks self.old.senses self.new.senses }
        ensures table { self.new.exprs ≡ self.old.exprs }
        ensures there { S.place self.new.senses ≡ S.place self.old.senses }
        ensures fitting { IfOk result (λ s. S.fits self.new.senses (sense_in (value_in s))) }
        ensures below { IfOk result (λ s. step_below (length self.old.exprs) s ≡ true) }
        ensures written { IfOk result (λ s. s ≡ steps.Call opening function arguments.ids (value_in s)) }
        ensures facts { IfOk
            result
            (λ s. (w : Readings) (p : Place) → S.reads self.new.senses w → S.marks self.old.senses at p
            → plain_facts w (value_in s)
            ≡ made.called_facts p role (plain_facts w so_far) (plain_senses w arguments.senses.items)) }
    {
        let Arguments { ids, senses } = arguments;
        let sense = self.senses.call(at, sense_of(so_far), &senses)?;
        let facts = sense.facts(role, so_far.first, true);
        Ok(Step::Call {
            opening,
            function,
            arguments: ids,
            facts,
        })
    }

    /// `.` or `->` with the name of a member, after the value of a row so far (6.5.2.3).
    pub fn access(
        &mut self,
        role: Role,
        operator: Token,
        name: Token,
        so_far: Facts,
    ) -> Result<Step, OutOfMemory>
        requires { S.fits self.old.senses (sense_in so_far) }
        ensures stays { Stays S.reads S.fits S.marks self.old.senses self.new.senses }
        ensures table { self.new.exprs ≡ self.old.exprs }
        ensures there { S.place self.new.senses ≡ S.place self.old.senses }
        ensures fitting { IfOk result (λ s. S.fits self.new.senses (sense_in (value_in s))) }
        ensures below { IfOk result (λ s. step_below (length self.old.exprs) s ≡ true) }
        ensures written { IfOk
            result
            (λ s. (w : Readings) (f : ℕ → Typed) (rest : Steps) → S.reads self.new.senses w
            → step_before w f s rest
            ≡ typed.Access (made.is_dot (S.place self.old.senses) operator) name
            (made.accessed (S.place self.old.senses) operator (plain_facts w so_far) name) (plain_facts w (value_in s))
            rest) }
        ensures facts { IfOk
            result
            (λ s. (w : Readings) → S.reads self.new.senses w
            → plain_facts w (value_in s)
            ≡ made.access_facts (S.place self.old.senses) role operator (plain_facts w so_far) name) }
    {
        let is_dot = self.senses.is_dot(operator);
        let found = self.senses.access(is_dot, sense_of(so_far), name)?;
        let facts = found.sense.facts(role, so_far.first, so_far.holds_call);
        Ok(Step::Access {
            is_dot,
            name,
            member: found.member,
            facts,
        })
    }

    /// `++` or `--`, after the value of a row so far (6.5.2.4). It makes of it what `++` before it does (6.5.3.1).
    pub fn post_increment(
        &mut self,
        role: Role,
        token: Token,
        so_far: Facts,
    ) -> Result<Step, OutOfMemory>
        requires { S.fits self.old.senses (sense_in so_far) }
        ensures stays { Stays S.reads S.fits S.marks self.old.senses self.new.senses }
        ensures table { self.new.exprs ≡ self.old.exprs }
        ensures there { S.place self.new.senses ≡ S.place self.old.senses }
        ensures fitting { IfOk result (λ s. S.fits self.new.senses (sense_in (value_in s))) }
        ensures below { IfOk result (λ s. step_below (length self.old.exprs) s ≡ true) }
        ensures written { IfOk
            result
            (λ s. s ≡ steps.PostIncrement token (prefix (text (S.place self.old.senses) token)) (value_in s)) }
        ensures facts { IfOk
            result
            (λ s. (w : Readings) → S.reads self.new.senses w
            → plain_facts w (value_in s) ≡ made.step_facts (S.place self.old.senses) role (plain_facts w so_far)) }
    {
        let at = self.senses.mark();
        let operator = self.senses.prefix(token);
        let sense = self
            .senses
            .unary(at, Prefix::Increment, false, sense_of(so_far))?;
        let facts = sense.facts(role, so_far.first, so_far.holds_call);
        Ok(Step::PostIncrement {
            token,
            operator,
            facts,
        })
    }

    /// Adds an expression with its suffixes, of which the last has the value of the whole (6.5.2).
    pub fn postfix(
        &mut self,
        primary: Value,
        steps: Vec<Step>,
        facts: Facts,
    ) -> Result<Value, OutOfMemory>
        requires primary { IsKnown (S.fits self.old.senses) self.old.exprs primary }
        requires steps { steps_below (length self.old.exprs) steps.items ≡ true }
        requires facts { S.fits self.old.senses (sense_in facts) }
        ensures grows { Grows S.reads S.fits S.marks self.old.senses self.new.senses self.old.exprs self.new.exprs }
        ensures there { S.place self.new.senses ≡ S.place self.old.senses }
        ensures known { IfOk result (λ v. IsKnown (S.fits self.new.senses) self.new.exprs v) }
        ensures star { IfOk result (λ v. v.is_star ≡ false) }
        ensures meaning { IfOk
            result
            (λ v. (w : Readings) (x : Typed) (ss : Steps) → IsValue w self.old.exprs x primary
            → steps_of w (tree_at w self.old.exprs) steps.items ≡ ss
            → plain_facts w facts ≡ last_step (typed.facts x) ss
            → IsValue w self.new.exprs (typed.Postfix x ss) v) }
    {
        let id = self.exprs.push(ExprNode::Postfix {
            primary: primary.id,
            steps,
        })?;
        Ok(Value {
            id,
            facts,
            is_star: false,
            function: None,
        })
    }
}
