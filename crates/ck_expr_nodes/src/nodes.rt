//! Nodes of expressions over those before them, one function for each production.
ghost use Rattle.std.specs.Prelude.{◌≡◌, true, false, length, IfOk};
ghost use Rattle.ck_grammar.specs.Trees as plain;
ghost use Rattle.ck_prog.specs.Declarations.{Place};
ghost use Rattle.ck_prog.specs.TypedExpressions.{typed_expression};
ghost use Rattle.ck_prog.specs.TypedTrees as typed;
ghost use Rattle.ck_prog.specs.TypedTrees.{Links, Typed, last_link};
ghost use Rattle.ck_prog.specs.Typing.{is_star as tells_star};
ghost use Rattle.ck_tables.specs.ExprTable.{links_below, links_of, tree_at};
ghost use Rattle.ck_tables.specs.Readings.{Readings, plain_facts};
ghost use Rattle.ck_expr_nodes.specs.Finding.{Stays};
ghost use Rattle.ck_expr_nodes.specs.Made as made;
ghost use Rattle.ck_expr_nodes.specs.SenseViews.{sense_in};
ghost use Rattle.ck_expr_nodes.specs.Walked.{Grows, IsKnown, IsValue};

use crate::senses::{Senses, sense_of};
use ck_base::{OutOfMemory, Token};
use ck_prog::{Assigning, Operator, Prefix, Role};
use ck_tables::{EntryId, ExprId, ExprNode, Exprs, Facts, Link};
use smallvec::SmallVec;
use std::alloc::Global;

/// An expression of the table, with what the expression around it asks for.
#[derive(Clone, Copy)]
pub struct Value {
    /// its number
    pub id: ExprId,
    /// what is known of its value
    pub facts: Facts,
    /// it is a `*` and its operand, maybe in parentheses (6.5.3.2)
    pub is_star: bool,
    /// the function that it names, maybe in parentheses (6.5.2.2)
    pub function: Option<EntryId>,
}

/// The table of expressions, and the names and types of the project.
pub struct Walk<S> {
    pub senses: S,
    pub exprs: Exprs,
}

#[tactic(auto, using(crate::proofs::Growth::staying, crate::proofs::NodeLemmas::standing))]
impl<S: Senses> Walk<S> {
    /// Adds a name.
    pub fn name(&mut self, role: Role, name: Token) -> Result<Value, OutOfMemory>
        ensures grows { Grows S.reads S.fits S.marks self.old.senses self.new.senses self.old.exprs self.new.exprs }
        ensures there { S.place self.new.senses ≡ S.place self.old.senses }
        ensures known { IfOk result (λ v. IsKnown (S.fits self.new.senses) self.new.exprs v) }
        ensures star { IfOk result (λ v. v.is_star ≡ false) }
        ensures meaning { IfOk
            result
            (λ v. (w : Readings) → S.reads self.new.senses w
            → IsValue w self.new.exprs (typed_expression (S.place self.old.senses) role (plain.Name name)) v) }
    {
        let found = self.senses.name(name)?;
        let facts = found.sense.facts(role, name, false);
        let id = self.exprs.push(ExprNode::Name {
            facts,
            entry: found.entry,
        })?;
        Ok(Value {
            id,
            facts,
            is_star: false,
            function: found.function,
        })
    }

    /// Adds a constant.
    pub fn constant(&mut self, role: Role, token: Token) -> Result<Value, OutOfMemory>
        ensures grows { Grows S.reads S.fits S.marks self.old.senses self.new.senses self.old.exprs self.new.exprs }
        ensures there { S.place self.new.senses ≡ S.place self.old.senses }
        ensures known { IfOk result (λ v. IsKnown (S.fits self.new.senses) self.new.exprs v) }
        ensures star { IfOk result (λ v. v.is_star ≡ false) }
        ensures meaning { IfOk
            result
            (λ v. (w : Readings) → S.reads self.new.senses w
            → IsValue w self.new.exprs (typed_expression (S.place self.old.senses) role (plain.Constant token)) v) }
    {
        let sense = self.senses.constant(token)?;
        let facts = sense.facts(role, token, false);
        let id = self.exprs.push(ExprNode::Constant { facts })?;
        Ok(Value {
            id,
            facts,
            is_star: false,
            function: None,
        })
    }

    /// Adds string literals beside each other.
    pub fn strings(
        &mut self,
        alloc: Global,
        role: Role,
        first: Token,
        others: &[Token],
    ) -> Result<Value, OutOfMemory>
        ensures grows { Grows S.reads S.fits S.marks self.old.senses self.new.senses self.old.exprs self.new.exprs }
        ensures there { S.place self.new.senses ≡ S.place self.old.senses }
        ensures known { IfOk result (λ v. IsKnown (S.fits self.new.senses) self.new.exprs v) }
        ensures star { IfOk result (λ v. v.is_star ≡ false) }
        ensures meaning { IfOk
            result
            (λ v. (w : Readings) → S.reads self.new.senses w
            → IsValue w self.new.exprs
            (typed_expression (S.place self.old.senses) role (plain.Strings first others.now)) v) }
    {
        let sense = self.senses.strings(first, others)?;
        let facts = sense.facts(role, first, false);
        let others = others.to_vec(alloc)?;
        let id = self.exprs.push(ExprNode::Strings { facts, others })?;
        Ok(Value {
            id,
            facts,
            is_star: false,
            function: None,
        })
    }

    /// Adds an expression in parentheses.
    pub fn paren(&mut self, role: Role, opening: Token, inner: Value) -> Result<Value, OutOfMemory>
        requires { IsKnown (S.fits self.old.senses) self.old.exprs inner }
        ensures grows { Grows S.reads S.fits S.marks self.old.senses self.new.senses self.old.exprs self.new.exprs }
        ensures there { S.place self.new.senses ≡ S.place self.old.senses }
        ensures known { IfOk result (λ v. IsKnown (S.fits self.new.senses) self.new.exprs v) }
        ensures star { IfOk result (λ v. v.is_star ≡ inner.is_star) }
        ensures meaning { IfOk
            result
            (λ v. (w : Readings) (x : Typed) → IsValue w self.old.exprs x inner
            → IsValue w self.new.exprs (made.paren_of role opening x) v) }
    {
        let facts = sense_of(inner.facts).facts(role, opening, inner.facts.holds_call);
        let id = self.exprs.push(ExprNode::Paren {
            facts,
            inner: inner.id,
        })?;
        Ok(Value {
            id,
            facts,
            is_star: inner.is_star,
            function: inner.function,
        })
    }

    /// Adds an operator before its operand.
    pub fn unary(
        &mut self,
        at: u32,
        role: Role,
        first: Token,
        operator: Prefix,
        operand: Value,
    ) -> Result<Value, OutOfMemory>
        requires { IsKnown (S.fits self.old.senses) self.old.exprs operand }
        ensures grows { Grows S.reads S.fits S.marks self.old.senses self.new.senses self.old.exprs self.new.exprs }
        ensures there { S.place self.new.senses ≡ S.place self.old.senses }
        ensures known { IfOk result (λ v. IsKnown (S.fits self.new.senses) self.new.exprs v) }
        ensures star { IfOk result (λ v. v.is_star ≡ tells_star operator) }
        ensures meaning { IfOk
            result
            (λ v. (w : Readings) (p : Place) (x : Typed) → S.reads self.new.senses w → S.marks self.old.senses at p
            → IsValue w self.old.exprs x operand
            → IsValue w self.new.exprs (made.unary_of p role first operand.is_star operator x) v) }
    {
        let sense = self
            .senses
            .unary(at, operator, operand.is_star, sense_of(operand.facts))?;
        let holds_call = is_evaluated(operator) && operand.facts.holds_call;
        let facts = sense.facts(role, first, holds_call);
        let id = self.exprs.push(ExprNode::Unary {
            facts,
            operator,
            operand: operand.id,
        })?;
        Ok(Value {
            id,
            facts,
            is_star: is_star(operator),
            function: None,
        })
    }

    /// An operator and its right operand, after the value of a chain so far.
    pub fn link(
        &mut self,
        at: u32,
        role: Role,
        operator: Operator,
        so_far: Facts,
        operand: Value,
    ) -> Result<Link, OutOfMemory>
        requires so_far { S.fits self.old.senses (sense_in so_far) }
        requires operand { IsKnown (S.fits self.old.senses) self.old.exprs operand }
        ensures stays { Stays S.reads S.fits S.marks self.old.senses self.new.senses }
        ensures table { self.new.exprs ≡ self.old.exprs }
        ensures there { S.place self.new.senses ≡ S.place self.old.senses }
        ensures fitting { IfOk result (λ l. S.fits self.new.senses (sense_in l.facts)) }
        ensures written { IfOk result (λ l. (l.operator ≡ operator) × (l.operand ≡ operand.id)) }
        ensures facts { IfOk
            result
            (λ l. (w : Readings) (p : Place) → S.reads self.new.senses w → S.marks self.old.senses at p
            → plain_facts w l.facts
            ≡ made.link_facts p role operator (plain_facts w so_far) (plain_facts w operand.facts)) }
    {
        let a = sense_of(so_far);
        let b = sense_of(operand.facts);
        let sense = self.senses.binary(at, operator, a, b)?;
        let holds_call = so_far.holds_call || operand.facts.holds_call;
        let facts = sense.facts(role, so_far.first, holds_call);
        Ok(Link {
            operator,
            operand: operand.id,
            facts,
        })
    }

    /// Adds a chain, of which the last link has the value of the whole.
    pub fn chain(
        &mut self,
        first: Value,
        links: SmallVec<Link, 1>,
        facts: Facts,
    ) -> Result<Value, OutOfMemory>
        requires first { IsKnown (S.fits self.old.senses) self.old.exprs first }
        requires links { links_below (length self.old.exprs) links.items ≡ true }
        requires facts { S.fits self.old.senses (sense_in facts) }
        ensures grows { Grows S.reads S.fits S.marks self.old.senses self.new.senses self.old.exprs self.new.exprs }
        ensures there { S.place self.new.senses ≡ S.place self.old.senses }
        ensures known { IfOk result (λ v. IsKnown (S.fits self.new.senses) self.new.exprs v) }
        ensures star { IfOk result (λ v. v.is_star ≡ false) }
        ensures meaning { IfOk
            result
            (λ v. (w : Readings) (x : Typed) (ls : Links) → IsValue w self.old.exprs x first
            → links_of w (tree_at w self.old.exprs) links.items ≡ ls
            → plain_facts w facts ≡ last_link (typed.facts x) ls
            → IsValue w self.new.exprs (typed.Chain x ls) v) }
    {
        let id = self.exprs.push(ExprNode::Chain {
            first: first.id,
            links,
        })?;
        Ok(Value {
            id,
            facts,
            is_star: false,
            function: None,
        })
    }

    /// Adds `? :`.
    pub fn conditional(
        &mut self,
        role: Role,
        test: Value,
        second: Value,
        third: Value,
    ) -> Result<Value, OutOfMemory>
        requires test { IsKnown (S.fits self.old.senses) self.old.exprs test }
        requires second { IsKnown (S.fits self.old.senses) self.old.exprs second }
        requires third { IsKnown (S.fits self.old.senses) self.old.exprs third }
        ensures grows { Grows S.reads S.fits S.marks self.old.senses self.new.senses self.old.exprs self.new.exprs }
        ensures there { S.place self.new.senses ≡ S.place self.old.senses }
        ensures known { IfOk result (λ v. IsKnown (S.fits self.new.senses) self.new.exprs v) }
        ensures star { IfOk result (λ v. v.is_star ≡ false) }
        ensures meaning { IfOk
            result
            (λ v. (w : Readings) (x y z : Typed) → S.reads self.new.senses w → IsValue w self.old.exprs x test
            → IsValue w self.old.exprs y second → IsValue w self.old.exprs z third
            → IsValue w self.new.exprs (made.conditional_of role x y z) v) }
    {
        let sense = self.senses.choice(
            sense_of(test.facts),
            sense_of(second.facts),
            sense_of(third.facts),
        )?;
        let holds_call = test.facts.holds_call || second.facts.holds_call || third.facts.holds_call;
        let facts = sense.facts(role, test.facts.first, holds_call);
        let id = self.exprs.push(ExprNode::Conditional {
            facts,
            test: test.id,
            second: second.id,
            third: third.id,
        })?;
        Ok(Value {
            id,
            facts,
            is_star: false,
            function: None,
        })
    }

    /// Adds an assignment.
    pub fn assignment(
        &mut self,
        at: u32,
        role: Role,
        operator: Assigning,
        target: Value,
        value: Value,
    ) -> Result<Value, OutOfMemory>
        requires target { IsKnown (S.fits self.old.senses) self.old.exprs target }
        requires value { IsKnown (S.fits self.old.senses) self.old.exprs value }
        ensures grows { Grows S.reads S.fits S.marks self.old.senses self.new.senses self.old.exprs self.new.exprs }
        ensures there { S.place self.new.senses ≡ S.place self.old.senses }
        ensures known { IfOk result (λ v. IsKnown (S.fits self.new.senses) self.new.exprs v) }
        ensures star { IfOk result (λ v. v.is_star ≡ false) }
        ensures meaning { IfOk
            result
            (λ v. (w : Readings) (p : Place) (x y : Typed) → S.reads self.new.senses w
            → S.marks self.old.senses at p → IsValue w self.old.exprs x target → IsValue w self.old.exprs y value
            → IsValue w self.new.exprs (made.assignment_of p role operator x y) v) }
    {
        let sense = self.senses.assignment(
            at,
            operator,
            sense_of(target.facts),
            sense_of(value.facts),
        )?;
        let holds_call = target.facts.holds_call || value.facts.holds_call;
        let facts = sense.facts(role, target.facts.first, holds_call);
        let id = self.exprs.push(ExprNode::Assignment {
            facts,
            operator,
            target: target.id,
            value: value.id,
        })?;
        Ok(Value {
            id,
            facts,
            is_star: false,
            function: None,
        })
    }
}

/// Whether an operator is `*`.
fn is_star(operator: Prefix) -> bool
    ensures { result ≡ tells_star operator }
{
    matches!(operator, Prefix::Dereference)
}

/// Whether the operand of an operator is evaluated (6.5.3.4).
fn is_evaluated(operator: Prefix) -> bool
    ensures { result ≡ made.is_evaluated operator }
{
    !matches!(operator, Prefix::SizeOf)
}
