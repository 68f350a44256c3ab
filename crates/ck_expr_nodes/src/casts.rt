//! `sizeof` of a type (C99 6.5.3.4) and casts (6.5.4), where the parts of the type that is written are known.
ghost use Rattle.std.specs.Prelude.{◌≡◌, true, false, length, IfOk, Option};
ghost use Rattle.ck_prog.specs.TypedTrees.{TypeParts, Typed};
ghost use Rattle.ck_tables.specs.ExprTable.{parts_below, parts_of, tree_at};
ghost use Rattle.ck_tables.specs.Readings.{Readings, plain_type};
ghost use Rattle.ck_types.specs.Types.{CType};
ghost use Rattle.ck_expr_nodes.specs.Made as made;
ghost use Rattle.ck_expr_nodes.specs.SenseViews.{type_alone};
ghost use Rattle.ck_expr_nodes.specs.Walked.{Grows, IsKnown, IsValue};

use crate::nodes::{Value, Walk};
use crate::senses::{Sense, Senses, sense_of};
use ck_base::{OutOfMemory, Token};
use ck_prog::{Prefix, Role};
use ck_tables::{ExprNode, Part};
use ck_types::TypeId;

#[tactic(auto, using(crate::proofs::Growth::staying, crate::proofs::NodeLemmas::standing))]
impl<S: Senses> Walk<S> {
    /// Adds `sizeof` of a type, with what is written in it.
    pub fn sizeof_type(
        &mut self,
        role: Role,
        keyword: Token,
        of: Option<TypeId>,
        written: Vec<Part>,
    ) -> Result<Value, OutOfMemory>
        requires of { S.fits self.old.senses (type_alone of) }
        requires written { parts_below (length self.old.exprs) written.items ≡ true }
        ensures grows { Grows S.reads S.fits S.marks self.old.senses self.new.senses self.old.exprs self.new.exprs }
        ensures there { S.place self.new.senses ≡ S.place self.old.senses }
        ensures known { IfOk result (λ v. IsKnown (S.fits self.new.senses) self.new.exprs v) }
        ensures star { IfOk result (λ v. v.is_star ≡ false) }
        ensures meaning { IfOk
            result
            (λ v. (w : Readings) (t : Option CType) (parts : TypeParts) → S.reads self.new.senses w
            → plain_type w of ≡ t → parts_of w (tree_at w self.old.exprs) written.items ≡ parts
            → IsValue w self.new.exprs (made.sizeof_of (S.place self.old.senses) role keyword t parts) v) }
    {
        let at = self.senses.mark();
        let sense = self
            .senses
            .unary(at, Prefix::SizeOf, false, Sense::of_type(of))?;
        let facts = sense.facts(role, keyword, false);
        let id = self.exprs.push(ExprNode::SizeofType { facts, written })?;
        Ok(Value {
            id,
            facts,
            is_star: false,
            function: None,
        })
    }

    /// Adds a cast to a type, with what is written in it.
    pub fn cast(
        &mut self,
        role: Role,
        opening: Token,
        to: Option<TypeId>,
        written: Vec<Part>,
        operand: Value,
    ) -> Result<Value, OutOfMemory>
        requires to { S.fits self.old.senses (type_alone to) }
        requires written { parts_below (length self.old.exprs) written.items ≡ true }
        requires operand { IsKnown (S.fits self.old.senses) self.old.exprs operand }
        ensures grows { Grows S.reads S.fits S.marks self.old.senses self.new.senses self.old.exprs self.new.exprs }
        ensures there { S.place self.new.senses ≡ S.place self.old.senses }
        ensures known { IfOk result (λ v. IsKnown (S.fits self.new.senses) self.new.exprs v) }
        ensures star { IfOk result (λ v. v.is_star ≡ false) }
        ensures meaning { IfOk
            result
            (λ v. (w : Readings) (t : Option CType) (parts : TypeParts) (x : Typed) → S.reads self.new.senses w
            → plain_type w to ≡ t → parts_of w (tree_at w self.old.exprs) written.items ≡ parts
            → IsValue w self.old.exprs x operand
            → IsValue w self.new.exprs (made.cast_of role opening t parts x) v) }
    {
        let sense = self.senses.cast(to, sense_of(operand.facts))?;
        let facts = sense.facts(role, opening, operand.facts.holds_call);
        let id = self.exprs.push(ExprNode::Cast {
            facts,
            operand: operand.id,
            written,
        })?;
        Ok(Value {
            id,
            facts,
            is_star: false,
            function: None,
        })
    }
}
