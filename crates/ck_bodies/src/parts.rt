//! The points before and after a part, its tests, and the expressions in it.
ghost use Rattle.std.specs.Prelude.{◌≡◌, ◌<◌, [], ◌∷◌, ◌++◌, length, IfOk, OnOk};
ghost use Rattle.ck_bodies.specs.DrawnStatements as spec;
ghost use Rattle.ck_bodies.specs.Walks.{tables, made, Evaluates};
ghost use Rattle.ck_drafts.specs.Drafts.{plain_place};
ghost use Rattle.ck_passages.specs.Operands.{tree};
ghost use Rattle.ck_points.specs.Evaluations.{evaluation};
ghost use Rattle.ck_points.specs.Places as places;
ghost use Rattle.ck_prog.specs.TypedTrees.{facts};
ghost use Rattle.ck_tables.specs.Program.{readings};
ghost use Rattle.ck_tables.specs.Readings.{plain_facts};

use crate::walk::BodyWalk;
use ck_base::{OutOfMemory, Token};
use ck_drafts::{Place, Side};
use ck_passages::{Drawing, Happening, Walk, below, place};
use ck_tables::{ExprId, Facts};

impl<'a> BodyWalk<'a> {
    /// The place before the part to which a step leads.
    pub(crate) fn before(&self, path: &[u32], step: u64) -> Result<Place, OutOfMemory>
        ensures { IfOk result (λ p. plain_place p ≡ places.before (path.now ++ step ∷ [])) }
    {
        let inside = below(self.alloc, path, step)?;
        Ok(place(self.alloc, inside.as_slice(), &[], Side::Before)?)
    }

    /// The place after the part with this path.
    pub(crate) fn after(&self, path: &[u32]) -> Result<Place, OutOfMemory>
        ensures { IfOk result (λ p. plain_place p ≡ places.after path.now) }
    {
        Ok(place(self.alloc, path, &[], Side::After)?)
    }

    /// The place that comes next.
    pub(crate) fn next(&self, drawing: &Drawing) -> Result<Place, OutOfMemory>
        ensures { IfOk result (λ p. plain_place p ≡ (made self.now drawing.now).to) }
    {
        Ok(drawing.next(self.alloc)?)
    }

    /// Goes on to another place.
    #[tactic(auto, unfolding(crate::specs::DrawnStatements::turned))]
    pub(crate) fn turn(&self, to: Place, drawing: &mut Drawing)
        ensures { made self.now drawing.new ≡ spec.turned (plain_place to) (made self.now drawing.old) }
    {
        let _before = drawing.turn_to(to);
    }

    /// Puts the point before what is drawn, at a part with this first token.
    #[tactic(auto, unfolding(crate::specs::DrawnStatements::put_before))]
    pub(crate) fn put_before(
        &self,
        path: &[u32],
        first: Token,
        drawing: &mut Drawing,
    ) -> Result<(), OutOfMemory>
        ensures { OnOk result (made self.now drawing.new
            ≡ spec.put_before path.now first (made self.now drawing.old)) }
    {
        let at = place(self.alloc, path, &[], Side::Before)?;
        drawing.put_passing(self.alloc, at, Happening::Passes, first.span)?;
        Ok(())
    }

    /// Puts the point after a part with this first token.
    #[tactic(auto, unfolding(crate::specs::DrawnStatements::put_after))]
    pub(crate) fn put_after(
        &self,
        path: &[u32],
        first: Token,
        drawing: &mut Drawing,
    ) -> Result<(), OutOfMemory>
        ensures { OnOk result (made self.now drawing.new
            ≡ spec.put_after path.now first (made self.now drawing.old)) }
    {
        let at = place(self.alloc, path, &[], Side::After)?;
        drawing.put_passing(self.alloc, at, Happening::Passes, first.span)?;
        Ok(())
    }

    /// What is known of an expression's value.
    pub(crate) fn facts(&self, x: ExprId) -> Facts
        requires { x.0 < length (tables self.now).exprs }
        ensures { plain_facts (readings (tables self.now)) result ≡ facts (tree (tables self.now) x.0) }
    {
        self.program.linked().exprs.facts(x)
    }

    /// Draws an expression with this path.
    pub(crate) fn evaluate(
        &self,
        x: ExprId,
        path: &[u32],
        drawing: &mut Drawing,
    ) -> Result<(), OutOfMemory>
        requires { x.0 < length (tables self.now).exprs }
        ensures { OnOk result
            (Evaluates self.now (evaluation path.now (tree (tables self.now) x.0)) drawing.old drawing.new) }
    {
        let walk = Walk {
            alloc: self.alloc,
            program: self.program,
            orders: &[],
        };
        walk.draw(x, path, drawing)?;
        Ok(())
    }

    /// Draws the expression to which a step leads.
    pub(crate) fn evaluate_part(
        &self,
        x: ExprId,
        path: &[u32],
        step: u64,
        drawing: &mut Drawing,
    ) -> Result<(), OutOfMemory>
        requires { x.0 < length (tables self.now).exprs }
        ensures { OnOk result
            (Evaluates self.now (evaluation (path.now ++ step ∷ []) (tree (tables self.now) x.0)) drawing.old
            drawing.new) }
    {
        let inside = below(self.alloc, path, step)?;
        self.evaluate(x, inside.as_slice(), drawing)?;
        Ok(())
    }

    /// Draws the controlling expression to which a step leads, and its test, which leads to one of two places.
    #[tactic(auto, unfolding(crate::specs::DrawnStatements::decided_before))]
    pub(crate) fn decide_part(
        &self,
        x: ExprId,
        path: &[u32],
        step: u64,
        holds: Place,
        fails: Place,
        drawing: &mut Drawing,
    ) -> Result<(), OutOfMemory>
        requires { x.0 < length (tables self.now).exprs }
        ensures { OnOk result (made self.now drawing.new
            ≡ spec.decided_before (path.now ++ step ∷ []) (tree (tables self.now) x.0) (plain_place holds)
            (plain_place fails) (made self.now drawing.old)) }
    {
        let inside = below(self.alloc, path, step)?;
        let walk = Walk {
            alloc: self.alloc,
            program: self.program,
            orders: &[],
        };
        walk.decide(x, inside.as_slice(), holds, fails, drawing)?;
        Ok(())
    }

    /// Nothing yet, before a place.
    #[tactic(auto, unfolding(crate::specs::DrawnStatements::alone, ck_passages::specs::Points::drawn))]
    pub(crate) fn apart(&self, to: Place) -> Drawing
        ensures { made self.now result ≡ spec.alone (plain_place to) }
    {
        Drawing {
            to,
            points: Vec::new(self.alloc),
        }
    }

    /// Puts what was drawn apart before what is drawn.
    #[tactic(auto, unfolding(crate::specs::DrawnStatements::joined, ck_passages::specs::Points::drawn))]
    pub(crate) fn join(&self, earlier: Drawing, drawing: &mut Drawing) -> Result<(), OutOfMemory>
        ensures { OnOk result (made self.now drawing.new
            ≡ spec.joined (made self.now earlier) (made self.now drawing.old)) }
    {
        let Drawing { to, points } = earlier;
        let mut points = points;
        drawing.points.append(&mut points)?;
        drawing.to = to;
        Ok(())
    }
}
