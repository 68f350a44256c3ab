//! The points of statements (6.8), from the last to the first.
ghost use Rattle.std.specs.Prelude.{◌≡◌, ◌<◌, [], ◌∷◌, ◌++◌, true, length, IfOk, OnOk};
ghost use Rattle.std.specs.List.{list_all};
ghost use Rattle.ck_bodies.specs.DrawnStatements as drawn;
ghost use Rattle.ck_bodies.specs.Jumps as spec;
ghost use Rattle.ck_bodies.specs.Walks.{tables, made, statement};
ghost use Rattle.ck_drafts.specs.Drafts.{plain_place};
ghost use Rattle.ck_passages.specs.Drawing.{draw};
ghost use Rattle.ck_passages.specs.Operands.{tree};
ghost use Rattle.ck_passages.specs.Points.{Drawn};
ghost use Rattle.ck_points.specs.Places as places;
ghost use Rattle.ck_prog.specs.TypedBodies as bodies;
ghost use Rattle.ck_tables.specs.Numbers as fit;
ghost use Rattle.ck_tables.specs.Numbers.{numbers};
ghost use Rattle.ck_tables.specs.Program.{name_of, body_readings};
ghost use Rattle.ck_tables.specs.StmtTable as table;

use crate::labels::Labels;
use crate::walk::BodyWalk;
use ck_base::{OutOfMemory, Token};
use ck_drafts::Place;
use ck_passages::{Drawing, below, copied};
use ck_tables::{ExprId, Item, Jumping, NameId, Start, StmtId, StmtNode};

/// Where the jumps in a statement lead (6.8.6).
#[derive(Clone, Copy)]
pub(crate) struct Jumps<'a> {
    pub broken: &'a Place,
    pub continued: &'a Place,
    pub returned: &'a Place,
    pub labels: &'a Labels,
}

/// The head of a `for` (6.8.5.3).
#[derive(Clone, Copy)]
struct ForHead {
    start: Start,
    test: Option<ExprId>,
    step: Option<ExprId>,
}

/// Statements that enclose no others.
impl<'a> BodyWalk<'a> {
    /// Draws an empty statement.
    fn empty(&self, first: Token, path: &[u32], drawing: &mut Drawing) -> Result<(), OutOfMemory>
        ensures { OnOk result (made self.now drawing.new
            ≡ drawn.put_before path.now first (drawn.put_after path.now first (made self.now drawing.old))) }
    {
        self.put_after(path, first, drawing)?;
        self.put_before(path, first, drawing)
    }

    /// Draws an expression statement.
    fn expression(
        &self,
        value: ExprId,
        path: &[u32],
        drawing: &mut Drawing,
    ) -> Result<(), OutOfMemory>
        requires { value.0 < length (tables self.now).exprs }
        ensures { OnOk result (made self.now drawing.new
            ≡ drawn.draw_expression path.now (tree (tables self.now) value.0) (made self.now drawing.old)) }
    {
        let first = self.facts(value).first;
        self.put_after(path, first, drawing)?;
        self.evaluate_part(value, path, 0, drawing)?;
        self.put_before(path, first, drawing)
    }

    /// Draws a jump to a place.
    fn jump(
        &self,
        keyword: Token,
        to: &Place,
        path: &[u32],
        drawing: &mut Drawing,
    ) -> Result<(), OutOfMemory>
        ensures { OnOk result (made self.now drawing.new
            ≡ drawn.put_before path.now keyword
            (drawn.turned (plain_place to.now) (drawn.put_after path.now keyword (made self.now drawing.old)))) }
    {
        self.put_after(path, keyword, drawing)?;
        let there = copied(self.alloc, to)?;
        self.turn(there, drawing);
        self.put_before(path, keyword, drawing)
    }

    /// Draws a `goto`.
    fn goto(
        &self,
        keyword: Token,
        name: NameId,
        jumps: &Jumps<'_>,
        path: &[u32],
        drawing: &mut Drawing,
    ) -> Result<(), OutOfMemory>
        requires known { name.0 < length (tables self.now).names }
        requires labels { spec.AreFound (tables self.now) jumps.now }
        ensures { OnOk result
            (spec.Draws self.now jumps.now path.now (bodies.Goto keyword (name_of (tables self.now) name.0))
            drawing.old drawing.new) }
    {
        let to = self.label_place(jumps.labels, name, path)?;
        self.jump(keyword, &to, path, drawing)?;
        Ok(())
    }

    /// Draws a `return` with a value.
    fn return_value(
        &self,
        keyword: Token,
        value: ExprId,
        to: &Place,
        path: &[u32],
        drawing: &mut Drawing,
    ) -> Result<(), OutOfMemory>
        requires { value.0 < length (tables self.now).exprs }
        ensures { OnOk result (made self.now drawing.new
            ≡ drawn.draw_return path.now keyword (tree (tables self.now) value.0) (plain_place to.now)
            (made self.now drawing.old)) }
    {
        self.put_after(path, keyword, drawing)?;
        let there = copied(self.alloc, to)?;
        self.turn(there, drawing);
        self.evaluate_part(value, path, 0, drawing)?;
        self.put_before(path, keyword, drawing)
    }

    /// Draws the test of a loop to which a step leads, apart. An absent one holds.
    fn test_apart(
        &self,
        test: Option<ExprId>,
        path: &[u32],
        step: u64,
        holds: Place,
        fails: Place,
    ) -> Result<Drawing, OutOfMemory>
        requires { fit.fits_if_any (fit.expression_fits (numbers (tables self.now))) test ≡ true }
        ensures entry { IfOk result (λ apart. (made self.now apart).to
            ≡ drawn.test_entry (path.now ++ step ∷ []) (table.plain_expression (body_readings (tables self.now)) test)
            (plain_place holds) (plain_place fails)) }
        ensures joined { (d : Drawn) → IfOk result (λ apart. drawn.joined (made self.now apart) d
            ≡ drawn.maybe_decided_before (path.now ++ step ∷ [])
            (table.plain_expression (body_readings (tables self.now)) test) (plain_place holds) (plain_place fails) d) }
    {
        let next = copied(self.alloc, &holds)?;
        let mut apart = self.apart(next);
        match test {
            None => Ok(apart),
            Some(x) => {
                self.decide_part(x, path, step, holds, fails, &mut apart)?;
                Ok(apart)
            }
        }
    }

    /// Draws the step of a `for`, apart. An absent one does nothing.
    fn step_apart(
        &self,
        step: Option<ExprId>,
        path: &[u32],
        next: Place,
    ) -> Result<Drawing, OutOfMemory>
        requires { fit.fits_if_any (fit.expression_fits (numbers (tables self.now))) step ≡ true }
        ensures entry { IfOk result (λ apart. (made self.now apart).to
            ≡ drawn.step_entry (path.now ++ 2 ∷ []) (table.plain_expression (body_readings (tables self.now)) step)
            (plain_place next)) }
        ensures joined { (d : Drawn) → IfOk result (λ apart. drawn.joined (made self.now apart) d
            ≡ draw [] (drawn.maybe_evaluation (path.now ++ 2 ∷ [])
            (table.plain_expression (body_readings (tables self.now)) step)) (drawn.turned (plain_place next) d)) }
    {
        let mut apart = self.apart(next);
        match step {
            None => Ok(apart),
            Some(x) => {
                self.evaluate_part(x, path, 2, &mut apart)?;
                Ok(apart)
            }
        }
    }

    /// Draws the start of a `for` with this path.
    fn start_part(
        &self,
        start: Start,
        path: &[u32],
        drawing: &mut Drawing,
    ) -> Result<(), OutOfMemory>
        requires { fit.start_fits (numbers (tables self.now)) start ≡ true }
        ensures { OnOk result (made self.now drawing.new
            ≡ drawn.draw_start (path.now ++ 0 ∷ []) (table.plain_start (body_readings (tables self.now)) start)
            (made self.now drawing.old)) }
    {
        let inside = below(self.alloc, path, 0)?;
        self.start(start, inside.as_slice(), drawing)?;
        Ok(())
    }
}

/// Statements that enclose others.
impl<'a> BodyWalk<'a> {
    /// Draws a statement with this path.
    #[cycle(statements)]
    #[tactic(auto, unfolding(ck_tables::specs::Numbers::statement_node_fits))]
    fn statement(
        &self,
        id: StmtId,
        jumps: &Jumps<'_>,
        path: &[u32],
        drawing: &mut Drawing,
    ) -> Result<(), OutOfMemory>
        requires known { id.0 < length (tables self.now).stmts }
        requires labels { spec.AreFound (tables self.now) jumps.now }
        ensures { OnOk result
            (spec.Draws self.now jumps.now path.now (statement (tables self.now) id.0) drawing.old drawing.new) }
    {
        let node = self.program.statement(id);
        match node {
            StmtNode::Block { first, items } => {
                let row = items.as_slice();
                self.block(*first, row, jumps, &*path, drawing)
            }
            StmtNode::Empty { first } => self.empty(*first, path, drawing),
            StmtNode::Expression { value } => self.expression(*value, path, drawing),
            StmtNode::If {
                keyword,
                test,
                controlled,
            } => self.if_only(*keyword, *test, *controlled, jumps, path, drawing),
            StmtNode::IfElse {
                keyword,
                test,
                controlled,
                otherwise,
            } => self.if_else(
                *keyword,
                *test,
                (*controlled, *otherwise),
                jumps,
                path,
                drawing,
            ),
            StmtNode::Switch {
                keyword,
                value,
                body,
            } => self.switch(*keyword, *value, *body, jumps, path, drawing),
            StmtNode::While {
                keyword,
                test,
                body,
            } => self.while_loop(*keyword, *test, *body, jumps, path, drawing),
            StmtNode::Do {
                keyword,
                body,
                test,
            } => self.do_loop(*keyword, *test, *body, jumps, path, drawing),
            StmtNode::For {
                keyword,
                start,
                test,
                step,
                body,
            } => {
                let head = ForHead {
                    start: *start,
                    test: *test,
                    step: *step,
                };
                self.for_loop(*keyword, head, *body, jumps, path, drawing)
            }
            StmtNode::Case {
                keyword,
                labelled,
                ..
            } => self.labelled(*keyword, *labelled, 1, jumps, path, drawing),
            StmtNode::Default {
                keyword,
                labelled,
                ..
            } => self.labelled(*keyword, *labelled, 0, jumps, path, drawing),
            StmtNode::Label { name, labelled, .. } => {
                self.labelled(*name, *labelled, 0, jumps, path, drawing)
            }
            StmtNode::Goto { keyword, text } => self.goto(*keyword, *text, jumps, path, drawing),
            StmtNode::Jump { keyword, to, .. } => match to {
                Jumping::Breaks => self.jump(*keyword, jumps.broken, path, drawing),
                Jumping::Continues => self.jump(*keyword, jumps.continued, path, drawing),
            },
            StmtNode::Return { keyword } => self.jump(*keyword, jumps.returned, path, drawing),
            StmtNode::ReturnValue { keyword, value, .. } => {
                self.return_value(*keyword, *value, jumps.returned, path, drawing)
            }
        }
    }

    /// Draws the statement to which a step leads.
    #[cycle(statements)]
    fn part(
        &self,
        id: StmtId,
        step: u64,
        jumps: &Jumps<'_>,
        path: &[u32],
        drawing: &mut Drawing,
    ) -> Result<(), OutOfMemory>
        requires known { id.0 < length (tables self.now).stmts }
        requires labels { spec.AreFound (tables self.now) jumps.now }
        ensures { OnOk result
            (spec.Draws self.now jumps.now (path.now ++ step ∷ []) (statement (tables self.now) id.0) drawing.old
            drawing.new) }
    {
        let inside = below(self.alloc, path, step)?;
        self.statement(id, jumps, inside.as_slice(), drawing)
    }

    /// Draws the item of this number of a block with this path.
    #[cycle(statements)]
    fn item(
        &self,
        item: Item,
        number: u64,
        jumps: &Jumps<'_>,
        path: &[u32],
        drawing: &mut Drawing,
    ) -> Result<(), OutOfMemory>
        requires known { fit.item_fits (numbers (tables self.now)) item ≡ true }
        requires labels { spec.AreFound (tables self.now) jumps.now }
        ensures { OnOk result
            (spec.DrawsItems self.now jumps.now path.now number
            (table.items_of (body_readings (tables self.now)) (statement (tables self.now)) (item ∷ [])) drawing.old
            drawing.new) }
    {
        match item {
            Item::Declaration(id) => {
                let inside = below(self.alloc, path, number)?;
                self.declaration(id, inside.as_slice(), drawing)
            }
            Item::Statement(id) => self.part(id, number, jumps, path, drawing),
        }
    }

    /// Draws the items of a block with this path, from the last to the first.
    #[cycle(statements)]
    pub(crate) fn items<'b>(
        &self,
        items: &'b [Item],
        jumps: &Jumps<'_>,
        path: &'b [u32],
        drawing: &mut Drawing,
    ) -> Result<(), OutOfMemory>
        requires known { list_all (fit.item_fits (numbers (tables self.now))) items.now ≡ true }
        requires labels { spec.AreFound (tables self.now) jumps.now }
        ensures { OnOk result
            (spec.DrawsItems self.now jumps.now path.now 0
            (table.items_of (body_readings (tables self.now)) (statement (tables self.now)) items.now) drawing.old
            drawing.new) }
    {
        let mut rest = items;
        'rest: while let Some(last) = rest.split_last() {
            let number = last.1.len() as u64;
            self.item(*last.0, number, jumps, path, drawing)?;
            rest = last.1;
        }
        Ok(())
    }

    /// Draws a block.
    #[cycle(statements)]
    fn block<'b>(
        &self,
        first: Token,
        items: &'b [Item],
        jumps: &Jumps<'_>,
        path: &'b [u32],
        drawing: &mut Drawing,
    ) -> Result<(), OutOfMemory>
        requires known { list_all (fit.item_fits (numbers (tables self.now))) items.now ≡ true }
        requires labels { spec.AreFound (tables self.now) jumps.now }
        ensures { OnOk result
            (spec.Draws self.now jumps.now path.now
            (bodies.Block first
            (table.items_of (body_readings (tables self.now)) (statement (tables self.now)) items.now)) drawing.old
            drawing.new) }
    {
        self.put_after(path, first, drawing)?;
        self.items(items, jumps, path, drawing)?;
        self.put_before(path, first, drawing)
    }

    /// Draws what is after `case`, `default` or a label.
    #[cycle(statements)]
    fn labelled(
        &self,
        keyword: Token,
        labelled: StmtId,
        step: u64,
        jumps: &Jumps<'_>,
        path: &[u32],
        drawing: &mut Drawing,
    ) -> Result<(), OutOfMemory>
        requires known { labelled.0 < length (tables self.now).stmts }
        requires labels { spec.AreFound (tables self.now) jumps.now }
        ensures { OnOk result (made self.now drawing.new
            ≡ drawn.put_before path.now keyword
            (drawn.draw_statement (spec.targets (tables self.now) jumps.now) (path.now ++ step ∷ [])
            (statement (tables self.now) labelled.0)
            (drawn.put_after path.now keyword (made self.now drawing.old)))) }
    {
        self.put_after(path, keyword, drawing)?;
        self.part(labelled, step, jumps, path, drawing)?;
        self.put_before(path, keyword, drawing)
    }

    /// Draws an `if` without `else`.
    #[cycle(statements)]
    fn if_only(
        &self,
        keyword: Token,
        test: ExprId,
        controlled: StmtId,
        jumps: &Jumps<'_>,
        path: &[u32],
        drawing: &mut Drawing,
    ) -> Result<(), OutOfMemory>
        requires test { test.0 < length (tables self.now).exprs }
        requires controlled { controlled.0 < length (tables self.now).stmts }
        requires labels { spec.AreFound (tables self.now) jumps.now }
        ensures { OnOk result
            (spec.Draws self.now jumps.now path.now
            (bodies.If keyword (tree (tables self.now) test.0) (statement (tables self.now) controlled.0)) drawing.old
            drawing.new) }
    {
        self.put_after(path, keyword, drawing)?;
        self.part(controlled, 1, jumps, path, drawing)?;
        let holds = self.before(path, 1)?;
        let fails = self.after(path)?;
        self.decide_part(test, path, 0, holds, fails, drawing)?;
        self.put_before(path, keyword, drawing)
    }

    /// Draws an `if` with `else`, whose statements are these two.
    #[cycle(statements)]
    fn if_else(
        &self,
        keyword: Token,
        test: ExprId,
        parts: (StmtId, StmtId),
        jumps: &Jumps<'_>,
        path: &[u32],
        drawing: &mut Drawing,
    ) -> Result<(), OutOfMemory>
        requires test { test.0 < length (tables self.now).exprs }
        requires controlled { parts.0.0 < length (tables self.now).stmts }
        requires otherwise { parts.1.0 < length (tables self.now).stmts }
        requires labels { spec.AreFound (tables self.now) jumps.now }
        ensures { OnOk result
            (spec.Draws self.now jumps.now path.now
            (bodies.IfElse keyword (tree (tables self.now) test.0) (statement (tables self.now) parts.0.0)
            (statement (tables self.now) parts.1.0)) drawing.old drawing.new) }
    {
        self.put_after(path, keyword, drawing)?;
        self.part(parts.1, 2, jumps, path, drawing)?;
        let past = self.after(path)?;
        self.turn(past, drawing);
        self.part(parts.0, 1, jumps, path, drawing)?;
        let holds = self.before(path, 1)?;
        let fails = self.before(path, 2)?;
        self.decide_part(test, path, 0, holds, fails, drawing)?;
        self.put_before(path, keyword, drawing)
    }

    /// Draws a `switch`.
    #[cycle(statements)]
    fn switch(
        &self,
        keyword: Token,
        value: ExprId,
        body: StmtId,
        jumps: &Jumps<'_>,
        path: &[u32],
        drawing: &mut Drawing,
    ) -> Result<(), OutOfMemory>
        requires value { value.0 < length (tables self.now).exprs }
        requires body { body.0 < length (tables self.now).stmts }
        requires labels { spec.AreFound (tables self.now) jumps.now }
        ensures { OnOk result
            (spec.Draws self.now jumps.now path.now
            (bodies.Switch keyword (tree (tables self.now) value.0) (statement (tables self.now) body.0)) drawing.old
            drawing.new) }
    {
        self.put_after(path, keyword, drawing)?;
        let broken = self.after(path)?;
        let inner = Jumps {
            broken: &broken,
            continued: jumps.continued,
            returned: jumps.returned,
            labels: jumps.labels,
        };
        self.part(body, 1, &inner, path, drawing)?;
        let past = self.after(path)?;
        self.switch_on(value, body, path, past, drawing)?;
        self.put_before(path, keyword, drawing)
    }

    /// Draws the statement of a loop, which goes on at a place.
    #[cycle(statements)]
    fn loop_body(
        &self,
        body: StmtId,
        step: u64,
        continued: &Place,
        jumps: &Jumps<'_>,
        path: &[u32],
        drawing: &mut Drawing,
    ) -> Result<(), OutOfMemory>
        requires body { body.0 < length (tables self.now).stmts }
        requires labels { spec.AreFound (tables self.now) jumps.now }
        ensures { OnOk result (made self.now drawing.new
            ≡ drawn.draw_statement
            (drawn.in_loop (spec.targets (tables self.now) jumps.now) (places.after path.now)
            (plain_place continued.now))
            (path.now ++ step ∷ []) (statement (tables self.now) body.0)
            (drawn.turned (plain_place continued.now) (made self.now drawing.old))) }
    {
        let past = self.after(path)?;
        let inner = Jumps {
            broken: &past,
            continued,
            returned: jumps.returned,
            labels: jumps.labels,
        };
        let next = copied(self.alloc, continued)?;
        self.turn(next, drawing);
        self.part(body, step, &inner, path, drawing)
    }

    /// Draws a `while`.
    #[cycle(statements)]
    fn while_loop(
        &self,
        keyword: Token,
        test: ExprId,
        body: StmtId,
        jumps: &Jumps<'_>,
        path: &[u32],
        drawing: &mut Drawing,
    ) -> Result<(), OutOfMemory>
        requires test { test.0 < length (tables self.now).exprs }
        requires body { body.0 < length (tables self.now).stmts }
        requires labels { spec.AreFound (tables self.now) jumps.now }
        ensures { OnOk result
            (spec.Draws self.now jumps.now path.now
            (bodies.While keyword (tree (tables self.now) test.0) (statement (tables self.now) body.0)) drawing.old
            drawing.new) }
    {
        self.put_after(path, keyword, drawing)?;
        let holds = self.before(path, 1)?;
        let fails = self.after(path)?;
        let again = self.test_apart(Some(test), path, 0, holds, fails)?;
        let continued = self.next(&again)?;
        self.loop_body(body, 1, &continued, jumps, path, drawing)?;
        self.join(again, drawing)?;
        self.put_before(path, keyword, drawing)
    }

    /// Draws a `do`.
    #[cycle(statements)]
    fn do_loop(
        &self,
        keyword: Token,
        test: ExprId,
        body: StmtId,
        jumps: &Jumps<'_>,
        path: &[u32],
        drawing: &mut Drawing,
    ) -> Result<(), OutOfMemory>
        requires test { test.0 < length (tables self.now).exprs }
        requires body { body.0 < length (tables self.now).stmts }
        requires labels { spec.AreFound (tables self.now) jumps.now }
        ensures { OnOk result
            (spec.Draws self.now jumps.now path.now
            (bodies.Do keyword (statement (tables self.now) body.0) (tree (tables self.now) test.0)) drawing.old
            drawing.new) }
    {
        self.put_after(path, keyword, drawing)?;
        let holds = self.before(path, 0)?;
        let fails = self.after(path)?;
        self.decide_part(test, path, 1, holds, fails, drawing)?;
        let continued = self.next(drawing)?;
        self.loop_body(body, 0, &continued, jumps, path, drawing)?;
        self.put_before(path, keyword, drawing)
    }

    /// Draws a `for`.
    #[cycle(statements)]
    fn for_loop(
        &self,
        keyword: Token,
        head: ForHead,
        body: StmtId,
        jumps: &Jumps<'_>,
        path: &[u32],
        drawing: &mut Drawing,
    ) -> Result<(), OutOfMemory>
        requires start { fit.start_fits (numbers (tables self.now)) head.start ≡ true }
        requires test { fit.fits_if_any (fit.expression_fits (numbers (tables self.now))) head.test ≡ true }
        requires step { fit.fits_if_any (fit.expression_fits (numbers (tables self.now))) head.step ≡ true }
        requires body { body.0 < length (tables self.now).stmts }
        requires labels { spec.AreFound (tables self.now) jumps.now }
        ensures { OnOk result
            (spec.Draws self.now jumps.now path.now
            (bodies.For keyword (table.plain_start (body_readings (tables self.now)) head.start)
            (table.plain_expression (body_readings (tables self.now)) head.test)
            (table.plain_expression (body_readings (tables self.now)) head.step)
            (statement (tables self.now) body.0)) drawing.old drawing.new) }
    {
        self.put_after(path, keyword, drawing)?;
        let holds = self.before(path, 3)?;
        let fails = self.after(path)?;
        let again = self.test_apart(head.test, path, 1, holds, fails)?;
        let next = self.next(&again)?;
        let stepped = self.step_apart(head.step, path, next)?;
        let continued = self.next(&stepped)?;
        self.loop_body(body, 3, &continued, jumps, path, drawing)?;
        self.join(stepped, drawing)?;
        self.join(again, drawing)?;
        self.start_part(head.start, path, drawing)?;
        self.put_before(path, keyword, drawing)
    }
}
