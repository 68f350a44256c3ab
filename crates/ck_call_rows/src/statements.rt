//! The calls of statements (6.8).
ghost use Rattle.std.specs.Prelude.{◌≡◌, ◌<◌, ◌∷◌, ◌++◌, [], true, length, OnOk};
ghost use Rattle.std.specs.List.{list_all};
ghost use Rattle.ck_call_rows.specs.Walks as spec;
ghost use Rattle.ck_call_rows.specs.Walks.{tables, tree, statement, path_of};
ghost use Rattle.ck_prog.specs.Calls as calls;
ghost use Rattle.ck_prog.specs.Paths as part;
ghost use Rattle.ck_prog.specs.Paths.{below};
ghost use Rattle.ck_tables.specs.Numbers as fit;
ghost use Rattle.ck_tables.specs.Numbers.{numbers};
ghost use Rattle.ck_tables.specs.Program.{body_readings};
ghost use Rattle.ck_tables.specs.StmtTable as table;

use crate::trail::Trail;
use crate::walk::Walk;
use ck_base::OutOfMemory;
use ck_tables::{CallInfo, ExprId, Item, Rows, Start, StmtId, StmtNode};

impl Walk<'_> {
    /// Adds the calls of the expression to which a step leads, if there is one.
    fn maybe<'b>(
        &self,
        x: Option<ExprId>,
        step: u64,
        path: &'b Trail<'b>,
        rows: &mut Rows<CallInfo>,
    ) -> Result<(), OutOfMemory>
        requires { fit.fits_if_any (fit.expression_fits (numbers (tables self.now))) x ≡ true }
        ensures { OnOk result (spec.Adds self.now rows.old.rows.items rows.new.rows.items
            (calls.calls_in_maybe (path_of path.now ++ step ∷ [])
            (table.plain_expression (body_readings (tables self.now)) x))) }
    {
        match x {
            None => Ok(()),
            Some(there) => self.operand(there, step, path, rows),
        }
    }

    /// Adds the calls of a statement with this path.
    #[cycle(statements)]
    #[tactic(auto, unfolding(ck_tables::specs::Numbers::statement_node_fits))]
    fn statement<'b>(
        &self,
        id: StmtId,
        path: &'b Trail<'b>,
        rows: &mut Rows<CallInfo>,
    ) -> Result<(), OutOfMemory>
        requires { id.0 < length (tables self.now).stmts }
        ensures { OnOk result (spec.Adds self.now rows.old.rows.items rows.new.rows.items
            (calls.calls_in_statement (path_of path.now) (statement (tables self.now) id.0))) }
    {
        match self.statement_node(id) {
            StmtNode::Block { items, .. } => self.items(items.as_slice(), path, rows),
            StmtNode::Empty { .. } => Ok(()),
            StmtNode::Expression { value } => self.operand(*value, 0, path, rows),
            StmtNode::If {
                test,
                controlled,
                ..
            } => self.controlled(*test, *controlled, path, rows),
            StmtNode::IfElse {
                test,
                controlled,
                otherwise,
                ..
            } => self.if_else(*test, *controlled, *otherwise, path, rows),
            StmtNode::Switch { value, body, .. } => self.controlled(*value, *body, path, rows),
            StmtNode::While { test, body, .. } => self.controlled(*test, *body, path, rows),
            StmtNode::Do { body, test, .. } => self.do_loop(*body, *test, path, rows),
            StmtNode::For {
                start,
                test,
                step,
                body,
                ..
            } => self.for_loop(*start, *test, *step, *body, path, rows),
            StmtNode::Case { labelled, .. } => self.inner(*labelled, 1, path, rows),
            StmtNode::Default { labelled, .. } => self.inner(*labelled, 0, path, rows),
            StmtNode::Label { labelled, .. } => self.inner(*labelled, 0, path, rows),
            StmtNode::Goto { .. } => Ok(()),
            StmtNode::Jump { .. } => Ok(()),
            StmtNode::Return { .. } => Ok(()),
            StmtNode::ReturnValue { value, .. } => self.operand(*value, 0, path, rows),
        }
    }

    /// Adds the calls of the statement to which a step leads.
    #[cycle(statements)]
    fn inner<'b>(
        &self,
        id: StmtId,
        step: u64,
        path: &'b Trail<'b>,
        rows: &mut Rows<CallInfo>,
    ) -> Result<(), OutOfMemory>
        requires { id.0 < length (tables self.now).stmts }
        ensures { OnOk result (spec.Adds self.now rows.old.rows.items rows.new.rows.items
            (calls.calls_in_statement (path_of path.now ++ step ∷ []) (statement (tables self.now) id.0))) }
    {
        let inside = path.below(step);
        self.statement(id, &inside, rows)
    }

    /// Adds the calls of a controlling expression and of the statement under it.
    #[cycle(statements)]
    fn controlled<'b>(
        &self,
        test: ExprId,
        id: StmtId,
        path: &'b Trail<'b>,
        rows: &mut Rows<CallInfo>,
    ) -> Result<(), OutOfMemory>
        requires test { test.0 < length (tables self.now).exprs }
        requires statement { id.0 < length (tables self.now).stmts }
        ensures { OnOk result (spec.Adds self.now rows.old.rows.items rows.new.rows.items
            (calls.calls_in (below (path_of path.now) part.Controlling) (tree (tables self.now) test.0)
            ++ calls.calls_in_statement (below (path_of path.now) part.Controlled)
            (statement (tables self.now) id.0))) }
    {
        self.operand(test, 0, path, rows)?;
        self.inner(id, 1, path, rows)
    }

    /// Adds the calls of an `if` with an `else`.
    #[cycle(statements)]
    fn if_else<'b>(
        &self,
        test: ExprId,
        first: StmtId,
        second: StmtId,
        path: &'b Trail<'b>,
        rows: &mut Rows<CallInfo>,
    ) -> Result<(), OutOfMemory>
        requires test { test.0 < length (tables self.now).exprs }
        requires first { first.0 < length (tables self.now).stmts }
        requires second { second.0 < length (tables self.now).stmts }
        ensures { OnOk result (spec.Adds self.now rows.old.rows.items rows.new.rows.items
            (calls.calls_in (below (path_of path.now) part.Controlling) (tree (tables self.now) test.0)
            ++ (calls.calls_in_statement (below (path_of path.now) part.Controlled)
            (statement (tables self.now) first.0)
            ++ calls.calls_in_statement (below (path_of path.now) part.Otherwise)
            (statement (tables self.now) second.0)))) }
    {
        self.operand(test, 0, path, rows)?;
        self.inner(first, 1, path, rows)?;
        self.inner(second, 2, path, rows)
    }

    /// Adds the calls of a `do`.
    #[cycle(statements)]
    fn do_loop<'b>(
        &self,
        body: StmtId,
        test: ExprId,
        path: &'b Trail<'b>,
        rows: &mut Rows<CallInfo>,
    ) -> Result<(), OutOfMemory>
        requires body { body.0 < length (tables self.now).stmts }
        requires test { test.0 < length (tables self.now).exprs }
        ensures { OnOk result (spec.Adds self.now rows.old.rows.items rows.new.rows.items
            (calls.calls_in_statement (below (path_of path.now) part.DoBody) (statement (tables self.now) body.0)
            ++ calls.calls_in (below (path_of path.now) part.DoTest) (tree (tables self.now) test.0))) }
    {
        self.inner(body, 0, path, rows)?;
        self.operand(test, 1, path, rows)
    }

    /// Adds the calls of a `for`, in the order in which its parts are written.
    #[cycle(statements)]
    fn for_loop<'b>(
        &self,
        start: Start,
        test: Option<ExprId>,
        step: Option<ExprId>,
        body: StmtId,
        path: &'b Trail<'b>,
        rows: &mut Rows<CallInfo>,
    ) -> Result<(), OutOfMemory>
        requires start { fit.start_fits (numbers (tables self.now)) start ≡ true }
        requires test { fit.fits_if_any (fit.expression_fits (numbers (tables self.now))) test ≡ true }
        requires step { fit.fits_if_any (fit.expression_fits (numbers (tables self.now))) step ≡ true }
        requires body { body.0 < length (tables self.now).stmts }
        ensures { OnOk result (spec.Adds self.now rows.old.rows.items rows.new.rows.items
            (calls.calls_in_start (below (path_of path.now) part.ForStart)
            (table.plain_start (body_readings (tables self.now)) start)
            ++ (calls.calls_in_maybe (below (path_of path.now) part.ForTest)
            (table.plain_expression (body_readings (tables self.now)) test)
            ++ (calls.calls_in_maybe (below (path_of path.now) part.ForStep)
            (table.plain_expression (body_readings (tables self.now)) step)
            ++ calls.calls_in_statement (below (path_of path.now) part.ForBody)
            (statement (tables self.now) body.0))))) }
    {
        let inside = path.below(0);
        self.start(start, &inside, rows)?;
        self.maybe(test, 1, path, rows)?;
        self.maybe(step, 2, path, rows)?;
        self.inner(body, 3, path, rows)
    }

    /// Adds the calls of the item to which a step leads.
    #[cycle(statements)]
    fn item<'b>(
        &self,
        item: Item,
        step: u64,
        path: &'b Trail<'b>,
        rows: &mut Rows<CallInfo>,
    ) -> Result<(), OutOfMemory>
        requires { fit.item_fits (numbers (tables self.now)) item ≡ true }
        ensures { OnOk result (spec.Adds self.now rows.old.rows.items rows.new.rows.items
            (spec.calls_of_item (tables self.now) (path_of path.now ++ step ∷ []) item)) }
    {
        match item {
            Item::Declaration(d) => {
                let inside = path.below(step);
                self.declaration(d, &inside, rows)
            }
            Item::Statement(s) => self.inner(s, step, path, rows),
        }
    }

    /// Adds the calls of the items of a block with this path.
    #[cycle(statements)]
    pub(crate) fn items<'b>(
        &self,
        items: &[Item],
        path: &'b Trail<'b>,
        rows: &mut Rows<CallInfo>,
    ) -> Result<(), OutOfMemory>
        requires { list_all (fit.item_fits (numbers (tables self.now))) items.now ≡ true }
        ensures { OnOk result (spec.Adds self.now rows.old.rows.items rows.new.rows.items
            (calls.calls_in_items (path_of path.now) 0
            (table.items_of (body_readings (tables self.now)) (statement (tables self.now)) items.now))) }
    {
        'each: for (number, item) in items.iter().enumerate() {
            self.item(*item, number as u64, path, rows)?;
        }
        Ok(())
    }
}
