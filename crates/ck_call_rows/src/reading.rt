//! The rows of the tables, by numbers that a project has.
ghost use Rattle.std.specs.Prelude.{◌≡◌, ◌<◌, true, length};
ghost use Rattle.ck_call_rows.specs.Walks.{tables};
ghost use Rattle.ck_tables.specs.ExprTable as exprs;
ghost use Rattle.ck_tables.specs.InitTable as inits;
ghost use Rattle.ck_tables.specs.Numbers as fit;
ghost use Rattle.ck_tables.specs.Numbers.{numbers};
ghost use Rattle.ck_tables.specs.Program.{declaration_of, with_initialisers};
ghost use Rattle.ck_tables.specs.StmtTable as stmts;

use crate::walk::Walk;
use ck_tables::{Declaration, DeclarationId, ExprId, ExprNode, InitId, InitNode, StmtId, StmtNode};

impl<'a> Walk<'a> {
    /// An expression.
    pub(crate) fn expression_node(&self, x: ExprId) -> &'a ExprNode
        requires { x.0 < length (tables self.now).exprs }
        ensures meaning { exprs.IsNode (tables self.now).exprs x.0 result.now }
        ensures fits { fit.expression_node_fits (numbers (tables self.now)) result.now ≡ true }
    {
        self.linked.exprs.node(x)
    }

    /// An initialiser.
    pub(crate) fn initialiser_node(&self, i: InitId) -> &'a InitNode
        requires { i.0 < length (tables self.now).inits }
        ensures meaning { inits.IsNode (tables self.now).inits i.0 result.now }
        ensures fits { fit.initialiser_node_fits (numbers (tables self.now)) result.now ≡ true }
    {
        self.linked.inits.node(i)
    }

    /// A declaration as it is written.
    pub(crate) fn declaration_row(&self, d: DeclarationId) -> &'a Declaration
        requires { d.0 < length (tables self.now).declarations.rows.items }
        ensures is { declaration_of (tables self.now) d.0
            ≡ stmts.plain_declaration (with_initialisers (tables self.now)) result.now }
        ensures fits { fit.declaration_row_fits (numbers (tables self.now)) result.now ≡ true }
    {
        self.linked.declarations.row(d.0)
    }

    /// A statement.
    pub(crate) fn statement_node(&self, s: StmtId) -> &'a StmtNode
        requires { s.0 < length (tables self.now).stmts }
        ensures meaning { stmts.IsNode (tables self.now).stmts s.0 result.now }
        ensures fits { fit.statement_node_fits (numbers (tables self.now)) result.now ≡ true }
    {
        self.linked.stmts.node(s)
    }
}
