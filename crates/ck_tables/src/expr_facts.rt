//! What is known of an expression of the table.
ghost use Rattle.std.specs.Prelude.{◌≡◌, ◌<◌, length};
ghost use Rattle.ck_tables.specs.ExprFacts as spec;

use crate::exprs::{ExprId, ExprNode, Exprs, Step};
use crate::facts::Facts;

/// Where the facts of an expression are.
#[derive(Clone, Copy)]
pub(crate) enum FactsOf {
    /// these
    Own(Facts),
    /// those of an expression that it names
    Named(ExprId),
}

impl Step {
    /// The value of the row up to the suffix.
    pub fn facts(&self) -> Facts
        ensures { result ≡ spec.step_facts self.now }
    {
        match self {
            Step::Index { facts, .. } => *facts,
            Step::Call { facts, .. } => *facts,
            Step::Access { facts, .. } => *facts,
            Step::PostIncrement { facts, .. } => *facts,
        }
    }
}

/// Where a node's facts are: a chain's with its last link, a row of suffixes' with its last suffix.
#[tactic(auto, using(crate::proofs::FactsLemmas::telling))]
fn facts_of(node: &ExprNode) -> FactsOf
    ensures { spec.TellsFacts node.now result }
{
    match node {
        ExprNode::Name { facts, .. } => FactsOf::Own(*facts),
        ExprNode::Constant { facts } => FactsOf::Own(*facts),
        ExprNode::Strings { facts, .. } => FactsOf::Own(*facts),
        ExprNode::Paren { facts, .. } => FactsOf::Own(*facts),
        ExprNode::Postfix { primary, steps } => match steps.last() {
            Some(step) => FactsOf::Own(step.facts()),
            None => FactsOf::Named(*primary),
        },
        ExprNode::Unary { facts, .. } => FactsOf::Own(*facts),
        ExprNode::SizeofType { facts, .. } => FactsOf::Own(*facts),
        ExprNode::Cast { facts, .. } => FactsOf::Own(*facts),
        ExprNode::Chain { first, links } => match links.as_slice().last() {
            Some(link) => FactsOf::Own(link.facts),
            None => FactsOf::Named(*first),
        },
        ExprNode::Conditional { facts, .. } => FactsOf::Own(*facts),
        ExprNode::Assignment { facts, .. } => FactsOf::Own(*facts),
    }
}

impl Exprs {
    /// What is known of an expression's value.
    pub fn facts(&self, id: ExprId) -> Facts
        requires { id.0 < length self.now }
        ensures { spec.HasFacts self.now id.0 result }
    {
        match facts_of(self.node(id)) {
            FactsOf::Own(facts) => facts,
            FactsOf::Named(inner) => self.facts(inner),
        }
    }
}
