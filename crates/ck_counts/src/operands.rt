//! What of operands bears on how many points their operator has.
ghost use Rattle.std.specs.Prelude.{◌≡◌, ℕ, List, [], ◌∷◌};
ghost use Rattle.ck_counts.specs.Extents.{Extent, extent, enclosing, operator_points, unsequenced_points};
ghost use Rattle.ck_counts.specs.Weights.{Weighs, IsWeighed, AreTogether};

use crate::weights::Weight;
use ck_prog::Operator;

/// A value: whether a call is evaluated with it, and how many points are.
#[derive(Clone, Copy)]
pub(crate) struct Weighed {
    pub(crate) holds_call: bool,
    pub(crate) points: Weight,
}

impl Weighed {
    /// A value that is evaluated at once.
    pub(crate) fn at_once(holds_call: bool) -> Weighed
        ensures { IsWeighed result (extent holds_call 0) }
    {
        Weighed {
            holds_call,
            points: Weight::of(0),
        }
    }

    /// The value of an operator over operands with these points: without calls it is evaluated at once.
    pub(crate) fn over(holds_call: bool, inside: Weight) -> Weighed
        ensures { (n : ℕ) → Weighs inside.0 n → IsWeighed result (enclosing holds_call n) }
    {
        if !holds_call {
            return Weighed::at_once(false);
        }
        Weighed {
            holds_call: true,
            points: inside,
        }
    }
}

/// Operands whose order is open: how many hold calls, where all above three are the same, and the points of all.
#[derive(Clone, Copy)]
pub(crate) struct Together {
    pub(crate) calls: u8,
    pub(crate) points: Weight,
}

impl Together {
    /// No operands.
    pub(crate) fn none() -> Together
        ensures { AreTogether result [] }
    {
        Together {
            calls: 0,
            points: Weight::of(0),
        }
    }

    /// An operand more.
    pub(crate) fn with(self, operand: Weighed) -> Together
        ensures { (v : Extent) (vs : List Extent) → IsWeighed operand v → AreTogether self vs →
            AreTogether result (v ∷ vs) }
    {
        let calls = if operand.holds_call {
            self.calls.saturating_add(1).min(4)
        } else {
            self.calls
        };
        Together {
            calls,
            points: operand.points.and(self.points),
        }
    }

    /// The points of all of their orders.
    pub(crate) fn in_orders(self) -> Weight
        ensures { (vs : List Extent) → AreTogether self vs → Weighs result.0 (unsequenced_points vs) }
    {
        self.points.in_orders(self.calls)
    }
}

/// The points of two operands whose order is open.
pub(crate) fn two_in_orders(left: Weighed, right: Weighed) -> Weight
    ensures { (v w : Extent) → IsWeighed left v → IsWeighed right w →
        Weighs result.0 (unsequenced_points (v ∷ w ∷ [])) }
{
    Together::none().with(right).with(left).in_orders()
}

/// The points of the operands of an operator of a chain.
pub(crate) fn operator_weight(operator: Operator, left: Weighed, right: Weighed) -> Weight
    ensures { (v w : Extent) → IsWeighed left v → IsWeighed right w →
        Weighs result.0 (operator_points operator v w) }
{
    let both = left.points.and(right.points);
    match operator {
        Operator::And => Weight::of(2).and(both),
        Operator::Or => Weight::of(2).and(both),
        Operator::Comma => both,
        Operator::Binary(_) => two_in_orders(left, right),
    }
}
