//! The place that raises an alarm.
ghost use Rattle.std.specs.Prelude.{◌≡◌, ◌<◌, ℕ, Some, length, MatchBool};
ghost use Rattle.ck_graph.specs.Flow.{point_count};
ghost use Rattle.ck_graph.specs.Steps.{kind_at};
ghost use Rattle.ck_graph.specs.Forbidden.{alarm_in};
ghost use Rattle.ck_summary.specs.Alarms.{alarm_of};
ghost use Rattle.ck_paths.specs.Search.{IsReady};
ghost use Rattle.ck_paths.specs.Tracing.{IsRaisedAt};

use crate::found::{Found, Place};
use ck_base::Kind;
use ck_graph::{Graph, PointKind};
use ck_states::{Outcome, act};
use ck_summary::AlarmAt;

/// The number of the earliest place that raises an alarm.
pub(crate) fn raised_at(graph: &Graph, found: &Found, alarm: &AlarmAt) -> u32
    requires ready { IsReady graph.now found.now.places.items found.now.last.items }
    requires point { alarm.now.point.0 < length found.now.last.items }
    requires raised { (n : ℕ) × IsRaisedAt graph.now found.now.places.items (alarm_of alarm.now) n }
    ensures { IsRaisedAt graph.now found.now.places.items (alarm_of alarm.now) result }
{
    let mut earliest = 0;
    let mut link = found.last_link(alarm.point);
    'links: while link > 0 {
        let place = found.linked(link);
        if raises(graph, place, alarm.kind) {
            earliest = link - 1;
        }
        link = place.same;
    }
    earliest
}

/// Whether a place raises an alarm of this kind.
fn raises(graph: &Graph, place: Place, kind: Kind) -> bool
    requires { place.point.0 < point_count graph.now }
    ensures { let raised = alarm_in (kind_at graph.now place.point.0) place.to ≡ Some kind in
        MatchBool result raised (raised → ⊥) }
{
    match graph.kind(place.point) {
        PointKind::Act(op, _) => match act(*op, place.to) {
            Outcome::Alarm(raised) => is_kind(raised, kind),
            _ => false,
        },
        _ => false,
    }
}

/// Whether two kinds are one.
fn is_kind(a: Kind, b: Kind) -> bool
    ensures { MatchBool result (a ≡ b) (a ≡ b → ⊥) }
{
    match a {
        Kind::Sv(m) => match b {
            Kind::Sv(n) => m == n,
            _ => false,
        },
        Kind::Order => matches!(b, Kind::Order),
        Kind::P(m) => match b {
            Kind::P(n) => m == n,
            _ => false,
        },
    }
}
