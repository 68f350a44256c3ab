//! The list of places that a search has found.
ghost use Rattle.std.specs.Prelude.{◌≡◌, ◌<◌, ◌≤◌, ◌-◌, ℕ, length, IfOk, OnOk, MatchBool};
ghost use Rattle.ck_graph.specs.Flow.{point_count};

use crate::states::is_same;
use ck_base::{OutOfMemory, PointId, State};
use ck_graph::Graph;
use std::alloc::Global;

/// Why a place is reached. Each number of a place is that of an earlier one.
#[derive(Clone, Copy)]
pub(crate) enum Reason {
    /// The root of this number enters its function here.
    AtRoot(u32),
    /// The place of the first number goes along its edge of the second number.
    ByEdge(u32, u32),
    /// The call at the place of this number enters the function that starts here.
    IntoCall(u32),
    /// The call at the place of the first number, through a function whose exit is the place of the
    /// second number.
    OverCall(u32, u32),
}

/// A point with the state in which its function was entered and the state there, and the reason.
#[derive(Clone, Copy)]
pub(crate) struct Place {
    pub(crate) point: PointId,
    pub(crate) from: State,
    pub(crate) to: State,
    pub(crate) reason: Reason,
    /// One more than the number of the place before it at the same point, and 0 for the first one.
    pub(crate) same: u32,
}

ghost use Rattle.ck_paths.specs.Found.{AreLinked, HasPlace, IsAt, Adds, last_at};

/// All places, in the order in which they were found, and for each point one more than the number of
/// its last one, or 0.
#[derive(Drop)]
pub(crate) struct Found {
    pub(crate) places: Vec<Place>,
    pub(crate) last: Vec<u32>,
}

impl Found {
    /// No place, for the points of this graph.
    pub(crate) fn new(alloc: Global, graph: &Graph) -> Result<Found, OutOfMemory>
        ensures linked { IfOk result (λ found. AreLinked found.places.items found.last.items) }
        ensures size { IfOk result (λ found. length found.last.items ≡ point_count graph.now) }
        ensures none { IfOk result (λ found. length found.places.items ≡ 0) }
    {
        let last = vec![in alloc; 0u32; graph.points() as usize]?;
        let places = Vec::new(alloc);
        Ok(Found { places, last })
    }

    /// Whether a pair of states is found at a point.
    pub(crate) fn has(&self, point: PointId, from: State, to: State) -> bool
        requires linked { AreLinked self.now.places.items self.now.last.items }
        requires point { point.0 < length self.now.last.items }
        ensures { let has = HasPlace self.now.places.items point.0 from to in MatchBool result has (has → ⊥) }
    {
        let mut link = self.last[point.0 as usize];
        'links: while link > 0 {
            let place = &self.places[link as usize - 1];
            if is_same(place.to, to) && is_same(place.from, from) {
                return true;
            }
            link = place.same;
        }
        false
    }

    /// Adds a pair at a point with its reason, if it isn't there. It is want of memory if a place's
    /// number wouldn't fit.
    pub(crate) fn add(
        &mut self,
        point: PointId,
        from: State,
        to: State,
        reason: Reason,
    ) -> Result<(), OutOfMemory>
        requires linked { AreLinked self.old.places.items self.old.last.items }
        requires point { point.0 < length self.old.last.items }
        ensures { OnOk
            result
            (Adds
            point
            from
            to
            reason
            self.old.places.items
            self.old.last.items
            self.new.places.items
            self.new.last.items) }
    {
        if self.has(point, from, to) {
            return Ok(());
        }
        let number = self.places.len();
        if number >= u32::MAX as usize {
            return Err(OutOfMemory);
        }
        let same = self.last[point.0 as usize];
        self.places.push(Place {
            point,
            from,
            to,
            reason,
            same,
        })?;
        self.last[point.0 as usize] = number as u32 + 1;
        Ok(())
    }

    /// The place of a link.
    pub(crate) fn linked(&self, link: u32) -> Place
        requires linked { AreLinked self.now.places.items self.now.last.items }
        requires some { 0 < link }
        requires within { link ≤ length self.now.places.items }
        ensures at { IsAt self.now.places.items (link - 1) result }
        ensures back { result.same < link }
    {
        self.places[link as usize - 1]
    }

    /// The link of a point's last place.
    pub(crate) fn last_link(&self, point: PointId) -> u32
        requires { point.0 < length self.now.last.items }
        ensures { result ≡ last_at self.now.last.items point.0 }
    {
        self.last[point.0 as usize]
    }
}
