//! Graphs and their readers.
ghost use Rattle.std.specs.Prelude.{◌≡◌, ◌<◌, length};
ghost use Rattle.ck_graph.specs.Flow.{point_at, function_at, point_count, function_count};
ghost use Rattle.ck_graph.specs.Faults.{IsSound};

use crate::points::{Edge, Parts, PointKind};
use ck_base::{FnId, PointId, Spot};
use std::marker::Model;

/// A flow graph without a fault (`checked` says which there are). It is seen as plain lists of points
/// and functions.
#[derive(Debug, Drop)]
pub struct Graph {
    pub(crate) parts: Parts,
}

impl Model for Graph {
    ghost use Rattle.ck_graph.specs.Flow.{Flow, flow_of};
    ghost use Rattle.ck_graph.specs.Faults.{IsSound};

    ghost Value = { Flow };

    ghost view = { λ g. flow_of g.parts };

    ghost invariant = { λ g. IsSound (flow_of g.parts) };
}

impl Graph {
    /// How many points there are.
    pub fn points(&self) -> u32
        ensures count { result ≡ point_count self.now }
        ensures sound { IsSound self.now }
    {
        self.parts.points.len() as u32
    }

    /// How many functions there are.
    pub fn functions(&self) -> u32
        ensures { result ≡ function_count self.now }
    {
        self.parts.functions.len() as u32
    }

    /// What happens at a point.
    pub fn kind(&self, point: PointId) -> &PointKind
        requires { point.0 < point_count self.now }
        ensures { result.now ≡ (point_at self.now point.0).kind }
    {
        &self.parts.point(point.0 as usize).kind
    }

    /// The function that a point is of.
    pub fn function(&self, point: PointId) -> FnId
        requires { point.0 < point_count self.now }
        ensures { result ≡ (point_at self.now point.0).function }
    {
        self.parts.point(point.0 as usize).function
    }

    /// A point's place in the text, if it has one.
    pub fn site(&self, point: PointId) -> &Spot
        requires { point.0 < point_count self.now }
        ensures { result.now ≡ (point_at self.now point.0).site }
    {
        &self.parts.point(point.0 as usize).site
    }

    /// The way from the function's body down to a point.
    pub fn path(&self, point: PointId) -> &[u32]
        requires { point.0 < point_count self.now }
        ensures { result.now ≡ (point_at self.now point.0).path }
    {
        &self.parts.point(point.0 as usize).path
    }

    /// The orders of the unsequenced operands round a point, the outermost first.
    pub fn order(&self, point: PointId) -> &[u8]
        requires { point.0 < point_count self.now }
        ensures { result.now ≡ (point_at self.now point.0).order }
    {
        &self.parts.point(point.0 as usize).order
    }

    /// Which of the points of its place a point is.
    pub fn side(&self, point: PointId) -> u8
        requires { point.0 < point_count self.now }
        ensures { result ≡ (point_at self.now point.0).side }
    {
        self.parts.point(point.0 as usize).side
    }

    /// The edges of a point, in order.
    pub fn edges(&self, point: PointId) -> &[Edge]
        requires { point.0 < point_count self.now }
        ensures { result.now ≡ (point_at self.now point.0).edges }
    {
        &self.parts.point(point.0 as usize).edges
    }

    /// The functions that a call point may enter.
    pub fn targets(&self, point: PointId) -> &[FnId]
        requires { point.0 < point_count self.now }
        ensures { result.now ≡ (point_at self.now point.0).targets }
    {
        &self.parts.point(point.0 as usize).targets
    }

    /// The point at which a function starts.
    pub fn first(&self, function: FnId) -> PointId
        requires { function.0 < function_count self.now }
        ensures { result ≡ (function_at self.now function.0).first }
    {
        self.parts.function(function.0 as usize).first
    }

    /// The point at which a function returns.
    pub fn exit(&self, function: FnId) -> PointId
        requires { function.0 < function_count self.now }
        ensures { result ≡ (function_at self.now function.0).exit }
    {
        self.parts.function(function.0 as usize).exit
    }
}
