//! Points with their edges, made from the last to the first.
ghost use Rattle.std.specs.Prelude.{◌≡◌, [], ◌∷◌, ◌++◌, List, map, IfOk, OnOk};
ghost use Rattle.ck_drafts.specs.Drafts.{plain_place, plain_edge, plain_side};
ghost use Rattle.ck_graph.specs.declared.points.Label.TheVariants.{Plain, Order};
ghost use Rattle.ck_passages.specs.Drawing as spec;
ghost use Rattle.ck_passages.specs.Points.{drawn, plain_happening, declared_at};
ghost use Rattle.ck_points.specs.Places as places;
ghost use Rattle.ck_tables.specs.declared.program.Linked.{Linked as Tables};

use ck_base::Span;
use ck_drafts::{DraftEdge, Place, Side};
use ck_graph::Label;
use ck_tables::EntryId;
use std::alloc::{AllocError, Global};
use std::mem;

/// What happens at a point.
#[derive(Clone, Copy)]
pub enum Happening {
    /// One of its edges is taken.
    Passes,
    /// A function is called, by its name where one is given.
    Calls(Option<EntryId>),
    /// A function that keeps the kernel's status is entered.
    EntersPair,
    /// A function that keeps the kernel's status is left.
    LeavesPair,
    /// The function returns.
    Ends,
}

/// A point with its edges, in the order of their labels.
#[derive(Drop)]
pub struct PassagePoint {
    /// Its place in the function's tree.
    pub at: Place,
    /// What happens there.
    pub happening: Happening,
    /// The bytes of its first token.
    pub site: Span,
    /// Where it leads.
    pub edges: Vec<DraftEdge>,
}

/// Points that are made from the last to the first.
#[derive(Drop)]
pub struct Drawing {
    /// The place that comes next.
    pub to: Place,
    /// All points after it, the last one first.
    pub points: Vec<PassagePoint>,
}

/// Copies of operands in their orders: edges to them, which are made from the last to the first, and what comes after
/// each of them.
#[derive(Drop)]
pub struct Copies {
    /// The place that comes after the operands.
    pub to: Place,
    /// An edge for each copy.
    pub edges: Vec<DraftEdge>,
}

/// A list with one element more.
pub(crate) fn with_last<T: Copy + Drop>(
    alloc: Global,
    items: &[T],
    last: T,
) -> Result<Vec<T>, AllocError>
    ensures { IfOk result (λ v. v.items ≡ items.now ++ last ∷ []) }
{
    let mut longer = Vec::from_slice(alloc, items)?;
    longer.push(last)?;
    Ok(longer)
}

/// A place.
pub fn place(alloc: Global, path: &[u32], orders: &[u8], side: Side) -> Result<Place, AllocError>
    ensures { IfOk result (λ p. plain_place p ≡ places.place path.now orders.now (plain_side side)) }
{
    Ok(Place {
        path: Vec::from_slice(alloc, path)?,
        orders: Vec::from_slice(alloc, orders)?,
        side,
    })
}

/// The same place.
pub fn copied(alloc: Global, at: &Place) -> Result<Place, AllocError>
    ensures { IfOk result (λ p. plain_place p ≡ plain_place at.now) }
{
    place(alloc, at.path.as_slice(), at.orders.as_slice(), at.side)
}

/// One plain edge.
pub fn one_edge(alloc: Global, to: Place) -> Result<Vec<DraftEdge>, AllocError>
    ensures { IfOk result (λ v. map plain_edge v.items ≡ spec.edge_to Plain (plain_place to) ∷ []) }
{
    let mut edges = Vec::new(alloc);
    edges.push(DraftEdge {
        label: Label::Plain,
        to,
    })?;
    Ok(edges)
}

/// No copies of operands, after which comes what comes next.
#[tactic(auto, unfolding(crate::specs::Points::drawn))]
pub(crate) fn no_copies(alloc: Global, drawing: &Drawing) -> Result<Copies, AllocError>
    ensures edges { IfOk result (λ copies. copies.edges.items ≡ []) }
    ensures to { (l : Tables) → IfOk result (λ copies. plain_place copies.to ≡ (drawn l drawing.now).to) }
{
    Ok(Copies {
        to: copied(alloc, &drawing.to)?,
        edges: Vec::new(alloc),
    })
}

impl Copies {
    /// Puts the edge to the copy in an order of this number before the others.
    pub(crate) fn put_first(&mut self, number: u8, to: Place) -> Result<(), AllocError>
        ensures edges { OnOk result (map plain_edge self.new.edges.items
            ≡ spec.edge_to (Order number) (plain_place to) ∷ map plain_edge self.old.edges.items) }
        ensures to { self.new.to ≡ self.old.to }
    {
        let label = Label::Order(number);
        self.edges.insert(0, DraftEdge { label, to })?;
        Ok(())
    }
}

impl Drawing {
    /// The place that comes next.
    #[tactic(auto, unfolding(crate::specs::Points::drawn))]
    pub fn next(&self, alloc: Global) -> Result<Place, AllocError>
        ensures { (l : Tables) → IfOk result (λ p. plain_place p ≡ (drawn l self.now).to) }
    {
        let to = copied(alloc, &self.to)?;
        Ok(to)
    }

    /// Puts a point, which is entered next.
    #[tactic(auto, unfolding(crate::specs::Points::drawn))]
    pub fn put(
        &mut self,
        alloc: Global,
        at: Place,
        happening: Happening,
        site: Span,
        edges: Vec<DraftEdge>,
    ) -> Result<(), AllocError>
        ensures { (l : Tables) → OnOk result (drawn l self.new
            ≡ spec.put (plain_place at) (plain_happening l happening) site (map plain_edge edges.items)
            (drawn l self.old).points) }
    {
        self.to = copied(alloc, &at)?;
        self.points.push(PassagePoint {
            at,
            happening,
            site,
            edges,
        })?;
        Ok(())
    }

    /// Puts a point that leads to what was next.
    #[tactic(auto, unfolding(crate::specs::Points::drawn))]
    pub fn put_passing(
        &mut self,
        alloc: Global,
        at: Place,
        happening: Happening,
        site: Span,
    ) -> Result<(), AllocError>
        ensures { (l : Tables) → OnOk result (drawn l self.new
            ≡ spec.put_passing (plain_place at) (plain_happening l happening) site (drawn l self.old)) }
    {
        let to = copied(alloc, &self.to)?;
        let edges = one_edge(alloc, to)?;
        self.put(alloc, at, happening, site, edges)?;
        Ok(())
    }

    /// Puts a call: the points before and after it.
    pub(crate) fn put_call(
        &mut self,
        alloc: Global,
        path: &[u32],
        orders: &[u8],
        function: Option<EntryId>,
        site: Span,
    ) -> Result<(), AllocError>
        ensures { (l : Tables) → OnOk result (drawn l self.new
            ≡ spec.put_call path.now orders.now (declared_at l function) site (drawn l self.old)) }
    {
        let after = place(alloc, path, orders, Side::After)?;
        self.put_passing(alloc, after, Happening::Passes, site)?;
        let before = place(alloc, path, orders, Side::Before)?;
        self.put_passing(alloc, before, Happening::Calls(function), site)
    }

    /// Puts the point in which the ways of a choice meet.
    pub(crate) fn put_meeting(
        &mut self,
        alloc: Global,
        path: &[u32],
        orders: &[u8],
        site: Span,
    ) -> Result<(), AllocError>
        ensures { (l : Tables) → OnOk result (drawn l self.new
            ≡ spec.put_meeting path.now orders.now site (drawn l self.old)) }
    {
        let after = place(alloc, path, orders, Side::After)?;
        self.put_passing(alloc, after, Happening::Passes, site)
    }

    /// Puts the point where an order is taken.
    pub(crate) fn put_split(
        &mut self,
        alloc: Global,
        path: &[u32],
        orders: &[u8],
        site: Span,
        edges: Vec<DraftEdge>,
    ) -> Result<(), AllocError>
        ensures { (l : Tables) → OnOk result (drawn l self.new
            ≡ spec.put_split path.now orders.now site (record {
              edges = map plain_edge edges.items;
              points =
                  (drawn l self.old).points;
            })) }
    {
        let at = place(alloc, path, orders, Side::Split)?;
        self.put(alloc, at, Happening::Passes, site, edges)
    }

    /// Goes on to another place, and gives the one before.
    #[tactic(auto, unfolding(crate::specs::Points::drawn))]
    pub fn turn_to(&mut self, to: Place) -> Place
        ensures drawn { (l : Tables) → drawn l self.new ≡ spec.going_to (plain_place to) (drawn l self.old) }
        ensures before { (l : Tables) → plain_place result ≡ (drawn l self.old).to }
    {
        mem::replace(&mut self.to, to)
    }
}
