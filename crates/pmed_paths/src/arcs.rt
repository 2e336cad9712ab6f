//! The edges of a network by the vertex that they start from.

ghost use Rattle.std.specs.Prelude.{◌≡◌, ◌+◌, ◌-◌, ◌<◌, ◌≤◌, ◌++◌, ◌∷◌, [], Some, length, replicate, IfOk, OnErr};
ghost use Rattle.pmed_paths.specs.Network.{IsNetwork};
ghost use Rattle.pmed_paths.specs.Arcs.{AreArcs, arc, with_arc};

use crate::network::Network;
use instance_store::NoMemory;
use std::alloc::Global;
use std::marker::Model;

/// A way along an edge: the place of the vertex that it leads to, counted from 0, and its cost in
/// millionths.
#[derive(Clone, Copy, Debug)]
pub(crate) struct Arc {
    pub(crate) to: u32,
    pub(crate) cost: u64,
}

/// The arcs from one vertex. A clause sees the list.
#[derive(Drop)]
pub(crate) struct ArcRow {
    arcs: Vec<Arc>,
}

impl Model for ArcRow {
    ghost use Rattle.std.specs.Prelude.{List};
    ghost use Rattle.pmed_paths.specs.declared.arcs.Arc.{Arc};

    ghost Value = { List Arc };

    ghost view = { λ a. a.arcs.items };
}

impl ArcRow {
    /// A row without arcs.
    fn new(alloc: Global) -> ArcRow
        ensures { result ≡ [] }
    {
        ArcRow {
            arcs: Vec::new(alloc),
        }
    }

    /// Puts an arc behind the others.
    fn push(&mut self, arc: Arc) -> Result<(), NoMemory>
        ensures { IfOk result (λ _. self.new ≡ self.old ++ arc ∷ []) }
    {
        self.arcs.push(arc)?;
        Ok(())
    }

    /// The arcs in order.
    #[inline(always)]
    pub(crate) fn arcs(&self) -> &[Arc]
        ensures { result.now ≡ self.now }
    {
        &self.arcs
    }
}

/// The arcs from each vertex. Each edge is two of them.
pub(crate) fn arcs_of(alloc: Global, net: &Network) -> Result<Vec<ArcRow>, NoMemory>
    ensures arcs { IfOk result (λ rows. AreArcs net.now rows.items) }
    ensures network { IsNetwork net.now }
{
    let mut rows = empty_rows(alloc, net.vertices())?;
    add_edges(&mut rows, net)?;
    Ok(rows)
}

/// Adds the arcs of all edges to rows without arcs.
fn add_edges(rows: &mut [ArcRow], net: &Network) -> Result<(), NoMemory>
    requires network { IsNetwork net.now }
    requires none { rows.old ≡ replicate net.now.vertices [] }
    ensures { IfOk result (λ _. AreArcs net.now rows.new) }
{
    let edges = net.edges();
    for (ends, cost) in edges {
        add_edge(rows, ends.0 - 1, ends.1 - 1, *cost)?;
    }
    Ok(())
}

/// A row without arcs for each vertex.
fn empty_rows(alloc: Global, vertices: u32) -> Result<Vec<ArcRow>, NoMemory>
    ensures { IfOk result (λ rows. rows.items ≡ replicate vertices []) }
{
    let mut rows = Vec::with_capacity(alloc, vertices as usize)?;
    for _ in 0..vertices {
        rows.push(ArcRow::new(alloc))?;
    }
    Ok(rows)
}

/// Adds the two arcs of an edge between the vertices at two places.
fn add_edge(rows: &mut [ArcRow], a: u32, b: u32, cost: u64) -> Result<(), NoMemory>
    requires first { a < length rows.old }
    requires second { b < length rows.old }
    ensures { IfOk result (λ _. rows.new ≡ with_arc (with_arc rows.old a (arc b cost)) b (arc a cost)) }
{
    add_arc(rows, a, Arc { to: b, cost })?;
    add_arc(rows, b, Arc { to: a, cost })
}

/// Adds an arc from the vertex at a place.
fn add_arc(rows: &mut [ArcRow], from: u32, arc: Arc) -> Result<(), NoMemory>
    requires { from < length rows.old }
    ensures { IfOk result (λ _. rows.new ≡ with_arc rows.old from arc) }
{
    rows[from as usize].push(arc)
}
