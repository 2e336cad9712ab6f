//! The least costs of walks from one vertex.

ghost use Rattle.std.specs.Prelude.{◌≡◌, ℕ, ◌+◌, ◌-◌, ◌<◌, ◌≤◌, None, length, slice_index_or, IfOk};
ghost use Rattle.pmed_paths.specs.Walks.{IsLeastWalk, least_costs};
ghost use Rattle.pmed_paths.specs.Arcs.{AreArcs};
ghost use Rattle.pmed_paths.specs.Labels.{cost_in};

use crate::arcs::{ArcRow, arcs_of};
use crate::labels::{NO_WALK, labels_from};
use crate::network::Network;
use instance_store::NoMemory;
use std::alloc::Global;
use std::marker::Model;

/// The least cost, in millionths, of a walk from one vertex to each vertex in order, and `None` where no
/// walk leads there. A clause sees the list.
#[derive(Drop)]
pub struct Distances {
    labels: Vec<u64>,
}

impl Model for Distances {
    ghost use Rattle.std.specs.Prelude.{List, ℕ, Option, map};
    ghost use Rattle.pmed_paths.specs.Labels.{cost_in};

    ghost Value = { List (Option ℕ) };

    ghost view = { λ a. map cost_in a.labels.items };
}

impl Distances {
    /// The least cost of a walk to a vertex, from 1 to the number of vertices. It takes no memory.
    pub fn to(&self, vertex: u32) -> Option<u64>
        requires first { 1 ≤ vertex }
        requires last { vertex ≤ length self.now }
        ensures { result ≡ slice_index_or self.now (vertex - 1) None }
    {
        self.at(vertex as usize - 1)
    }

    /// The number of vertices.
    pub(crate) fn len(&self) -> usize
        ensures { result ≡ length self.now }
    {
        self.labels.len()
    }

    /// The least cost of a walk to the vertex at a place.
    pub(crate) fn at(&self, place: usize) -> Option<u64>
        requires { place < length self.now }
        ensures { result ≡ slice_index_or self.now place None }
    {
        cost_in(self.labels[place])
    }
}

/// The cost that a label stands for.
#[inline(always)]
fn cost_in(label: u64) -> Option<u64>
    ensures { result ≡ cost_in label }
{
    if label == NO_WALK { None } else { Some(label) }
}

/// The least costs of walks from a vertex, whose number is from 1 to the number of vertices, to each
/// vertex. It fails only where memory runs out.
pub fn least_from(alloc: Global, net: &Network, vertex: u32) -> Result<Distances, NoMemory>
    requires first { 1 ≤ vertex }
    requires last { vertex ≤ net.now.vertices }
    ensures least { IfOk result (λ d. d ≡ least_costs net.now vertex) }
    ensures length { IfOk result (λ d. length d ≡ net.now.vertices) }
    ensures walks { IfOk result (λ d. (v : ℕ) → 1 ≤ v → v ≤ net.now.vertices → IsLeastWalk net.now vertex v (slice_index_or d (v - 1) None)) }
{
    let rows = arcs_of(alloc, net)?;
    distances_from(alloc, net, &rows, vertex - 1)
}

/// The same over arcs that are at hand, from the vertex at a place.
pub(crate) fn distances_from(
    alloc: Global,
    net: &Network,
    rows: &[ArcRow],
    source: u32,
) -> Result<Distances, NoMemory>
    requires source { source < net.now.vertices }
    requires rows { AreArcs net.now rows.now }
    ensures { IfOk result (λ d. d ≡ least_costs net.now (source + 1)) }
{
    let labels = labels_from(alloc, net, rows, source)?;
    Ok(Distances { labels })
}
