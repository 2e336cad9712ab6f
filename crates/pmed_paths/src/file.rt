//! The parts of a file: its head, and its edges.

ghost use Rattle.std.specs.Prelude.{◌≡◌, ◌≤◌, length, IfOk};
ghost use Rattle.fixed_cost.specs.Reading.{Means, Reads, ReadsForm};
ghost use Rattle.pmed_paths.specs.Network.{AreCounts, AreEdges, IsLine};
ghost use Rattle.pmed_paths.specs.Pmed.{head_at, edge_at, edges_at, network_at, network_meaning};
ghost use Rattle.pmed_paths.specs.Stored.{edges_in, with_edge};

use crate::limits::MAX_EDGES;
use crate::network::Network;
use fixed_cost::{FileFault, FileKind, FormFault, MAX_INSTANCE_BYTES, WordReader};
use location_terms::MAX_SITES;
use std::alloc::{AllocError, Global};
use std::collections::BTreeMap;

/// The head of a file.
#[derive(Clone, Copy)]
struct Head {
    vertices: u32,
    edges: u32,
    medians: u32,
}

/// An edge as it stands in a file.
#[derive(Clone, Copy)]
struct Edge {
    a: u32,
    b: u32,
    cost: u64,
}

/// The network that a file of at most `MAX_INSTANCE_BYTES` means. Of several edges between the same two
/// vertices the last counts, and one from a vertex to itself is dropped. The fault is that of the first
/// word that has one.
#[tactic(auto, unfolding(crate::specs::Pmed::network_meaning))]
pub fn read_net(alloc: Global, bytes: &[u8]) -> Result<Network, FormFault>
    requires { length bytes.now ≤ MAX_INSTANCE_BYTES }
    ensures { Means (λ net. net) result (network_meaning bytes.now) }
{
    network(alloc, WordReader::new(bytes))
}

/// The whole file.
#[tactic(auto, unfolding(crate::specs::Pmed::network_at))]
fn network(alloc: Global, mut reader: WordReader<'_>) -> Result<Network, FormFault>
    ensures { Means (λ net. net) result (network_at reader.entry) }
{
    let head = read_head(&mut reader)?;
    let edges = read_edges(alloc, &mut reader, head.vertices, head.edges)?;
    reader.finish()?;
    Ok(Network::new(head.vertices, head.medians, edges))
}

/// The head of the file.
#[tactic(auto, unfolding(crate::specs::Pmed::head_at))]
fn read_head(reader: &mut WordReader<'_>) -> Result<Head, FileFault>
    ensures read { Reads (λ h. (h.vertices, h.edges, h.medians)) result reader.new (head_at reader.old) }
    ensures within { IfOk result (λ h. AreCounts h.vertices h.medians) }
{
    let vertices = reader.size(FileKind::BadSize, 1, MAX_SITES as u32)?;
    let edges = reader.size(FileKind::BadSize, 0, MAX_EDGES as u32)?;
    let medians = reader.size(FileKind::BadSize, 1, MAX_SITES as u32)?;
    Ok(Head {
        vertices,
        edges,
        medians,
    })
}

/// An edge between two of the vertices up to the last.
#[tactic(auto, unfolding(crate::specs::Pmed::edge_at))]
fn read_edge(reader: &mut WordReader<'_>, last: u32) -> Result<Edge, FileFault>
    ensures read { Reads (λ e. ((e.a, e.b), e.cost)) result reader.new (edge_at last reader.old) }
    ensures within { IfOk result (λ e. IsLine last e.a e.b e.cost) }
{
    let a = reader.size(FileKind::BadVertex, 1, last)?;
    let b = reader.size(FileKind::BadVertex, 1, last)?;
    let cost = reader.amount()?.micro();
    Ok(Edge { a, b, cost })
}

/// The edges of the file.
fn read_edges(
    alloc: Global,
    reader: &mut WordReader<'_>,
    last: u32,
    count: u32,
) -> Result<BTreeMap<(u32, u32), u64>, FormFault>
    ensures read { ReadsForm edges_in result reader.new (edges_at last count reader.old) }
    ensures within { IfOk result (λ edges. AreEdges last (edges_in edges)) }
{
    let mut edges = BTreeMap::new(alloc);
    for _ in 0..count {
        let edge = read_edge(reader, last)?;
        put(&mut edges, edge.a, edge.b, edge.cost)?;
    }
    Ok(edges)
}

/// Puts an edge into the map, in the place of an earlier one between the same two vertices. One from a
/// vertex to itself is dropped.
fn put(edges: &mut BTreeMap<(u32, u32), u64>, a: u32, b: u32, cost: u64) -> Result<(), AllocError>
    ensures { IfOk result (λ _. edges_in edges.new ≡ with_edge (edges_in edges.old) a b cost) }
{
    let ends = (a.min(b), a.max(b));
    if a == b {
        return Ok(());
    }
    edges.insert(ends, cost)?;
    Ok(())
}
