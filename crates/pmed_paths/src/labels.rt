//! Cheapest walks by labels: Dijkstra, Numerische Mathematik 1 (1959).

ghost use Rattle.std.specs.Prelude.{◌≡◌, ◌+◌, ◌<◌, ◌∷◌, [], length, map, replicate, All, IfOk, IfSome, IfNone, IsPermutation};
ghost use Rattle.pmed_paths.specs.Network.{IsNetwork};
ghost use Rattle.pmed_paths.specs.Walks.{least_costs};
ghost use Rattle.pmed_paths.specs.Arcs.{arcs_from, AreArcs, AreInside};
ghost use Rattle.pmed_paths.specs.Labels.{cost_in, offers, IsOffered, IsGone, GoesOn};

use crate::arcs::{Arc, ArcRow};
use crate::network::Network;
use instance_store::NoMemory;
use std::alloc::Global;
use std::cmp::Reverse;
use std::collections::BinaryHeap;

/// The label of a vertex to which no walk is known. It is above the cost of every cheapest walk.
pub(crate) const NO_WALK: u64 = u64::MAX;

/// Labels with the places of their vertices, of which the least comes first.
type Waiting = BinaryHeap<Reverse<(u64, u32)>>;

/// The label of each vertex, which is the least cost of a walk from the vertex at `source`, or `NO_WALK`
/// where no walk leads there.
pub(crate) fn labels_from(
    alloc: Global,
    net: &Network,
    rows: &[ArcRow],
    source: u32,
) -> Result<Vec<u64>, NoMemory>
    requires source { source < net.now.vertices }
    requires rows { AreArcs net.now rows.now }
    ensures { IfOk result (λ labels. map cost_in labels.items ≡ least_costs net.now (source + 1)) }
{
    let vertices = net.vertices() as usize;
    let mut labels = vec![in alloc; NO_WALK; vertices]?;
    search(alloc, net, rows, &mut labels, source)?;
    Ok(labels)
}

/// Fills labels of which none is known.
fn search(
    alloc: Global,
    net: &Network,
    rows: &[ArcRow],
    labels: &mut [u64],
    source: u32,
) -> Result<(), NoMemory>
    requires source { source < net.now.vertices }
    requires network { IsNetwork net.now }
    requires rows { AreArcs net.now rows.now }
    requires none { labels.old ≡ replicate net.now.vertices NO_WALK }
    ensures { IfOk result (λ _. map cost_in labels.new ≡ least_costs net.now (source + 1)) }
{
    let mut waiting = BinaryHeap::new(alloc);
    offer(labels, &mut waiting, source, 0)?;
    settle(rows, labels, &mut waiting)
}

/// Goes on from each vertex that waits, until none does.
fn settle(rows: &[ArcRow], labels: &mut [u64], waiting: &mut Waiting) -> Result<(), NoMemory>
    requires same { length labels.old ≡ length rows.now }
    requires rows { AreInside rows.now }
    requires waiting { All (λ e. e.1 < length labels.old) (offers waiting.old) }
    ensures { IfOk result (λ _. GoesOn rows.now labels.old (offers waiting.old) labels.new []) }
{
    while let Some((cost, vertex)) = next(waiting) {
        if cost == labels[vertex as usize] {
            relax(row_at(rows, vertex), cost, labels, waiting)?;
        }
    }
    Ok(())
}

/// The arcs from the vertex at a place.
#[inline(always)]
fn row_at(rows: &[ArcRow], vertex: u32) -> &[Arc]
    requires { vertex < length rows.now }
    ensures { result.now ≡ arcs_from rows.now vertex }
{
    rows[vertex as usize].arcs()
}

/// The least label that waits, with the place of its vertex.
fn next(waiting: &mut Waiting) -> Option<(u64, u32)>
    ensures some { IfSome result (λ x. IsPermutation (offers waiting.old) (x ∷ offers waiting.new)) }
    ensures none { IfNone result (offers waiting.old ≡ []) }
{
    match waiting.pop() {
        Some(Reverse(least)) => Some(least),
        None => None,
    }
}

/// Offers each way on from a vertex with this label.
fn relax(row: &[Arc], label: u64, labels: &mut [u64], waiting: &mut Waiting) -> Result<(), NoMemory>
    requires { All (λ a. a.to < length labels.old) row.now }
    ensures { IfOk result (λ _. IsGone row.now label (length row.now) labels.old (offers waiting.old) labels.new (offers waiting.new)) }
{
    for k in 0..row.len() {
        let arc = row[k];
        offer(labels, waiting, arc.to, label.saturating_add(arc.cost))?;
    }
    Ok(())
}

/// Gives the vertex at a place this label, with which it then waits, where that is less than its own.
fn offer(labels: &mut [u64], waiting: &mut Waiting, vertex: u32, label: u64) -> Result<(), NoMemory>
    requires { vertex < length labels.old }
    ensures { IfOk result (λ _. IsOffered labels.old (offers waiting.old) vertex label labels.new (offers waiting.new)) }
{
    if labels[vertex as usize] <= label {
        return Ok(());
    }
    labels[vertex as usize] = label;
    waiting.push(Reverse((label, vertex)))?;
    Ok(())
}
