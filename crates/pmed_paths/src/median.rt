//! The instance of a network.

ghost use Rattle.std.specs.Prelude.{◌≡◌, ◌+◌, ◌<◌, ◌≤◌, ◌++◌, ◌∷◌, [], false, map, length, IfOk, IfErr};
ghost use Rattle.std.specs.List.{list_any, range_with_len};
ghost use Rattle.location_terms.specs.Instance.{IsValid};
ghost use Rattle.fixed_cost.specs.Reading.{Means};
ghost use Rattle.number_words.specs.Words.{words_of};
ghost use Rattle.instance_store.specs.Small.{IsSmall};
ghost use Rattle.instance_store.specs.Parts.{AreParts};
ghost use Rattle.pmed_paths.specs.Arcs.{AreArcs};
ghost use Rattle.pmed_paths.specs.Median.{is_past, is_far, has_far_pair, FailsFor, vertex_row, vertex_customers, median_instance};
ghost use Rattle.pmed_paths.specs.Pmed.{before_end, fault_in, median_meaning};

use crate::arcs::{ArcRow, arcs_of};
use crate::distances::{Distances, distances_from};
use crate::file::read_net;
use crate::network::Network;
use fixed_cost::{FileFault, FileKind, FormFault, MAX_INSTANCE_BYTES};
use instance_store::{CustId, CustRow, Instance, LaneRow, NoMemory, SiteId, SiteRow};
use location_terms::{MAX_AMOUNT, MAX_SITES};
use std::alloc::Global;
use thiserror::Error;

/// Why a network has no instance.
#[derive(Clone, Copy, Debug, PartialEq, Eq, Error)]
pub enum PathFault {
    /// Some cheapest walk costs more than an amount can be.
    #[error("a cheapest walk costs too much")]
    TooBig,
    /// Memory ran out.
    #[error("out of memory")]
    NoMemory,
}

impl From<NoMemory> for PathFault {
    ghost use Rattle.std.specs.Prelude.{◌≡◌};
    ghost use Rattle.pmed_paths.specs.declared.median.PathFault.TheVariants.{NoMemory};

    ghost from_gives = { λ _ fault. fault ≡ NoMemory };

    fn from(_e: NoMemory) -> PathFault {
        PathFault::NoMemory
    }
}

/// The instance of a network: each vertex is a site that costs nothing to open, without a capacity, and
/// a customer who demands nothing. A lane costs what a cheapest walk does, and where no walk leads there
/// is no lane. As many sites open as the network has medians.
pub fn to_instance(alloc: Global, net: &Network) -> Result<Instance, PathFault>
    ensures instance { IfOk result (λ inst. inst ≡ median_instance net.now) }
    ensures valid { IfOk result IsValid }
    ensures near { IfOk result (λ _. has_far_pair net.now ≡ false) }
    ensures fault { IfErr result (λ fault. FailsFor fault (has_far_pair net.now)) }
{
    let sites = site_rows(alloc, net)?;
    store(alloc, net, sites)
}

/// The instance that a file of at most `MAX_INSTANCE_BYTES` means. The fault is that of the first word
/// that has one. After all of them comes `TooBig`, at the last word, where some cheapest walk costs more
/// than an amount can be.
#[tactic(auto, unfolding(crate::specs::Pmed::median_meaning))]
pub fn read(alloc: Global, bytes: &[u8]) -> Result<Instance, FormFault>
    requires { length bytes.now ≤ MAX_INSTANCE_BYTES }
    ensures meaning { Means (λ inst. inst) result (median_meaning bytes.now) }
    ensures valid { IfOk result IsValid }
{
    let net = read_net(alloc, bytes)?;
    match to_instance(alloc, &net) {
        Ok(inst) => Ok(inst),
        Err(fault) => Err(in_file(bytes, fault)),
    }
}

/// A fault of a network as one of the file, at its last word.
fn in_file(bytes: &[u8], fault: PathFault) -> FormFault
    requires { length bytes.now ≤ MAX_INSTANCE_BYTES }
    ensures { result ≡ fault_in (words_of bytes.now) fault }
{
    match fault {
        PathFault::NoMemory => FormFault::NoMemory,
        PathFault::TooBig => FormFault::File(too_big(FileFault::ended(bytes))),
    }
}

/// The fault of costs at the word before this end of a file.
fn too_big(end: FileFault) -> FileFault
    requires { 1 ≤ end.word }
    ensures { result ≡ before_end end }
{
    FileFault {
        kind: FileKind::TooBig,
        line: end.line,
        word: end.word - 1,
    }
}

/// The vertices as sites.
fn site_rows(alloc: Global, net: &Network) -> Result<Vec<SiteRow>, PathFault>
    ensures rows { IfOk result (λ rows. rows.items ≡ map (λ a. vertex_row net.now a) (range_with_len 1 net.now.vertices)) }
    ensures near { IfOk result (λ _. has_far_pair net.now ≡ false) }
    ensures fault { IfErr result (λ fault. FailsFor fault (has_far_pair net.now)) }
{
    let arcs = arcs_of(alloc, net)?;
    let vertices = net.vertices();
    let mut rows = Vec::with_capacity(alloc, vertices as usize).map_err(|_| NoMemory)?;
    for place in 0..vertices {
        let row = site_row(alloc, net, &arcs, place)?;
        push_row(&mut rows, row)?;
    }
    Ok(rows)
}

/// Puts a row behind the others.
fn push_row(rows: &mut Vec<SiteRow>, row: SiteRow) -> Result<(), NoMemory>
    ensures { IfOk result (λ _. rows.new.items ≡ rows.old.items ++ row ∷ []) }
{
    rows.push(row)?;
    Ok(())
}

/// The vertex at a place as a site.
fn site_row(alloc: Global, net: &Network, arcs: &[ArcRow], place: u32) -> Result<SiteRow, PathFault>
    requires inside { place < net.now.vertices }
    requires few { place < MAX_SITES }
    requires arcs { AreArcs net.now arcs.now }
    ensures row { IfOk result (λ row. row ≡ vertex_row net.now (place + 1)) }
    ensures near { IfOk result (λ _. is_far net.now (place + 1) ≡ false) }
    ensures fault { IfErr result (λ fault. FailsFor fault (is_far net.now (place + 1))) }
{
    let distances = distances_from(alloc, net, arcs, place)?;
    let lanes = lanes(alloc, &distances)?;
    Ok(SiteRow {
        id: SiteId::new(place + 1),
        fixed: 0,
        cap: None,
        lanes,
    })
}

/// The lanes to all vertices.
fn lanes(alloc: Global, distances: &Distances) -> Result<LaneRow, PathFault>
    ensures row { IfOk result (λ row. row ≡ distances.now) }
    ensures near { IfOk result (λ _. list_any is_past distances.now ≡ false) }
    ensures fault { IfErr result (λ fault. FailsFor fault (list_any is_past distances.now)) }
{
    let mut row = LaneRow::with_capacity(alloc, distances.len())?;
    for place in 0..distances.len() {
        let lane = as_lane(distances.at(place))?;
        row.push(lane)?;
    }
    Ok(row)
}

/// A cost as that of a lane, unless it is more than an amount can be.
fn as_lane(cost: Option<u64>) -> Result<Option<u64>, PathFault>
    ensures lane { IfOk result (λ lane. lane ≡ cost) }
    ensures near { IfOk result (λ _. is_past cost ≡ false) }
    ensures fault { IfErr result (λ fault. FailsFor fault (is_past cost)) }
    ensures small { IfOk result IsSmall }
{
    match cost {
        Some(cost) if cost > MAX_AMOUNT => Err(PathFault::TooBig),
        cost => Ok(cost),
    }
}

/// The instance of a network whose vertices are these sites.
fn store(alloc: Global, net: &Network, sites: Vec<SiteRow>) -> Result<Instance, PathFault>
    requires rows { sites.items ≡ map (λ a. vertex_row net.now a) (range_with_len 1 net.now.vertices) }
    requires near { has_far_pair net.now ≡ false }
    ensures instance { IfOk result (λ inst. inst ≡ median_instance net.now) }
    ensures valid { IfOk result IsValid }
    ensures fault { IfErr result (λ fault. fault ≡ PathFault.NoMemory) }
{
    let vertices = net.vertices();
    let customers = customers(alloc, vertices)?;
    let open = net.medians();
    let next = vertices + 1;
    let inst = Instance::from_parts(alloc, open, open, next, next, customers, sites)?;
    Ok(inst)
}

/// The vertices as customers.
fn customers(alloc: Global, vertices: u32) -> Result<Vec<CustRow>, NoMemory>
    requires { vertices ≤ MAX_SITES }
    ensures { IfOk result (λ rows. rows.items ≡ vertex_customers vertices) }
{
    let rows = (1..vertices + 1)
        .map(|id| CustRow {
            id: CustId::new(id),
            demand: 0,
        })
        .collect(alloc)?;
    Ok(rows)
}
