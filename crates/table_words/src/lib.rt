//! What readers of tables share: the numbers of sites and of customers, within the limits, and a row of
//! lane costs. The forms of files that are read by these stand in the crates above.
#![tactic(auto)]

ghost use Rattle.std.specs.Prelude.{◌≡◌, ◌≤◌, IfOk};
ghost use Rattle.location_terms.specs.Instance.{AreSizes};
ghost use Rattle.fixed_cost.specs.Reading.{size_at, Reads, ReadsForm};
ghost use Rattle.fixed_cost.specs.declared.fault.FileKind.TheVariants.{BadSize};
ghost use Rattle.instance_store.specs.Small.{IsSmall};
ghost use Rattle.table_words.specs.Tables.{is_customer_count, sizes_at, lane_at, lanes_at};

use fixed_cost::{FileFault, FileKind, FormFault, WordReader};
use instance_store::LaneRow;
use location_terms::{MAX_CUSTOMERS, MAX_LANES, MAX_SITES};
use std::alloc::Global;

/// The number of sites and the number of customers of a table.
#[derive(Clone, Copy, Debug, PartialEq, Eq)]
pub struct TableSizes {
    pub sites: u32,
    pub custs: u32,
}

/// The number of sites and then that of customers. A number that isn't whole or past a limit, also that
/// on their product, is `BadSize`.
#[tactic(auto, unfolding(crate::specs::Tables::sizes_at))]
pub fn read_sizes(reader: &mut WordReader<'_>) -> Result<TableSizes, FileFault>
    ensures read { Reads (λ sizes. (sizes.sites, sizes.custs)) result reader.new (sizes_at reader.old) }
    ensures within { IfOk result (λ sizes. AreSizes sizes.sites sizes.custs) }
{
    let sites = reader.size(FileKind::BadSize, 1, MAX_SITES as u32)?;
    let custs = read_customer_count(reader, sites)?;
    Ok(TableSizes { sites, custs })
}

/// The number of customers, where there are so many sites.
fn read_customer_count(reader: &mut WordReader<'_>, sites: u32) -> Result<u32, FileFault>
    requires some { 1 ≤ sites }
    requires few { sites ≤ MAX_SITES }
    ensures read { Reads (λ n. n) result reader.new (size_at BadSize (is_customer_count sites) reader.old) }
    ensures within { IfOk result (AreSizes sites) }
{
    let most = (MAX_LANES as u32 / sites).min(MAX_CUSTOMERS as u32);
    reader.size(FileKind::BadSize, 1, most)
}

/// The costs of so many lanes, each an amount.
pub fn read_lanes(
    alloc: Global,
    reader: &mut WordReader<'_>,
    count: u32,
) -> Result<LaneRow, FormFault>
    ensures { ReadsForm (λ row. row) result reader.new (lanes_at count reader.old) }
{
    let mut lanes = LaneRow::with_capacity(alloc, count as usize).map_err(|_| FormFault::NoMemory)?;
    for _ in 0..count {
        let lane = read_lane(reader)?;
        lanes.push(lane).map_err(|_| FormFault::NoMemory)?;
    }
    Ok(lanes)
}

/// A lane's cost.
#[tactic(auto, unfolding(crate::specs::Tables::lane_at))]
fn read_lane(reader: &mut WordReader<'_>) -> Result<Option<u64>, FileFault>
    ensures read { Reads (λ lane. lane) result reader.new (lane_at reader.old) }
    ensures small { IfOk result IsSmall }
{
    Ok(Some(reader.amount()?.micro()))
}

#[cfg(test)]
mod tests;
