//! Small instances on which the tests of other crates work. Amounts are in millionths.
#![tactic(auto)]

ghost use Rattle.std.specs.Prelude.{◌≡◌, ◌≤◌};
ghost use Rattle.location_terms.specs.declared.limits.TheConstants.{MAX_AMOUNT, MAX_SITES};

use instance_store::{CustId, CustRow, Instance, LaneRow, NoMemory, SiteId, SiteRow};
use std::alloc::Global;

/// The row of a site.
pub fn site(id: u32, fixed: u64, cap: Option<u64>, lanes: LaneRow) -> SiteRow
    ensures { result ≡ record { id = id; fixed = fixed; cap = cap; lanes = lanes } }
{
    SiteRow {
        id: SiteId::new(id),
        fixed,
        cap,
        lanes,
    }
}

/// The row of a customer.
pub fn customer(id: u32, demand: u64) -> CustRow
    ensures { result ≡ record { id = id; demand = demand } }
{
    CustRow {
        id: CustId::new(id),
        demand,
    }
}

/// Two sites and three customers without demand, where from `lo` to `hi` sites may open. The first site
/// alone costs 22 units, the second alone 28, and both 26.
pub fn two_sites(alloc: Global, lo: u32, hi: u32) -> Result<Instance, NoMemory>
    requires order { lo ≤ hi }
    requires few { hi ≤ MAX_SITES }
{
    let near = LaneRow::from_slice(alloc, &[Some(1_000_000), Some(2_000_000), Some(9_000_000)])?;
    let far = LaneRow::from_slice(alloc, &[Some(8_000_000), Some(7_000_000), Some(1_000_000)])?;
    let sites = vec![in alloc;
        site(1, 10_000_000, None, near),
        site(2, 12_000_000, None, far),
    ]?;
    let custs = vec![in alloc; customer(1, 0), customer(2, 0), customer(3, 0)]?;
    Instance::from_parts(alloc, lo, hi, 3, 4, custs, sites)
}

/// Two sites that cost 2 units each and serve the first of three customers for nothing. Each serves one
/// of the others for nothing, and the last one for 10 units.
pub fn shared_customer(alloc: Global) -> Result<Instance, NoMemory> {
    let first = LaneRow::from_slice(alloc, &[Some(0), Some(0), Some(10_000_000)])?;
    let second = LaneRow::from_slice(alloc, &[Some(0), Some(10_000_000), Some(0)])?;
    let sites = vec![in alloc;
        site(1, 2_000_000, None, first),
        site(2, 2_000_000, None, second),
    ]?;
    let custs = vec![in alloc; customer(1, 0), customer(2, 0), customer(3, 0)]?;
    Instance::from_parts(alloc, 0, 2, 3, 4, custs, sites)
}

/// Two sites that serve 10 units each, and two customers that demand 6 units each.
pub fn warehouses(alloc: Global) -> Result<Instance, NoMemory> {
    let first = LaneRow::from_slice(alloc, &[Some(6_739_725_000), Some(3_000_000)])?;
    let second = LaneRow::from_slice(alloc, &[Some(1_250_000), Some(4_000_000)])?;
    let sites = vec![in alloc;
        site(1, 7_500_000_000, Some(10_000_000), first),
        site(2, 500_000, Some(10_000_000), second),
    ]?;
    let custs = vec![in alloc; customer(1, 6_000_000), customer(2, 6_000_000)]?;
    Instance::from_parts(alloc, 0, 2, 3, 3, custs, sites)
}

/// Three sites that cost 2 units each, and three customers, each of whom two of the sites serve for
/// nothing.
pub fn ring(alloc: Global) -> Result<Instance, NoMemory> {
    let first = LaneRow::from_slice(alloc, &[Some(0), Some(0), None])?;
    let second = LaneRow::from_slice(alloc, &[None, Some(0), Some(0)])?;
    let third = LaneRow::from_slice(alloc, &[Some(0), None, Some(0)])?;
    let sites = vec![in alloc;
        site(1, 2_000_000, None, first),
        site(2, 2_000_000, None, second),
        site(3, 2_000_000, None, third),
    ]?;
    let custs = vec![in alloc; customer(1, 0), customer(2, 0), customer(3, 0)]?;
    Instance::from_parts(alloc, 0, 3, 4, 4, custs, sites)
}

/// Three places on a road, 4 and 7 units apart, with a site and a customer each, where from `lo` to `hi`
/// sites may open and each costs the same. With one site the second place is best, for 11 units.
pub fn road(alloc: Global, lo: u32, hi: u32, fixed: u64) -> Result<Instance, NoMemory>
    requires order { lo ≤ hi }
    requires few { hi ≤ MAX_SITES }
    requires fixed { fixed ≤ MAX_AMOUNT }
{
    let left = LaneRow::from_slice(alloc, &[Some(0), Some(4_000_000), Some(11_000_000)])?;
    let middle = LaneRow::from_slice(alloc, &[Some(4_000_000), Some(0), Some(7_000_000)])?;
    let right = LaneRow::from_slice(alloc, &[Some(11_000_000), Some(7_000_000), Some(0)])?;
    let sites = vec![in alloc;
        site(1, fixed, None, left),
        site(2, fixed, None, middle),
        site(3, fixed, None, right),
    ]?;
    let custs = vec![in alloc; customer(1, 0), customer(2, 0), customer(3, 0)]?;
    Instance::from_parts(alloc, lo, hi, 4, 4, custs, sites)
}
