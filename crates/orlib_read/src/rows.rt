//! The parts of a file behind its head: the warehouses, and then the customers.

ghost use Rattle.std.specs.Prelude.{◌≡◌, All, None, IsSome, IfOk, IsOkUnless};
ghost use Rattle.location_terms.specs.Instance.{IsValid};
ghost use Rattle.location_terms.specs.Plain.{IsPlain};
ghost use Rattle.fixed_cost.specs.Reading.{many_at, Reads, ReadsForm, Means};
ghost use Rattle.instance_store.specs.Numbered.{AreCustRows, numbered_by_customer};
ghost use Rattle.orlib_read.specs.Warehouses.{GivesSmall, warehouse_at, customer_at, warehouses_at};
ghost use Rattle.orlib_read.specs.declared.capacities.Capacities.TheVariants.{Ignored};

use crate::capacities::{Capacities, read_limit};
use fixed_cost::{FileFault, FormFault, WordReader};
use instance_store::{CustLanes, Instance, ListedSite};
use std::alloc::Global;
use table_words::{read_lanes, read_sizes};

/// The whole file.
#[tactic(auto, unfolding(crate::specs::Warehouses::warehouses_at))]
pub(crate) fn instance(
    alloc: Global,
    mut reader: WordReader<'_>,
    capacities: Capacities,
) -> Result<Instance, FormFault>
    requires { GivesSmall capacities }
    ensures meaning { Means (λ inst. inst) result (warehouses_at capacities reader.entry) }
    ensures valid { IfOk result IsValid }
    ensures plain { capacities ≡ Ignored → IfOk result IsPlain }
{
    let sizes = read_sizes(&mut reader)?;
    let sites = read_warehouses(alloc, &mut reader, sizes.sites, capacities)?;
    let custs = read_customers(alloc, &mut reader, sizes.custs, sizes.sites)?;
    reader.finish()?;
    store(alloc, sites, custs)
}

/// The warehouses as sites.
fn read_warehouses(
    alloc: Global,
    reader: &mut WordReader<'_>,
    count: u32,
    capacities: Capacities,
) -> Result<Vec<ListedSite>, FormFault>
    ensures { ReadsForm (λ sites. sites.items) result reader.new (many_at (λ _. warehouse_at capacities) 0 count reader.old) }
{
    let mut sites = Vec::with_capacity(alloc, count as usize)?;
    for _ in 0..count {
        let site = read_warehouse(reader, capacities)?;
        sites.push(site)?;
    }
    Ok(sites)
}

/// The next warehouse.
#[tactic(auto, unfolding(crate::specs::Warehouses::warehouse_at))]
fn read_warehouse(
    reader: &mut WordReader<'_>,
    capacities: Capacities,
) -> Result<ListedSite, FileFault>
    ensures { Reads (λ site. site) result reader.new (warehouse_at capacities reader.old) }
{
    let cap = read_limit(reader, capacities)?;
    let fixed = reader.amount()?.micro();
    Ok(ListedSite { fixed, cap })
}

/// The customers, each with a lane to each of so many sites.
fn read_customers(
    alloc: Global,
    reader: &mut WordReader<'_>,
    count: u32,
    sites: u32,
) -> Result<Vec<CustLanes>, FormFault>
    ensures { ReadsForm (λ custs. custs.items) result reader.new (many_at (λ _. customer_at sites) 0 count reader.old) }
{
    let mut custs = Vec::with_capacity(alloc, count as usize)?;
    for _ in 0..count {
        let cust = read_customer(alloc, reader, sites)?;
        custs.push(cust)?;
    }
    Ok(custs)
}

/// The next customer.
#[tactic(auto, unfolding(crate::specs::Warehouses::customer_at))]
fn read_customer(
    alloc: Global,
    reader: &mut WordReader<'_>,
    sites: u32,
) -> Result<CustLanes, FormFault>
    ensures { ReadsForm (λ cust. cust) result reader.new (customer_at sites reader.old) }
{
    let demand = reader.amount()?.micro();
    let lanes = read_lanes(alloc, reader, sites)?;
    Ok(CustLanes { demand, lanes })
}

/// The instance of what was read.
fn store(
    alloc: Global,
    sites: Vec<ListedSite>,
    custs: Vec<CustLanes>,
) -> Result<Instance, FormFault>
    requires rows { AreCustRows sites.items custs.items }
    requires there { All (λ c. All IsSome c.lanes) custs.items }
    ensures instance { IfOk result (λ inst. inst ≡ numbered_by_customer sites.items custs.items) }
    ensures memory { IsOkUnless result FormFault.NoMemory }
    ensures valid { IfOk result IsValid }
    ensures plain { All (λ s. s.cap ≡ None) sites.items → IfOk result IsPlain }
{
    Instance::numbered_by_customer(alloc, sites, custs).map_err(|_| FormFault::NoMemory)
}
