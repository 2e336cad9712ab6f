//! From places to an instance.
ghost use Rattle.std.specs.Prelude.{◌≡◌, None, map, replicate, All, IsSome, IfOk};
ghost use Rattle.location_terms.specs.Instance.{IsValid, AreSizes};
ghost use Rattle.location_terms.specs.Plain.{IsPlain};
ghost use Rattle.instance_store.specs.Numbered.{AreSiteRows, numbered_by_site};
ghost use Rattle.trial_instance.specs.Trial.{lane_to, site_lanes, trial_meaning};

use crate::draws::Draws;
use crate::square::{Place, PlacedSite, draw_customers, draw_sites};
use instance_store::{Instance, LaneRow, ListedSite, NoMemory, SiteLanes};
use std::alloc::Global;

// Millionths in a unit.
const UNIT: u64 = 1_000_000;

/// The instance of a seed, so many sites and so many customers. They stand in a square of 1,000 by 1,000
/// units, a site costs from 500 to 1,499 units, and a lane the distance along the sides of the square.
/// No site has a capacity, no customer a demand, and any number of sites may open.
///
/// It fails only where memory runs out, and takes time in the product of the two numbers.
pub fn trial(alloc: Global, seed: u32, sites: usize, custs: usize) -> Result<Instance, NoMemory>
    requires { AreSizes sites custs }
    ensures instance { IfOk result (λ inst. inst ≡ trial_meaning seed sites custs) }
    ensures valid { IfOk result IsValid }
    ensures plain { IfOk result IsPlain }
{
    let mut draws = Draws::from_seed(seed);
    let placed = draw_sites(alloc, &mut draws, sites)?;
    let places = draw_customers(alloc, draws, custs)?;
    let rows = rows(alloc, &placed, &places)?;
    store(alloc, custs, rows)
}

// The instance of these sites, and of so many customers.
fn store(alloc: Global, custs: usize, sites: Vec<SiteLanes>) -> Result<Instance, NoMemory>
    requires rows { AreSiteRows sites.items (replicate custs 0) }
    requires no_caps { All (λ s. s.site.cap ≡ None) sites.items }
    requires there { All (λ s. All IsSome s.lanes) sites.items }
    ensures instance { IfOk result (λ inst. inst ≡ numbered_by_site sites.items (replicate custs 0)) }
    ensures valid { IfOk result IsValid }
    ensures plain { IfOk result IsPlain }
{
    let demands = vec![in alloc; 0; custs]?;
    Instance::numbered_by_site(alloc, sites, demands)
}

// The sites with their lanes to the customers.
fn rows(alloc: Global, sites: &[PlacedSite], custs: &[Place]) -> Result<Vec<SiteLanes>, NoMemory>
    ensures { IfOk result (λ rows. rows.items ≡ map (site_lanes custs.now) sites.now) }
{
    let mut rows = Vec::with_capacity(alloc, sites.len())?;
    for site in sites {
        let fixed = UNIT * u64::from(site.opening);
        let lanes = lanes(alloc, site.place, custs)?;
        rows.push(SiteLanes {
            site: ListedSite { fixed, cap: None },
            lanes,
        })?;
    }
    Ok(rows)
}

// The lanes from a place to the customers.
fn lanes(alloc: Global, site: Place, custs: &[Place]) -> Result<LaneRow, NoMemory>
    ensures { IfOk result (λ row. row ≡ map (lane_to site) custs.now) }
{
    let mut row = LaneRow::with_capacity(alloc, custs.len())?;
    for cust in custs {
        let units = site.distance(*cust);
        row.push(Some(UNIT * u64::from(units)))?;
    }
    Ok(row)
}
