//! Sites and customers in a square of 1,000 by 1,000 units.
ghost use Rattle.std.specs.Prelude.{◌≡◌, ◌≤◌, ◌*◌, map, length, IfOk};
ghost use Rattle.location_terms.specs.declared.limits.TheConstants.{MAX_CUSTOMERS, MAX_SITES};
ghost use Rattle.trial_instance.specs.Draws.{state_after};
ghost use Rattle.trial_instance.specs.Trial.{place_at, placed_site_at, distance, trial_sites, trial_customers};

use crate::draws::Draws;
use instance_store::NoMemory;
use std::alloc::Global;

/// A place in the square, in units from its corner.
#[derive(Clone, Copy, Debug)]
pub struct Place {
    pub x: u16,
    pub y: u16,
}

/// A site in its place.
#[derive(Clone, Copy, Debug)]
pub struct PlacedSite {
    pub place: Place,
    /// What it costs to open the site, in units.
    pub opening: u16,
}

impl Place {
    // The place that the next two numbers give.
    fn drawn(draws: &mut Draws) -> Place
        ensures place { result ≡ place_at draws.old.state 0 }
        ensures state { draws.new.state ≡ state_after draws.old.state 2 }
    {
        let x = draws.below_thousand();
        let y = draws.below_thousand();
        Place { x, y }
    }

    /// How far it is to another place along the sides of the square, in units.
    pub fn distance(self, other: Place) -> u32
        ensures exact { result ≡ distance self other }
        ensures small { result ≤ 200000 }
    {
        u32::from(self.x.abs_diff(other.x)) + u32::from(self.y.abs_diff(other.y))
    }
}

impl PlacedSite {
    // The site that the next three numbers give.
    fn drawn(draws: &mut Draws) -> PlacedSite
        ensures site { result ≡ placed_site_at draws.old.state 0 }
        ensures state { draws.new.state ≡ state_after draws.old.state 3 }
    {
        let place = Place::drawn(draws);
        let opening = 500 + draws.below_thousand();
        PlacedSite { place, opening }
    }
}

/// The sites that the next numbers give, three for each.
pub fn draw_sites(
    alloc: Global,
    draws: &mut Draws,
    count: usize,
) -> Result<Vec<PlacedSite>, NoMemory>
    requires { count ≤ MAX_SITES }
    ensures { IfOk result (λ sites. (sites.items ≡ trial_sites draws.old.state count) × (draws.new.state ≡ state_after draws.old.state (3 * count))) }
{
    let mut sites = Vec::with_capacity(alloc, count)?;
    for _ in 0..count {
        sites.push(PlacedSite::drawn(draws))?;
    }
    Ok(sites)
}

/// The places of customers that the next numbers give, two for each.
pub fn draw_customers(alloc: Global, mut draws: Draws, count: usize) -> Result<Vec<Place>, NoMemory>
    requires { count ≤ MAX_CUSTOMERS }
    ensures { IfOk result (λ customers. customers.items ≡ trial_customers draws.state 0 count) }
{
    let mut customers = Vec::with_capacity(alloc, count)?;
    for _ in 0..count {
        customers.push(Place::drawn(&mut draws))?;
    }
    Ok(customers)
}
