//! The search for a plan among sets of sites.
ghost use Rattle.std.specs.Prelude.{◌≡◌, IfOk, IfSome};
ghost use Rattle.location_terms.specs.Plan.{IsFeasible};
ghost use Rattle.set_search.specs.Ready.{IsReady};

use crate::change::{Change, open_count};
use crate::ordered::Ordered;
use crate::seating::Seating;
use crate::set::{Set, box_cost, path_of};
use assignment_search::{Assignment, seated_plan};
use dual_value::PreparedBox;
use instance_store::{Instance, NoMemory};
use plan_meaning::{Plan, cost};
use rand_core::SeedableRng;
use rand_xoshiro::SplitMix64;
use side_multipliers::Transport;
use std::alloc::Global;
use std::num::nearest_u64_to_f64;

// How often customers are seated in a search: less often at many lanes, so that about so many lanes are looked
// at in all, but at least and at most so often.
const SEATED_LANES: usize = 64_000;

const LEAST_SEATINGS: usize = 4;

const MOST_SEATINGS: usize = 40;

/// A search among sets of open sites. Each one goes another way, since the moves of the customers are others.
#[derive(Drop)]
pub struct SetSearch {
    work: Assignment,
    rng: SplitMix64,
}

impl SetSearch {
    /// One whose first moves are always the same.
    pub fn new(alloc: Global) -> SetSearch {
        SetSearch {
            work: Assignment::none(alloc),
            rng: SplitMix64::seed_from_u64(0),
        }
    }

    /// A plan that is sought from the set of the flagged sites, by place: single sites are opened, closed and
    /// exchanged while the set's transportation problem becomes cheaper, and at the sets where that ends, and
    /// beside it, customers are seated whole. None where none is found that costs less than `most` millionths:
    /// that says nothing of the instance. It fails only where memory runs out.
    pub fn plan(
        &mut self,
        at: &Ordered<'_>,
        rooms: &mut Transport,
        open: &[bool],
        most: f64,
    ) -> Result<Option<Plan>, NoMemory>
        requires { IsReady at.now rooms.old }
        ensures feasible { IfOk result (λ plan. IfSome plan (IsFeasible at.now.inst.now)) }
        ensures same { rooms.new ≡ rooms.old }
    {
        let mut set = Set::of(at, rooms, open, most)?;
        set.descend(at, rooms)?;
        let near = set.near(at, rooms, most)?;
        self.seat_near(at, rooms, &mut set.open, &near, most)
    }

    // The cheapest plan that is found at the sets with one of these changes, which take turns.
    fn seat_near(
        &mut self,
        at: &Ordered<'_>,
        rooms: &mut Transport,
        open: &mut [bool],
        near: &[Change],
        most: f64,
    ) -> Result<Option<Plan>, NoMemory>
        requires { IsReady at.now rooms.old }
        ensures feasible { IfOk result (λ plan. IfSome plan (IsFeasible at.now.inst.now)) }
        ensures same { rooms.new ≡ rooms.old }
    {
        let mut best = None;
        let mut least = most;
        for turn in 0..turns(at.inst, open, near.len()) {
            let change = near[turn % near.len()];
            change.make(open);
            let plan = self.seat(at, rooms, open, least)?;
            change.undo(open);
            if let Some(plan) = plan {
                least = plan_cost(at.inst, &plan);
                best = Some(plan);
            }
        }
        Ok(best)
    }

    /// A plan with the flagged sites open, by place, that costs less than `most` millionths, where one is found. It
    /// fails only where memory runs out.
    pub fn seat(
        &mut self,
        at: &Ordered<'_>,
        rooms: &mut Transport,
        set: &[bool],
        most: f64,
    ) -> Result<Option<Plan>, NoMemory>
        requires { IsReady at.now rooms.old }
        ensures feasible { IfOk result (λ plan. IfSome plan (IsFeasible at.now.inst.now)) }
        ensures same { rooms.new ≡ rooms.old }
    {
        let path = path_of(at.alloc, at.inst, set)?;
        let boxed = PreparedBox::of(at.alloc, at.inst, &path)?;
        if box_cost(&boxed, at.order, rooms, most).is_none() {
            return Ok(None);
        }
        rooms.name_suppliers();
        let mut seating = Seating::of(at.alloc, at.inst, set, rooms.suppliers())?;
        let seats = seating.settle(&mut self.rng)?;
        let plan = seated_plan(at.alloc, &boxed, &mut self.work, seats)?;
        Ok(below(at.inst, plan, most))
    }
}

// How many turns so many sets beside an open one have in all: one each, in which it may be found to cost too much,
// and as many as customers are seated. None where there is no set.
fn turns(inst: &Instance, open: &[bool], sets: usize) -> usize
    ensures { sets ≡ 0 → result ≡ 0 }
{
    if sets == 0 {
        return 0;
    }
    let lanes = inst.custs().saturating_mul(open_count(open));
    let seatings = SEATED_LANES / lanes.max(1);
    sets.saturating_add(seatings.max(LEAST_SEATINGS).min(MOST_SEATINGS))
}

// The feasible plan, where it costs less than `most` millionths.
fn below(inst: &Instance, plan: Option<Plan>, most: f64) -> Option<Plan>
    requires { IfSome plan (IsFeasible inst.now) }
    ensures { IfSome result (IsFeasible inst.now) }
{
    let plan = plan?;
    if plan_cost(inst, &plan) < most {
        Some(plan)
    } else {
        None
    }
}

// What a feasible plan costs, in millionths.
fn plan_cost(inst: &Instance, plan: &Plan) -> f64
    requires { IsFeasible inst.now plan.now }
{
    // An instance is valid, so that costs fit.
    let _sites = inst.sites();
    nearest_u64_to_f64(cost(inst, plan))
}
