//! Steps with prices of capacities, in boxes with free sites and in those without.
ghost use Rattle.std.specs.Prelude.{◌≡◌, IfOk, IfSome, length};
ghost use Rattle.location_terms.specs.Plan.{IsFeasible};
ghost use Rattle.lane_order.specs.Order.{IsOrderOf};
ghost use Rattle.dual_steps.specs.Sizes.{sizes_of};
ghost use Rattle.set_search.specs.Ready.{IsReady};

use crate::constants::{FIRST_SEARCH, NEXT_SEARCH};
use crate::splitting::has_free_site;
use crate::widening::widen;
use dual_steps::Progress;
use dual_value::{Duals, PreparedBox};
use instance_store::{Instance, NoMemory};
use lane_order::LaneOrder;
use plan_meaning::Plan;
use set_search::{Ordered, SetSearch};
use side_multipliers::{AT_ROOT, CapSteps, IN_NODE, LanePlace, Pace, Transport};
use std::alloc::Global;
use std::marker::Model;

// How steps go on from where a former search was.
const AGAIN: Pace = Pace {
    factor: 0.1,
    weight: 0.2,
    misses: 5,
};

/// The steps of an instance some site of which has a capacity. In boxes without free sites the best prices
/// are found without steps.
#[derive(Drop)]
pub(crate) struct Prices {
    caps: CapSteps,
    rooms: Transport,
    // Whether the box at work has no free site.
    is_settled: bool,
    sets: SetSearch,
    // How many boxes were entered, and before which of them sets are searched.
    entered: u32,
    next_search: u32,
}

impl Model for Prices {
    ghost use Rattle.dual_steps.specs.Sizes.{Sizes};

    ghost Value = { Sizes };

    ghost use Rattle.std.specs.Prelude.{◌≡◌};

    ghost view = { λ a. a.caps };

    ghost invariant = { λ a. a.rooms ≡ a.caps };
}

impl Prices {
    /// Steps for boxes of the instance. It fails only where memory runs out.
    pub(crate) fn of(alloc: Global, inst: &Instance, order: &LaneOrder) -> Result<Prices, NoMemory>
        ensures { IfOk result (λ prices. prices ≡ sizes_of inst.now) }
    {
        let caps = CapSteps::of(alloc, inst, order)?;
        let rooms = Transport::of(alloc, inst, order)?;
        Ok(Prices {
            caps,
            rooms,
            is_settled: false,
            sets: SetSearch::new(alloc),
            entered: 0,
            next_search: FIRST_SEARCH,
        })
    }

    /// Goes into a box of the instance, and begins anew from these duals: with more and longer steps where it
    /// `is_first` in the search.
    pub(crate) fn enter(
        &mut self,
        boxed: &PreparedBox<'_>,
        order: &LaneOrder,
        duals: &Duals,
        is_first: bool,
    )
        requires order { IsOrderOf order.now boxed.now.instance }
        requires sizes { self.old ≡ sizes_of boxed.now.instance }
        ensures { self.new ≡ self.old }
    {
        self.entered = self.entered.saturating_add(1);
        self.is_settled = !has_free_site(boxed);
        if self.is_settled {
            self.rooms.enter(boxed, order);
            return;
        }
        self.caps.enter(boxed, order);
        self.caps.restart(if is_first { AT_ROOT } else { IN_NODE });
        self.caps.start_from(duals.values(), duals.q());
    }

    /// Goes into the box of the instance once more, where a former search stepped.
    pub(crate) fn enter_again(&mut self, whole: &PreparedBox<'_>, order: &LaneOrder)
        requires order { IsOrderOf order.now whole.now.instance }
        requires sizes { self.old ≡ sizes_of whole.now.instance }
        ensures { self.new ≡ self.old }
    {
        self.is_settled = false;
        self.caps.enter(whole, order);
        self.caps.restart(AGAIN);
    }

    /// Lets the steps in a box with free sites start from these numbers, of which `scale` are a millionth, by the places
    /// of the customers.
    pub(crate) fn start_from(&mut self, values: &[i128], scale: u32)
        ensures { self.new ≡ self.old }
    {
        if !self.is_settled {
            self.caps.start_from(values, scale);
        }
    }

    /// The best duals of the steps in boxes with free sites, as they were rounded last, by the places of the customers.
    pub(crate) fn values(&self) -> &[i64]
        ensures { length result.now ≡ self.now.customers }
    {
        self.caps.values()
    }

    /// Whether the box at work has no free site.
    pub(crate) fn is_settled(&self) -> bool {
        self.is_settled
    }

    /// The bound that the steps in the box at work have come to, in millionths.
    pub(crate) fn bound(&self) -> f64 {
        if self.is_settled {
            self.rooms.bound()
        } else {
            self.caps.progress().bound()
        }
    }

    /// Takes smoothed steps towards a bound of `target` millionths, up to so many; in a box without free sites
    /// the best prices are found at once.
    pub(crate) fn step(&mut self, target: f64, steps: u32)
        ensures { self.new ≡ self.old }
    {
        if self.is_settled {
            self.rooms.solve(target);
        } else {
            self.caps.volume(target, steps);
        }
    }

    /// The lane on which to split a box without free sites, where plans are sought that cost less than `target`
    /// millionths.
    pub(crate) fn split(&mut self, target: f64) -> Option<LanePlace>
        ensures { self.new ≡ self.old }
    {
        if !self.is_settled {
            return None;
        }
        self.rooms.split(target)
    }

    /// Whether steps in a box without free sites show that no plan is left there that costs less than `target`
    /// millionths.
    pub(crate) fn shows(&self, target: f64) -> bool {
        self.is_settled && self.rooms.shows(target)
    }

    /// Whether it is time to search sets of open sites for a plan: after some boxes, and again after several
    /// times as many.
    pub(crate) fn is_time_for_sets(&self) -> bool {
        self.entered >= self.next_search
    }

    /// A plan that costs less than `most` millionths, sought from the set of the flagged sites, by place, and none
    /// where none is found. What the box at work had come to is lost. It fails only where memory runs out.
    pub(crate) fn plan_of_sets(
        &mut self,
        at: &Ordered<'_>,
        open: &[bool],
        most: f64,
    ) -> Result<Option<Plan>, NoMemory>
        requires { IsReady at.now self.old }
        ensures feasible { IfOk result (λ plan. IfSome plan (IsFeasible at.now.inst.now)) }
        ensures same { self.new ≡ self.old }
    {
        self.next_search = self.next_search.saturating_mul(NEXT_SEARCH);
        let plan = self.sets.plan(at, &mut self.rooms, open, most)?;
        Ok(plan)
    }

    /// A plan at exactly the flagged sites, by place, that costs less than `most` millionths, and none where none is
    /// found. What the box at work had come to is lost. It fails only where memory runs out.
    pub(crate) fn plan_at(
        &mut self,
        at: &Ordered<'_>,
        open: &[bool],
        most: f64,
    ) -> Result<Option<Plan>, NoMemory>
        requires { IsReady at.now self.old }
        ensures feasible { IfOk result (λ plan. IfSome plan (IsFeasible at.now.inst.now)) }
        ensures same { self.new ≡ self.old }
    {
        let plan = self.sets.seat(at, &mut self.rooms, open, most)?;
        Ok(plan)
    }

    /// Names for each customer, by place, the site from which most of its demand comes in a box without free
    /// sites.
    pub(crate) fn name_suppliers(&mut self)
        ensures { self.new ≡ self.old }
    {
        self.rooms.name_suppliers();
    }

    /// The places of the sites that were named last, by the places of the customers.
    pub(crate) fn suppliers(&self) -> &[usize] {
        self.rooms.suppliers()
    }

    /// The best duals of the steps, rounded to parts of a millionth, `scale` of them. In boxes without free
    /// sites they are prices alone, from which an ascent finds the duals. It fails only where memory runs
    /// out.
    pub(crate) fn rounded(&mut self, alloc: Global, scale: u32) -> Result<Duals, NoMemory>
        ensures customers { IfOk result (λ d. length d.v ≡ self.old.customers) }
        ensures sites { IfOk result (λ d. length d.u ≡ self.old.sites) }
        ensures same { self.new ≡ self.old }
    {
        let mut values = vec![in alloc; 0; self.caps.values().len()]?;
        if self.is_settled {
            self.rooms.round(scale);
            let prices = Vec::from_slice(alloc, self.rooms.prices())?;
            return Ok(Duals::from_lists(scale, 0, values, prices));
        }
        self.caps.round(scale);
        widen(self.caps.values(), &mut values);
        let prices = Vec::from_slice(alloc, self.caps.prices())?;
        let extra = i128::from(self.caps.count_price());
        Ok(Duals::from_lists(scale, extra, values, prices))
    }

    /// What the steps in boxes with free sites have come to.
    pub(crate) fn progress(&self) -> &Progress
        ensures { result.now ≡ self.now.sites }
    {
        self.caps.progress()
    }
}
