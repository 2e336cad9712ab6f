//! Steps to exactly the cost of a plan, in boxes where the bound may come up to it.
ghost use Rattle.std.specs.Prelude.{◌≡◌, ◌<◌, length};
ghost use Rattle.dual_steps.specs.Sizes.{Suits};

use crate::Steps;
use crate::customer::{FLAT, recall_within, step_ahead, turn};
use crate::payers::{Payers, Spot, spots_of, sweep, take_spots};
use crate::paying::{ENDLESS, fill_limits, widen_limits};
use crate::site::is_within;
use crate::snapping::{set_aside, snap_to};
use instance_store::NoMemory;
use lane_order::LaneOrder;
use std::alloc::Global;

// After how many sweeps the bound is looked at.
const LOOK: u32 = 10;

// Sweeps go on where so many of them leave at most such a part of what slacks are off by.
const REVIEW: u32 = 30;

const MOST_OFF: f64 = 0.9;

// Fractions of the costs' unit on which duals of a vertex stand, and how far from them they are looked
// for, in parts of what is left.
const FRACTIONS: [f64; 8] = [1.0, 2.0, 3.0, 4.0, 5.0, 6.0, 8.0, 12.0];

const REACHES: [f64; 4] = [1.0, 4.0, 20.0, 100.0];

// They are never looked for farther away than the fraction divided by this.
const REACH_PARTS: f64 = 20.0;

impl Steps<'_> {
    /// Refers to a plan by its open sites: where it is in the box, the steps to a cost keep each dual
    /// between the costs of the customer's first and second lane from them. Whether it is in the box.
    pub fn refer_to(&mut self, order: &LaneOrder, open: &[bool]) -> bool
        requires sizes { Suits self.old order.now }
        requires open { length open.now ≡ self.old.sites }
        ensures { self.new ≡ self.old }
    {
        self.plan.copy_from_slice(open);
        self.is_plan_within = is_within(&self.sites, &self.plan);
        if self.is_plan_within {
            fill_limits(order, &self.plan, &mut self.customers);
        } else {
            widen_limits(&mut self.customers);
        }
        self.is_plan_within
    }

    /// Takes steps to a bound of exactly `target` millionths, up to so many.
    pub fn polyak(&mut self, order: &LaneOrder, target: f64, steps: u32)
        requires { Suits self.old order.now }
        ensures { self.new ≡ self.old }
    {
        recall_within(&mut self.customers);
        self.evaluate(order);
        self.keep_better();
        for _step in 0..steps {
            if self.progress.reaches(target) {
                return;
            }
            let squares = turn(&mut self.customers);
            if squares < FLAT {
                return;
            }
            let stride = (target - self.progress.last_bound()) / squares;
            step_ahead(&mut self.customers, stride);
            self.evaluate(order);
            self.keep_better();
        }
    }

    /// Mends the slacks of the sites one after the other, up to so many times, so that they fit the plan that is referred
    /// to. Where the number of open sites has a price, that moves along with the duals. It does nothing where the plan
    /// isn't in the box, and fails only where memory runs out.
    pub fn project(
        &mut self,
        alloc: Global,
        order: &LaneOrder,
        target: f64,
        sweeps: u32,
    ) -> Result<(), NoMemory>
        requires { Suits self.old order.now }
        ensures { self.new ≡ self.old }
    {
        if !self.is_plan_within || self.progress.reaches(target) {
            return Ok(());
        }
        recall_within(&mut self.customers);
        self.weigh(order);
        self.keep_better();
        let payers = Payers::of(alloc, order, &self.customers, self.sites.len())?;
        let mut spots = spots_of(alloc, &self.customers)?;
        self.sweep_all(order, &payers, &mut spots, target, sweeps);
        Ok(())
    }

    fn sweep_all(
        &mut self,
        order: &LaneOrder,
        payers: &Payers,
        spots: &mut [Spot],
        target: f64,
        sweeps: u32,
    )
        requires { Suits self.old order.now }
        ensures { self.new ≡ self.old }
    {
        let mut price = self.progress.last_count_price();
        let moves = price != 0.0;
        let mut mark = ENDLESS;
        for turn in 0..sweeps {
            if self.progress.reaches(target) {
                return;
            }
            let swept = sweep(payers, &self.sites, &self.plan, price, moves, spots);
            price = swept.extra;
            if turn % LOOK == LOOK - 1 {
                take_spots(spots, &mut self.customers);
                self.weigh(order);
                self.keep_better();
            }
            if turn % REVIEW == REVIEW - 1 {
                if swept.off > MOST_OFF * mark {
                    return;
                }
                mark = swept.off;
            }
        }
    }

    /// Puts duals that are near fractions of the costs' unit onto them, and keeps what raises the bound.
    pub fn snap(&mut self, order: &LaneOrder, target: f64)
        requires { Suits self.old order.now }
        ensures { self.new ≡ self.old }
    {
        let unit = self.cost_unit(order);
        if unit < 1.0 {
            return;
        }
        set_aside(&mut self.customers);
        let left = target - self.progress.bound();
        let mut tried = 0.0;
        for k in 0..REACHES.len() {
            let reach = REACHES[k] * (left + 2.0);
            self.snap_within(order, target, unit, tried, reach);
            tried = reach;
        }
    }

    // Puts them onto each fraction within this reach, but for those that were tried with the greatest reach before.
    fn snap_within(&mut self, order: &LaneOrder, target: f64, unit: f64, tried: f64, reach: f64)
        requires { Suits self.old order.now }
        ensures { self.new ≡ self.old }
    {
        for fraction in 0..FRACTIONS.len() {
            if self.progress.reaches(target) {
                return;
            }
            let part = unit / FRACTIONS[fraction];
            let most = part / REACH_PARTS;
            if tried < most {
                snap_to(&mut self.customers, part, reach.min(most));
                self.weigh(order);
                self.keep_better();
            }
        }
    }
}
