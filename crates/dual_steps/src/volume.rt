//! Smoothed steps, which raise the bound and tell how often each site is taken.
ghost use Rattle.std.specs.Prelude.{◌≡◌, ◌<◌, length};
ghost use Rattle.dual_steps.specs.Sizes.{Suits};

use crate::Steps;
use crate::customer::{
    FLAT, mixing_weight, restart_smooth, slope_products, smooth_norm, smooth_slopes, step_smoothly,
};
use lane_order::LaneOrder;

// The weight of new slopes at first.
const FIRST_WEIGHT: f64 = 0.1;

// After so many steps the weight is halved where the bound has risen little.
const REVIEW: u32 = 50;

impl Steps<'_> {
    /// Takes smoothed steps towards a bound of `target` millionths, up to so many. After so many `misses`
    /// the steps become shorter.
    pub fn volume(&mut self, order: &LaneOrder, target: f64, steps: u32, misses: u32)
        requires { Suits self.old order.now }
        ensures { self.new ≡ self.old }
    {
        self.recall(order);
        self.begin_smooth();
        for step in 0..steps {
            if self.progress.reaches(target) || !self.step(order, target, misses) {
                return;
            }
            if step % REVIEW == REVIEW - 1 {
                self.review(target);
            }
        }
    }

    fn begin_smooth(&mut self)
        ensures { self.new ≡ self.old }
    {
        if !self.is_smooth {
            restart_smooth(&mut self.customers);
            self.progress.smooth(1.0);
            self.is_smooth = true;
        }
        self.weight = FIRST_WEIGHT;
        self.missed = 0;
        self.mark = self.progress.bound();
    }

    // One step; no where no direction is left.
    fn step(&mut self, order: &LaneOrder, target: f64, misses: u32) -> bool
        requires { Suits self.old order.now }
        ensures { self.new ≡ self.old }
    {
        let norm = smooth_norm(&mut self.customers);
        if norm < FLAT {
            return false;
        }
        let stride = self.factor * self.gap(target) / norm;
        step_smoothly(&mut self.customers, stride);
        self.evaluate(order);
        let sums = slope_products(&self.customers);
        let weight = mixing_weight(sums, self.weight);
        smooth_slopes(&mut self.customers, weight);
        self.progress.smooth(weight);
        self.judge(sums.mixed > 0.0, misses);
        true
    }

    // What a whole step aims at.
    fn gap(&self, target: f64) -> f64 {
        let share = self.progress.bound().max(1.0) / 20.0;
        1.02 * (target - self.progress.bound()).min(share) + 1.0
    }

    // Lengthens the steps behind a gain, and shortens them behind enough misses.
    fn judge(&mut self, ahead: bool, misses: u32)
        ensures { self.new ≡ self.old }
    {
        if self.keep_better() {
            self.missed = 0;
            if ahead {
                self.factor = (1.1 * self.factor).min(2.0);
            }
            return;
        }
        self.missed = self.missed.saturating_add(1);
        if self.missed >= misses {
            self.missed = 0;
            self.factor *= 0.66;
        }
    }

    fn review(&mut self, target: f64)
        ensures { self.new ≡ self.old }
    {
        if self.progress.bound() - self.mark < 0.01 * (target - self.progress.bound()) {
            self.weight *= 0.5;
        }
        self.mark = self.progress.bound();
    }
}
