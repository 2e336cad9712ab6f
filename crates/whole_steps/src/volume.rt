//! Smoothed steps, which raise the bound and tell how often each site and lane is taken.
ghost use Rattle.std.specs.Prelude.{◌≡◌, length};

use crate::WholeSteps;
use crate::packing::{smooth_lanes, smooth_sites};
use dual_steps::customer::{
    FLAT, mixing_weight, restart_smooth, slope_products, smooth_norm, smooth_slopes, step_smoothly,
};

// The greatest weight of new slopes among the smoothed ones.
const WEIGHT: f64 = 0.2;

// After so many steps smoothed ones end where they have gained less than such a part of what is left.
const REVIEW: u32 = 10;

const LEAST_PART: f64 = 0.05;

impl WholeSteps {
    /// Takes smoothed steps towards a bound of `target` millionths, up to so many, while they gain. The first point
    /// has this weight in the shares.
    pub fn volume(&mut self, target: f64, steps: u32, weight: f64)
        ensures { self.new ≡ self.old }
    {
        self.begin_smooth(weight);
        let mut mark = self.progress.bound();
        for step in 0..steps {
            if self.progress.reaches(target) || !self.step(target) {
                return;
            }
            if step % REVIEW == REVIEW - 1 {
                let bound = self.progress.bound();
                if bound - mark < LEAST_PART * (target - bound) {
                    return;
                }
                mark = bound;
            }
        }
    }

    /// Takes smoothed steps towards a bound of `target` millionths, so many, for the sake of the shares.
    pub fn average(&mut self, target: f64, steps: u32)
        ensures { self.new ≡ self.old }
    {
        self.begin_smooth(1.0);
        for _step in 0..steps {
            if self.progress.reaches(target) || !self.step(target) {
                return;
            }
        }
    }

    fn begin_smooth(&mut self, weight: f64)
        ensures { self.new ≡ self.old }
    {
        if !self.is_smooth {
            restart_smooth(&mut self.customers);
            self.mix(weight);
            self.is_smooth = true;
        }
    }

    // Mixes so much of what is taken into the shares.
    fn mix(&mut self, weight: f64)
        ensures { self.new ≡ self.old }
    {
        smooth_lanes(self.progress.taken(), &self.rows, &mut self.lanes, weight);
        smooth_sites(self.progress.taken(), &mut self.shares, weight);
        self.progress.smooth(weight);
    }

    // One step; no where no direction is left, or no length.
    fn step(&mut self, target: f64) -> bool
        ensures { self.new ≡ self.old }
    {
        let norm = smooth_norm(&mut self.customers);
        if norm < FLAT || self.gait.is_spent() {
            return false;
        }
        let stride = self.gait.factor * self.gap(target) / norm;
        step_smoothly(&mut self.customers, stride);
        self.evaluate();
        let sums = slope_products(&self.customers);
        let weight = mixing_weight(sums, WEIGHT);
        smooth_slopes(&mut self.customers, weight);
        self.mix(weight);
        let gained = self.keep_better();
        self.gait = self.gait.after(gained, sums.mixed >= 0.0);
        true
    }

    // What a whole step aims at.
    fn gap(&self, target: f64) -> f64 {
        target - self.progress.bound() + 0.0005 * target.abs()
    }
}
