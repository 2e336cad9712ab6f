//! Smoothed steps, which raise the bound and tell how often each site is taken.
ghost use Rattle.std.specs.Prelude.{◌≡◌, length};

use crate::CapSteps;
use dual_steps::customer::{
    FLAT, mixing_weight, restart_smooth, slope_products, smooth_norm, smooth_slopes, step_smoothly,
};

impl CapSteps {
    /// Takes smoothed steps towards a bound of `target` millionths, up to so many.
    pub fn volume(&mut self, target: f64, steps: u32)
        ensures { self.new ≡ self.old }
    {
        self.begin_smooth();
        for _step in 0..steps {
            if self.progress.reaches(target) || !self.step(target) {
                return;
            }
        }
    }

    fn begin_smooth(&mut self)
        ensures { self.new ≡ self.old }
    {
        if !self.is_smooth {
            restart_smooth(&mut self.customers);
            self.progress.smooth(1.0);
            self.gait = self.gait.marked(self.progress.bound());
            self.is_smooth = true;
        }
    }

    // One step; no where no direction is left, or no length.
    fn step(&mut self, target: f64) -> bool
        ensures { self.new ≡ self.old }
    {
        let norm = smooth_norm(&mut self.customers);
        if norm < FLAT || self.gait.is_spent() {
            return false;
        }
        let stride = self.gait.factor * self.gap(target) / norm;
        step_smoothly(&mut self.customers, stride);
        self.evaluate();
        let sums = slope_products(&self.customers);
        let weight = mixing_weight(sums, self.gait.weight);
        smooth_slopes(&mut self.customers, weight);
        self.progress.smooth(weight);
        let gained = self.progress.is_better();
        if gained {
            self.keep_best();
        }
        self.gait = self
            .gait
            .after(gained, sums.mixed >= 0.0, self.progress.bound());
        true
    }

    // What a whole step aims at.
    fn gap(&self, target: f64) -> f64 {
        target - self.progress.bound() + 0.0005 * target.abs()
    }
}
