//! What steps have come to: bounds, the sites that are taken, and how often they are.
ghost use Rattle.std.specs.Prelude.{◌≡◌, length, IfOk};

use crate::choosing::{Count, NO_PICK, Pick, choose};
use crate::site::{Site, smooth_shares, take_shares};
use instance_store::{Instance, NoMemory};
use std::alloc::Global;
use std::marker::Model;

// How near to the cost a bound has to come: costs are whole millionths, and duals lose a little when they are rounded.
const LEAST_LEFT: f64 = 0.9;

/// The bounds at the duals that are evaluated and at the best, in millionths, the sites that are taken
/// there, by place, and how often each site was taken.
#[derive(Drop)]
pub struct Progress {
    taken: Vec<bool>,
    best_taken: Vec<bool>,
    // The share of evaluations that take each site, smoothed.
    shares: Vec<f64>,
    picks: Vec<Pick>,
    count: Count,
    bound: f64,
    best_bound: f64,
    // The prices of the number of open sites.
    extra: f64,
    best_extra: f64,
}

impl Model for Progress {
    ghost use Rattle.std.specs.Prelude.{ℕ};

    ghost Value = { ℕ };

    ghost use Rattle.dual_steps.specs.Arrays.{site_count, AreOfSites};

    ghost view = { site_count };

    ghost invariant = { AreOfSites };
}

impl Progress {
    /// Before the first evaluation. It fails only where memory runs out.
    pub fn of(alloc: Global, inst: &Instance) -> Result<Progress, NoMemory>
        ensures { IfOk result (λ p. p ≡ length inst.now.sites) }
    {
        let (lo, hi) = inst.count();
        let count = Count {
            lo: lo as usize,
            hi: hi as usize,
        };
        let taken = vec![in alloc; false; inst.sites()]?;
        let best_taken = vec![in alloc; false; inst.sites()]?;
        let shares = vec![in alloc; 0.0; inst.sites()]?;
        let picks = vec![in alloc; NO_PICK; inst.sites()]?;
        Ok(Progress {
            taken,
            best_taken,
            shares,
            picks,
            count,
            bound: 0.0,
            best_bound: 0.0,
            extra: 0.0,
            best_extra: 0.0,
        })
    }

    /// The bound at the best duals, in millionths.
    pub fn bound(&self) -> f64 {
        self.best_bound
    }

    /// Whether no plan that costs less than `target` millionths is left, as far as floats show it.
    pub fn reaches(&self, target: f64) -> bool {
        target - self.best_bound <= LEAST_LEFT
    }

    /// The sites that are taken at the best duals, by place.
    pub fn open(&self) -> &[bool]
        ensures { length result.now ≡ self.now }
    {
        &self.best_taken
    }

    /// How often each site is taken by smoothed steps, between 0 and 1, by place.
    pub fn shares(&self) -> &[f64]
        ensures { length result.now ≡ self.now }
    {
        &self.shares
    }

    /// The price of the number of open sites at the best duals.
    pub fn count_price(&self) -> f64 {
        self.best_extra
    }

    /// The bound at the duals that are evaluated.
    pub fn last_bound(&self) -> f64 {
        self.bound
    }

    /// The price of the number of open sites at the duals that are evaluated.
    pub fn last_count_price(&self) -> f64 {
        self.extra
    }

    /// The sites that are taken at the duals that are evaluated, by place.
    pub fn taken(&self) -> &[bool]
        ensures { length result.now ≡ self.now }
    {
        &self.taken
    }

    /// Takes sites at these slacks of duals, of which `sum` is the sum.
    pub fn evaluate(&mut self, sum: f64, sites: &[Site], slacks: &[f64])
        requires sites { length sites.now ≡ self.old }
        requires slacks { length slacks.now ≡ self.old }
        ensures { self.new ≡ self.old }
    {
        let chosen = choose(
            sites,
            slacks,
            self.count,
            self.extra,
            &mut self.taken,
            &mut self.picks,
        );
        self.bound = sum + chosen.sum;
        self.extra = chosen.extra;
    }

    /// Whether the bound at the duals that are evaluated is greater than the best.
    pub fn is_better(&self) -> bool {
        self.bound > self.best_bound
    }

    /// Takes the duals that are evaluated as the best.
    pub fn keep(&mut self)
        ensures { self.new ≡ self.old }
    {
        self.best_taken.copy_from_slice(&self.taken);
        self.best_bound = self.bound;
        self.best_extra = self.extra;
    }

    /// Mixes so much of the sites that are taken at the duals that are evaluated into the shares.
    pub fn smooth(&mut self, weight: f64)
        ensures { self.new ≡ self.old }
    {
        smooth_shares(&self.taken, &mut self.shares, weight);
    }

    /// Takes these shares, by the places of the sites.
    pub(crate) fn resume(&mut self, shares: &[f64])
        ensures { self.new ≡ self.old }
    {
        take_shares(shares, &mut self.shares);
    }
}
