//! The site on which to split where little is left: the box's two parts are looked into for some of the sites.
ghost use Rattle.std.specs.Prelude.{◌≡◌, length};
ghost use Rattle.dual_steps.specs.Sizes.{Suits as HasLanes};

use crate::constants::{
    FAVOUR_MISSES, FAVOUR_ROUNDS, FAVOUR_STEPS, FAVOURED, LEAST_DOUBT, LEAST_GAIN, LOOK_FACTOR,
    LOOK_STEPS, LOOKED_AT, LOOKED_DOUBT, NODE_FACTOR, NODE_MISSES, SETTLED,
};
use crate::splitting::{bound_of, doubt, most_doubtful};
use crate::stepping::target;
use dual_steps::Steps;
use dual_value::SiteState;
use instance_store::{Instance, NoMemory};
use std::alloc::Global;
use strategy_port::Scene;

/// The arrays in which the parts of a box are looked into.
#[derive(Drop)]
pub(crate) struct Lookout {
    // What was smoothed before: slopes by customer, and shares by site.
    slopes: Vec<f64>,
    shares: Vec<f64>,
    // The sites that are looked at, by how much doubt there is.
    sites: Vec<usize>,
}

impl Lookout {
    /// For this instance. It fails only where memory runs out.
    pub(crate) fn of(alloc: Global, inst: &Instance) -> Result<Lookout, NoMemory> {
        Ok(Lookout {
            slopes: vec![in alloc; 0.0; inst.custs()]?,
            shares: vec![in alloc; 0.0; inst.sites()]?,
            sites: vec![in alloc; 0; LOOKED_AT]?,
        })
    }

    /// The free site whose two parts gain most, among those most in doubt, with costs that favour the flagged sites. What
    /// is smoothed is that of such costs then, and the best duals of the steps make no sense until they start anew.
    pub(crate) fn best_place(
        &mut self,
        steps: &mut Steps<'_>,
        scene: &Scene<'_, '_>,
        flags: &[bool],
    ) -> Option<usize>
        requires { HasLanes steps.old scene.now.order.now }
        ensures { steps.new ≡ steps.old }
    {
        let left = target(scene) - bound_of(scene);
        let bonus = (left / FAVOURED).floor();
        steps.favour(flags, bonus);
        let target = target(scene) - bonus * count(flags);
        self.settle(steps, scene, target);
        let aim = Aim {
            target,
            bound: steps.progress().bound(),
            left,
        };
        let best = self.doubtful_place(steps, scene, aim);
        steps.favour(flags, -bonus);
        best
    }

    // Takes rounds of steps until shares settle.
    fn settle(&mut self, steps: &mut Steps<'_>, scene: &Scene<'_, '_>, target: f64)
        requires { HasLanes steps.old scene.now.order.now }
        ensures { steps.new ≡ steps.old }
    {
        steps.set_factor(NODE_FACTOR);
        for _round in 0..FAVOUR_ROUNDS {
            copy_shares(steps.progress().shares(), &mut self.shares);
            steps.volume(scene.order, target, FAVOUR_STEPS, FAVOUR_MISSES);
            if distance(steps.progress().shares(), &self.shares) < SETTLED {
                return;
            }
        }
    }

    // The site whose two parts gain most, from what the steps have come to. What is smoothed stays.
    fn doubtful_place(
        &mut self,
        steps: &mut Steps<'_>,
        scene: &Scene<'_, '_>,
        aim: Aim,
    ) -> Option<usize>
        requires { HasLanes steps.old scene.now.order.now }
        ensures { steps.new ≡ steps.old }
    {
        let count = doubtful_sites(scene, steps.progress().shares(), &mut self.sites);
        steps.fill_slopes(&mut self.slopes);
        copy_shares(steps.progress().shares(), &mut self.shares);
        steps.set_aside();
        let best = self.best_of(steps, scene, aim, count);
        steps.resume(&self.slopes, &self.shares, NODE_FACTOR);
        best
    }

    // The best of the first sites in doubt, so many of them.
    fn best_of(
        &self,
        steps: &mut Steps<'_>,
        scene: &Scene<'_, '_>,
        aim: Aim,
        count: usize,
    ) -> Option<usize>
        requires { HasLanes steps.old scene.now.order.now }
        ensures { steps.new ≡ steps.old }
    {
        let mut best = None;
        let mut greatest = 0.0;
        for k in 0..count {
            if k < self.sites.len() {
                let site = self.sites[k];
                let worth = worth(steps, scene, aim, site, greatest);
                if worth > greatest {
                    greatest = worth;
                    best = Some(site);
                }
            }
        }
        best
    }
}

// What steps with favoured sites go to and have come to, and how much is left without.
#[derive(Clone, Copy)]
struct Aim {
    target: f64,
    bound: f64,
    left: f64,
}

// The product of what the two parts of the box gain for this site, each as far as that counts; 0 where the first part
// gains so little that it can't be more than the `least`.
fn worth(steps: &mut Steps<'_>, scene: &Scene<'_, '_>, aim: Aim, site: usize, least: f64) -> f64
    requires { HasLanes steps.old scene.now.order.now }
    ensures { steps.new ≡ steps.old }
{
    let closed = gain(steps, scene, aim, site, SiteState::Closed);
    if closed * aim.left <= least {
        return 0.0;
    }
    let opened = gain(steps, scene, aim, site, SiteState::Opened);
    closed * opened
}

// What steps gain in the part of the box in which the site is in this state, between the least that counts and all that
// is left.
fn gain(
    steps: &mut Steps<'_>,
    scene: &Scene<'_, '_>,
    aim: Aim,
    site: usize,
    state: SiteState,
) -> f64
    requires { HasLanes steps.old scene.now.order.now }
    ensures { steps.new ≡ steps.old }
{
    let bound = steps.bound_ahead(
        scene.order,
        site,
        state,
        LOOK_FACTOR,
        aim.target,
        LOOK_STEPS,
        NODE_MISSES,
    );
    (bound - aim.bound).max(LEAST_GAIN * aim.left).min(aim.left)
}

fn count(flags: &[bool]) -> f64 {
    let mut count = 0.0;
    for i in 0..flags.len() {
        if flags[i] {
            count += 1.0;
        }
    }
    count
}

fn copy_shares(from: &[f64], to: &mut [f64])
    ensures { length to.new ≡ length to.old }
{
    for i in 0..to.len() {
        if i < from.len() {
            to[i] = from[i];
        }
    }
}

// By how much shares differ in sum.
fn distance(now: &[f64], before: &[f64]) -> f64 {
    let mut sum = 0.0;
    for i in 0..now.len() {
        if i < before.len() {
            sum += (now[i] - before[i]).abs();
        }
    }
    sum
}

// Fills in the free sites in doubt, the greatest doubt first, as far as there is room and as it is near enough to
// the greatest. The answer is how many they are.
fn doubtful_sites(scene: &Scene<'_, '_>, shares: &[f64], sites: &mut [usize]) -> usize
    ensures { length sites.new ≡ length sites.old }
{
    let mut count = 0usize;
    let mut least = LEAST_DOUBT;
    let mut last = None;
    for k in 0..sites.len() {
        let Some(site) = most_doubtful(scene.boxed, shares, least, last) else {
            return count;
        };
        if k == 0 && site < shares.len() {
            least = least.max(LOOKED_DOUBT * doubt(shares[site]));
        }
        sites[k] = site;
        count = k + 1;
        last = Some(site);
    }
    count
}
