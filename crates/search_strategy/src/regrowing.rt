//! What is tried in the leaves of a tree that was carried over edits, where no site has a capacity: a plan near the
//! carried one before anything else, then few steps in the box of the instance, and in each leaf its own duals, with
//! the change that these steps brought, before steps of its own.
ghost use Rattle.std.specs.Prelude.{◌≡◌, IfOk, length};
ghost use Rattle.dual_steps.specs.Sizes.{Suits as HasLanes};
ghost use Rattle.strategy_port.specs.Scene.{IsScene};
ghost use Rattle.search_strategy.specs.Sizes.{Suits};

use crate::constants::{
    HINTS, NODE_FACTOR, ROOT_GAIN, ROOT_ROUNDS, ROUND_FACTOR, ROUND_MISSES, ROUND_STEPS,
};
use crate::splitting::bound_of;
use crate::stepping::{Stage, Stepping, Work, gains, left, rounded, target};
use dual_steps::Steps;
use dual_value::{Path, PreparedBox};
use instance_store::NoMemory;
use strategy_port::{Move, Scene};

impl<'a> Stepping<'a> {
    /// Another leaf of the tree comes, or the same one begins anew.
    pub(crate) fn begin_leaf(&mut self, stage: Stage)
        ensures steps { self.new.steps ≡ self.old.steps }
        ensures plans { self.new.plans ≡ self.old.plans }
    {
        self.rounds = 0;
        self.stage = stage;
    }

    /// What to try next in it. It fails only where memory runs out.
    pub(crate) fn regrow(&mut self, scene: &Scene<'_, '_>) -> Result<Move, NoMemory>
        requires { Suits scene.now self.old.steps self.old.plans.flags.items }
    {
        match self.stage {
            Stage::Near => {
                self.stage = Stage::Due;
                self.plans.seek_near(scene, self.regrowth.near())
            }
            Stage::Due => {
                self.stage = if self.regrowth.is_due(scene.cost) {
                    Stage::Whole
                } else {
                    Stage::Own
                };
                Ok(Move::Nothing)
            }
            Stage::Whole => self.step_whole(scene),
            Stage::WholePlans(k) => self.seek_whole_plan(scene, k),
            Stage::WholeReview => self.review_whole(scene),
            Stage::Own => self.propose_best(scene),
            _ => Ok(self.resume_leaf(scene)),
        }
    }

    // A round of steps in the box of the instance.
    fn step_whole(&mut self, scene: &Scene<'_, '_>) -> Result<Move, NoMemory>
        requires { Suits scene.now self.old.steps self.old.plans.flags.items }
    {
        let path = Path::root(scene.alloc);
        let whole = PreparedBox::of(scene.alloc, scene.boxed.instance(), &path)?;
        self.steps.enter(&whole);
        if self.rounds == 0 {
            self.regrowth.begin(&self.first)?;
            self.steps.restart(ROUND_FACTOR);
            self.resume_first(scene);
        }
        self.before = left(&self.steps, scene);
        let target = goal(&self.steps, scene);
        self.steps
            .volume(scene.order, target, ROUND_STEPS, ROUND_MISSES);
        self.rounds = self.rounds.saturating_add(1);
        self.stage = Stage::WholePlans(0);
        Ok(Move::Nothing)
    }

    // Seeks a plan by the hint at this place behind such a round.
    fn seek_whole_plan(&mut self, scene: &Scene<'_, '_>, k: usize) -> Result<Move, NoMemory>
        requires { Suits scene.now self.old.steps self.old.plans.flags.items }
    {
        if k >= HINTS.len() {
            self.stage = Stage::WholeReview;
            return Ok(Move::Nothing);
        }
        self.stage = Stage::WholePlans(k + 1);
        self.plans
            .seek_anywhere(scene, HINTS[k], self.steps.progress())
    }

    // Takes another round, or keeps what these came to.
    fn review_whole(&mut self, scene: &Scene<'_, '_>) -> Result<Move, NoMemory>
        requires { Suits scene.now self.old.steps self.old.plans.flags.items }
    {
        let left = left(&self.steps, scene);
        if self.rounds < ROOT_ROUNDS && gains(self.before, left, ROOT_GAIN) {
            self.stage = Stage::Whole;
            return Ok(Move::Nothing);
        }
        self.stage = Stage::Own;
        self.see_left(scene, left);
        let found = rounded(&mut self.steps, scene, 1, false)?;
        self.first.take_steps(self.steps.values(), 1);
        self.first.take_smoothed(&self.steps);
        self.regrowth.end(&self.first);
        if let Move::Duals(duals) = &found {
            self.first.take_duals(duals);
        }
        Ok(found)
    }

    // Proposes the best of the leaf's own duals, these with the change of those of the instance's box, and the latter,
    // each with the price of the count that suits it there, where that isn't what the leaf has anyway.
    fn propose_best(&mut self, scene: &Scene<'_, '_>) -> Result<Move, NoMemory>
        requires { Suits scene.now self.old.steps self.old.plans.flags.items }
    {
        self.stage = Stage::Resume;
        let scale = scene.duals.q();
        self.steps.enter(scene.boxed);
        let own = bound_from(&mut self.steps, scene, scene.duals.values(), scale);
        if self.regrowth.is_stepped() {
            let (former, q) = (&self.first.stepped, self.first.step_scale);
            let known = bound_from(&mut self.steps, scene, former, q);
            let shifted = self.regrowth.shifted(scene.duals);
            let changed = bound_from(&mut self.steps, scene, shifted, scale);
            if changed > own && changed >= known {
                return rounded(&mut self.steps, scene, scale, true);
            }
            self.steps.start_from(scene.order, former, q);
            if known > own {
                return rounded(&mut self.steps, scene, 1, true);
            }
            self.steps
                .start_from(scene.order, scene.duals.values(), scale);
        }
        if own <= bound_of(scene) + 1.0 {
            return Ok(Move::Nothing);
        }
        rounded(&mut self.steps, scene, scale, true)
    }

    // Lets steps in the leaf's box begin from its best duals, with what was smoothed in the instance's.
    fn resume_leaf(&mut self, scene: &Scene<'_, '_>) -> Move
        requires { Suits scene.now self.old.steps self.old.plans.flags.items }
    {
        self.steps
            .start_from(scene.order, scene.duals.values(), scene.duals.q());
        if self.first.is_smooth {
            self.steps
                .resume(&self.first.slopes, &self.first.shares, NODE_FACTOR);
        }
        self.rounds = 0;
        self.work = Work::Leaf;
        self.stage = Stage::Steps;
        Move::Nothing
    }
}

// The bound of the box at these numbers, of which `scale` are a millionth, in millionths: the steps then stand there.
fn bound_from(steps: &mut Steps<'_>, scene: &Scene<'_, '_>, values: &[i128], scale: u32) -> f64
    requires { HasLanes steps.old scene.now.order.now }
    ensures { steps.new ≡ steps.old }
{
    steps.start_from(scene.order, values, scale);
    steps.progress().bound()
}

// What the best plan costs, and where none is known what it may cost, in millionths.
fn goal(steps: &Steps<'_>, scene: &Scene<'_, '_>) -> f64 {
    if scene.cost.is_none() {
        return 1.1 * steps.progress().bound().max(1.0);
    }
    target(scene)
}
