//! What is tried where no site has a capacity: steps in floats, whose duals are rounded, and plans around the sites
//! that they take.
ghost use Rattle.std.specs.Prelude.{◌≡◌, IsTrue, length};
ghost use Rattle.dual_steps.specs.Sizes.{Suits as HasLanes};
ghost use Rattle.lane_order.specs.Order.{IsOrderOf};
ghost use Rattle.strategy_port.specs.Scene.{IsScene};
ghost use Rattle.search_strategy.specs.Sizes.{Suits};

use crate::beginning::{Beginning, Regrowth};
use crate::constants::{
    CLOSING_ROUNDS, CLOSING_STEPS, CLOSING_SWEEPS, DECIDED, HINTS, LAST_PART, LAST_STEPS,
    LEAF_GAIN, LEAF_ROUNDS, MANY_BOXES, NARROW_PART, NEAR, NODE_FACTOR, NODE_MISSES, NODE_STEPS,
    PLAIN_BOXES, RESUMED_FACTOR, ROUND_FACTOR, ROUND_MISSES, ROUND_STEPS, ROUND_SWEEPS, ROUNDS,
    STUCK_GAIN, TIGHT_PART, TIGHT_STEPS, TIGHT_SWEEPS,
};
use crate::course::Course;
use crate::full::price_in;
use crate::kept::FirstBox;
use crate::lookout::Lookout;
use crate::plans::{Hint, Plans};
use crate::splitting::{bound_of, has_many_free, split_place};
use crate::widening::widen;
use dual_steps::Steps;
use dual_value::Duals;
use instance_store::{Instance, NoMemory};
use lane_order::LaneOrder;
use location_terms::MAX_SCALE;
use std::alloc::Global;
use std::num::{nearest_u64_to_f64, nearest_usize_to_f64};
use strategy_port::{Move, Scene, Wish};

// What comes next in the box at work.
#[derive(Clone, Copy)]
pub(crate) enum Stage {
    // To enter the box with the steps.
    Start,
    // To seek a plan at the sites without slack.
    Seed,
    // To take steps.
    Steps,
    // To seek a plan by the hint at this place, and by those behind it.
    Plans(usize),
    // To propose the duals of the steps, rounded to millionths.
    Round,
    // To propose them rounded to parts of millionths, where only a few are left.
    Fine,
    // To see what came of it.
    Review,
    // In a leaf of a carried tree: to seek a plan near the carried one.
    Near,
    // To see whether steps in the box of the instance are due.
    Due,
    // To take a round of them.
    Whole,
    // To seek plans by the hint at this place behind it, and by those behind.
    WholePlans(usize),
    // To see what the round has left.
    WholeReview,
    // To propose the best of the leaf's own duals, these with the change of those of the instance's box, and the latter.
    Own,
    // To let steps begin from the best duals.
    Resume,
}

// What the steps are for.
#[derive(Clone, Copy)]
pub(crate) enum Work {
    // Rounds of many steps in the first box of a search.
    Root,
    // A few steps in another box.
    Node,
    // The same in a leaf of a carried tree, and again while they gain.
    Leaf,
    // Rounds to exactly the target in such a box, which may close without a split.
    Closing,
}

/// The steps of a search, and where they stand in the box at work.
#[derive(Drop)]
pub(crate) struct Stepping<'a> {
    pub(crate) steps: Steps<'a>,
    pub(crate) plans: Plans,
    pub(crate) stage: Stage,
    pub(crate) work: Work,
    course: Course,
    lookout: Lookout,
    // The bound with which the box was entered, in millionths.
    entered: f64,
    pub(crate) rounds: u32,
    // In how many boxes steps were begun.
    boxes: u32,
    // Whether the box of the instance was tight behind the steps there.
    is_close: bool,
    // Whether little was left there: without a number of sites no box is tight else.
    is_narrow: bool,
    // How much the best plan cost above the bound of the steps before the round.
    pub(crate) before: f64,
    // What is known of the box of the instance, and whether that came from a former search.
    pub(crate) first: FirstBox,
    is_known: bool,
    pub(crate) regrowth: Regrowth,
}

impl<'a> Stepping<'a> {
    /// Before the first box, with what is known before. It fails only where memory runs out.
    pub(crate) fn of(
        alloc: Global,
        inst: &'a Instance,
        order: &LaneOrder,
        beginning: Beginning,
    ) -> Result<Stepping<'a>, NoMemory>
        requires { IsOrderOf order.now inst.now }
    {
        let steps = Steps::of(alloc, inst, order)?;
        let plans = Plans::of(alloc, inst)?;
        let lookout = Lookout::of(alloc, inst)?;
        let Beginning {
            regrowth,
            first,
            is_known,
        } = beginning;
        Ok(Stepping {
            steps,
            plans,
            stage: Stage::Start,
            work: Work::Root,
            course: Course::new(),
            lookout,
            entered: 0.0,
            rounds: 0,
            boxes: 0,
            is_close: false,
            is_narrow: false,
            before: 0.0,
            first,
            is_known,
            regrowth,
        })
    }

    /// Another box comes.
    pub(crate) fn enter(&mut self) {
        self.stage = Stage::Start;
    }

    /// What to try next in it. It fails only where memory runs out.
    pub(crate) fn next(&mut self, scene: &Scene<'_, '_>) -> Result<Move, NoMemory>
        requires { IsScene scene.now }
    {
        if !suits(&self.steps, &self.plans, scene) {
            return Ok(Move::Done);
        }
        if scene.is_first && !self.is_starting() && !self.regrowth.is_carried() {
            self.first.take_duals(scene.duals);
        }
        match self.stage {
            Stage::Start => self.start(scene),
            Stage::Seed => self.seed(scene),
            Stage::Steps => self.take_steps(scene),
            Stage::Plans(k) => self.seek_plan(scene, k),
            Stage::Round => self.propose(scene),
            Stage::Fine => self.propose_finely(scene),
            Stage::Review => self.review(scene),
            _ => self.regrow(scene),
        }
    }

    /// On which site to split the box.
    pub(crate) fn wish(&mut self, scene: &Scene<'_, '_>) -> Option<Wish>
        requires { IsScene scene.now }
    {
        if let Some(place) = self.looked_place(scene) {
            return Some(Wish::Site(place));
        }
        let place = split_place(scene, None, self.steps.progress().shares())?;
        Some(Wish::Site(place))
    }

    // Where little is left: the site whose settling gains most.
    fn looked_place(&mut self, scene: &Scene<'_, '_>) -> Option<usize>
        requires { IsScene scene.now }
    {
        if !suits(&self.steps, &self.plans, scene)
            || !self.steps.is_smooth()
            || !self.is_stuck(scene, bound_of(scene))
            || !has_many_free(scene.boxed)
        {
            return None;
        }
        self.plans.flag_opened(scene);
        self.lookout
            .best_place(&mut self.steps, scene, &self.plans.flags)
    }

    // Whether so little is left that choices lie close to each other, and a number of sites is asked for, or many boxes
    // didn't suffice although little was left in that of the instance.
    fn is_tight(&self, scene: &Scene<'_, '_>, left: f64) -> bool {
        let is_long = self.is_narrow && self.boxes > PLAIN_BOXES;
        let is_due = self.steps.count_price() != 0 || is_long;
        is_due && 0.0 < left && left < TIGHT_PART * target(scene)
    }

    // Whether the box is tight, and what was done in it took off little of what is left. Where the box of the instance
    // was tight, or very many boxes didn't suffice, each tight box counts as such.
    fn is_stuck(&self, scene: &Scene<'_, '_>, bound: f64) -> bool {
        let left = target(scene) - bound;
        let is_slow = bound - self.entered < STUCK_GAIN * left;
        self.is_tight(scene, left) && (is_slow || self.is_close || self.boxes > MANY_BOXES)
    }

    // Whether it may pay to go on before the box is split.
    fn may_close(&self, scene: &Scene<'_, '_>) -> bool {
        is_near(&self.steps, scene) || self.is_stuck(scene, self.steps.progress().bound())
    }

    /// What is known of the first box.
    pub(crate) fn first_box(&self) -> &FirstBox {
        &self.first
    }

    // Enters the box, and lets the steps start from the best duals of the leaf, or begins with another leaf of a
    // carried tree.
    fn start(&mut self, scene: &Scene<'_, '_>) -> Result<Move, NoMemory>
        requires { Suits scene.now self.old.steps self.old.plans.flags.items }
    {
        self.entered = bound_of(scene);
        if self.regrowth.begins(scene.boxed.path())? {
            let stage = if scene.is_first {
                Stage::Near
            } else {
                Stage::Due
            };
            self.begin_leaf(stage);
            return Ok(Move::Nothing);
        }
        self.start_box(scene)
    }

    fn start_box(&mut self, scene: &Scene<'_, '_>) -> Result<Move, NoMemory>
        requires { Suits scene.now self.old.steps self.old.plans.flags.items }
    {
        self.steps.enter(scene.boxed);
        self.steps
            .start_from(scene.order, scene.duals.values(), scene.duals.q());
        self.stage = Stage::Steps;
        self.rounds = 0;
        self.boxes = self.boxes.saturating_add(1);
        if !scene.is_first {
            self.work = Work::Node;
            return Ok(Move::Nothing);
        }
        self.stage = Stage::Seed;
        self.work = Work::Root;
        self.course = Course::new();
        self.steps.restart(ROUND_FACTOR);
        self.go_on(scene)
    }

    // Lets the steps go on from where those of a former search were, if there was one, and proposes its duals.
    fn go_on(&mut self, scene: &Scene<'_, '_>) -> Result<Move, NoMemory>
        requires { Suits scene.now self.old.steps self.old.plans.flags.items }
    {
        if !self.is_known {
            return Ok(Move::Nothing);
        }
        let duals = self.first.former_duals()?;
        self.resume_first(scene);
        if self.first.is_smooth {
            self.course = Course::resumed();
        }
        Ok(Move::Duals(duals))
    }

    // Lets the steps go on from where those of a former search were in the box of the instance.
    pub(crate) fn resume_first(&mut self, scene: &Scene<'_, '_>)
        requires { Suits scene.now self.old.steps self.old.plans.flags.items }
        ensures steps { self.new.steps ≡ self.old.steps }
        ensures plans { self.new.plans ≡ self.old.plans }
    {
        self.first.fill(scene.duals);
        self.steps
            .start_from(scene.order, &self.first.stepped, self.first.step_scale);
        if self.first.is_smooth {
            self.steps
                .resume(&self.first.slopes, &self.first.shares, RESUMED_FACTOR);
        }
    }

    // Seeks a plan at the sites without slack.
    fn seed(&mut self, scene: &Scene<'_, '_>) -> Result<Move, NoMemory>
        requires { Suits scene.now self.old.steps self.old.plans.flags.items }
    {
        self.stage = Stage::Steps;
        self.plans.seek(scene, Hint::Tight, self.steps.progress())
    }

    // Takes the steps of a round, if another one is worth while.
    fn take_steps(&mut self, scene: &Scene<'_, '_>) -> Result<Move, NoMemory>
        requires { Suits scene.now self.old.steps self.old.plans.flags.items }
    {
        self.before = left(&self.steps, scene);
        match self.work {
            Work::Root => {
                if self.rounds >= ROUNDS || self.course.is_over() {
                    return self.end_rounds(scene);
                }
                self.stage = Stage::Plans(0);
                self.round(scene)?;
            }
            Work::Node | Work::Leaf => {
                self.stage = Stage::Round;
                self.node_steps(scene);
            }
            Work::Closing => {
                if self.rounds >= CLOSING_ROUNDS {
                    return Ok(Move::Done);
                }
                self.stage = Stage::Round;
                if self.is_tight(scene, left(&self.steps, scene)) && self.steps.is_plan_within() {
                    fit_in(&mut self.steps, scene)?;
                } else {
                    close_in(&mut self.steps, scene)?;
                }
            }
        }
        self.rounds = self.rounds.saturating_add(1);
        Ok(Move::Nothing)
    }

    // The steps of a round in the first box.
    fn round(&mut self, scene: &Scene<'_, '_>) -> Result<(), NoMemory>
        requires { Suits scene.now self.old.steps self.old.plans.flags.items }
    {
        let target = target(scene);
        if !self.course.is_exact() {
            self.steps
                .volume(scene.order, target, ROUND_STEPS, ROUND_MISSES);
            return Ok(());
        }
        self.refer_to_plan(scene);
        self.steps.polyak(scene.order, target, ROUND_STEPS);
        if self.course.is_near(left(&self.steps, scene), target) {
            self.steps
                .project(scene.alloc, scene.order, target, ROUND_SWEEPS)?;
        }
        Ok(())
    }

    // The steps in another box.
    fn node_steps(&mut self, scene: &Scene<'_, '_>)
        requires { Suits scene.now self.old.steps self.old.plans.flags.items }
    {
        let target = target(scene);
        if !is_near(&self.steps, scene) {
            let steps = if self.is_tight(scene, left(&self.steps, scene)) {
                TIGHT_STEPS
            } else {
                NODE_STEPS
            };
            self.steps.set_factor(NODE_FACTOR);
            self.steps.volume(scene.order, target, steps, NODE_MISSES);
            return;
        }
        self.refer_to_plan(scene);
        self.steps.polyak(scene.order, target, NODE_STEPS);
        self.steps.snap(scene.order, target);
    }

    // Lets the steps refer to the best plan. Whether that is in the box.
    fn refer_to_plan(&mut self, scene: &Scene<'_, '_>) -> bool
        requires { Suits scene.now self.old.steps self.old.plans.flags.items }
        ensures steps { self.new.steps ≡ self.old.steps }
        ensures flags { length self.new.plans.flags.items ≡ length self.old.plans.flags.items }
    {
        self.plans.flag_opened(scene);
        self.steps.refer_to(scene.order, &self.plans.flags)
    }

    // Seeks a plan by the hint at this place.
    fn seek_plan(&mut self, scene: &Scene<'_, '_>, k: usize) -> Result<Move, NoMemory>
        requires { Suits scene.now self.old.steps self.old.plans.flags.items }
    {
        if k >= HINTS.len() {
            self.stage = Stage::Round;
            return Ok(Move::Nothing);
        }
        self.stage = Stage::Plans(k + 1);
        self.plans.seek(scene, HINTS[k], self.steps.progress())
    }

    // Proposes the best duals of the steps.
    fn propose(&mut self, scene: &Scene<'_, '_>) -> Result<Move, NoMemory>
        requires { Suits scene.now self.old.steps self.old.plans.flags.items }
    {
        self.stage = Stage::Fine;
        if !self.is_at_root() {
            return rounded(&mut self.steps, scene, 1, self.regrowth.is_carried());
        }
        snap_near(&mut self.steps, scene);
        let found = rounded(&mut self.steps, scene, 1, false)?;
        self.first.take_steps(self.steps.values(), 1);
        self.first.take_smoothed(&self.steps);
        Ok(found)
    }

    // Proposes them once more, where so few millionths are left that parts of them count.
    fn propose_finely(&mut self, scene: &Scene<'_, '_>) -> Result<Move, NoMemory>
        requires { Suits scene.now self.old.steps self.old.plans.flags.items }
    {
        self.stage = Stage::Review;
        let customers = nearest_usize_to_f64(scene.boxed.instance().custs());
        if left(&self.steps, scene) > 4.0 + customers / 8.0 {
            return Ok(Move::Nothing);
        }
        rounded(
            &mut self.steps,
            scene,
            MAX_SCALE,
            self.regrowth.is_carried(),
        )
    }

    // Sees what a round has left, and whether to go on.
    fn review(&mut self, scene: &Scene<'_, '_>) -> Result<Move, NoMemory>
        requires { Suits scene.now self.old.steps self.old.plans.flags.items }
    {
        self.stage = Stage::Steps;
        let left = left(&self.steps, scene);
        match self.work {
            Work::Root => self.course.advance(self.before, left, target(scene)),
            Work::Leaf => {
                if self.rounds < LEAF_ROUNDS && gains(self.before, left, LEAF_GAIN) {
                    return Ok(Move::Nothing);
                }
                if !self.regrowth.is_stepped() {
                    self.begin_leaf(Stage::Whole);
                    return Ok(Move::Nothing);
                }
                return self.review_node(scene);
            }
            Work::Node => return self.review_node(scene),
            Work::Closing => {
                if left > 0.5 * self.before {
                    return Ok(Move::Done);
                }
            }
        }
        Ok(Move::Nothing)
    }

    // Behind the rounds in the first box: goes on where the bound may come up to the target.
    fn end_rounds(&mut self, scene: &Scene<'_, '_>) -> Result<Move, NoMemory>
        requires { Suits scene.now self.old.steps self.old.plans.flags.items }
    {
        let left = left(&self.steps, scene);
        self.see_left(scene, left);
        if !self.may_close(scene) {
            return Ok(Move::Done);
        }
        self.close(scene)
    }

    /// Sees how much steps in the box of the instance have left.
    pub(crate) fn see_left(&mut self, scene: &Scene<'_, '_>, left: f64)
        ensures steps { self.new.steps ≡ self.old.steps }
        ensures plans { self.new.plans ≡ self.old.plans }
    {
        self.is_close = self.is_tight(scene, left);
        self.is_narrow = left < NARROW_PART * target(scene);
    }

    // Sees whether the box may close without a split.
    fn review_node(&mut self, scene: &Scene<'_, '_>) -> Result<Move, NoMemory>
        requires { Suits scene.now self.old.steps self.old.plans.flags.items }
    {
        if !self.may_close(scene) && !is_decided(self.steps.progress().shares()) {
            return Ok(Move::Done);
        }
        self.close(scene)
    }

    // Goes on to exactly the target.
    fn close(&mut self, scene: &Scene<'_, '_>) -> Result<Move, NoMemory>
        requires { Suits scene.now self.old.steps self.old.plans.flags.items }
    {
        self.stage = Stage::Steps;
        self.work = Work::Closing;
        self.rounds = 0;
        let is_within = self.refer_to_plan(scene);
        if is_within || !self.is_tight(scene, left(&self.steps, scene)) {
            return Ok(Move::Nothing);
        }
        let found = self.plans.seek_within(scene, self.steps.progress())?;
        self.steps.refer_to(scene.order, &self.plans.flags);
        Ok(found)
    }

    fn is_starting(&self) -> bool {
        matches!(self.stage, Stage::Start)
    }

    fn is_at_root(&self) -> bool {
        match self.work {
            Work::Root => true,
            Work::Node | Work::Leaf | Work::Closing => false,
        }
    }
}

// Whether steps and flags are for an instance as large as the leaf's.
fn suits(steps: &Steps<'_>, plans: &Plans, scene: &Scene<'_, '_>) -> bool
    requires { IsScene scene.now }
    ensures { IsTrue result → Suits scene.now steps.now plans.now.flags.items }
{
    let inst = scene.boxed.instance();
    steps.progress().shares().len() == inst.sites()
        && steps.values().len() == inst.custs()
        && plans.flags.len() == inst.sites()
}

/// What the best plan costs, in millionths: the goal of all steps. 0 where no plan is known.
pub(crate) fn target(scene: &Scene<'_, '_>) -> f64 {
    nearest_u64_to_f64(scene.cost.unwrap_or(0))
}

/// How much the best plan costs above the bound that the steps have come to, in millionths.
pub(crate) fn left(steps: &Steps<'_>, scene: &Scene<'_, '_>) -> f64 {
    target(scene) - steps.progress().bound()
}

/// Whether steps took off such a part of what was left before them.
pub(crate) fn gains(before: f64, left: f64, part: f64) -> bool {
    left <= (1.0 - part) * before
}

// Whether so little is left that the bound may come up to the target.
fn is_near(steps: &Steps<'_>, scene: &Scene<'_, '_>) -> bool {
    left(steps, scene) < NEAR * target(scene)
}

// Whether each site is taken by nearly all evaluations or by nearly none.
fn is_decided(shares: &[f64]) -> bool {
    for i in 0..shares.len() {
        if DECIDED < shares[i] && shares[i] < 1.0 - DECIDED {
            return false;
        }
    }
    true
}

// Puts the duals onto fractions of the costs' unit, where that may be all that is missing.
fn snap_near(steps: &mut Steps<'_>, scene: &Scene<'_, '_>)
    requires { HasLanes steps.old scene.now.order.now }
    ensures { steps.new ≡ steps.old }
{
    if is_near(steps, scene) {
        steps.snap(scene.order, target(scene));
    }
}

// Steps to exactly the target, sweeps and snaps.
fn close_in(steps: &mut Steps<'_>, scene: &Scene<'_, '_>) -> Result<(), NoMemory>
    requires { HasLanes steps.old scene.now.order.now }
    ensures { steps.new ≡ steps.old }
{
    let target = target(scene);
    let count = if left(steps, scene) < LAST_PART * target {
        LAST_STEPS
    } else {
        CLOSING_STEPS
    };
    steps.polyak(scene.order, target, count);
    steps.project(scene.alloc, scene.order, target, CLOSING_SWEEPS)?;
    steps.snap(scene.order, target);
    Ok(())
}

// Sweeps and snaps.
fn fit_in(steps: &mut Steps<'_>, scene: &Scene<'_, '_>) -> Result<(), NoMemory>
    requires { HasLanes steps.old scene.now.order.now }
    ensures { steps.new ≡ steps.old }
{
    steps.project(scene.alloc, scene.order, target(scene), TIGHT_SWEEPS)?;
    snap_near(steps, scene);
    Ok(())
}

/// The best duals of the steps, rounded to parts of a millionth, `scale` of them.
pub(crate) fn rounded(
    steps: &mut Steps<'_>,
    scene: &Scene<'_, '_>,
    scale: u32,
    is_carried: bool,
) -> Result<Move, NoMemory>
    requires { HasLanes steps.old scene.now.order.now }
{
    steps.round(scene.order, scale);
    let mut values = vec![in scene.alloc; 0; steps.values().len()]?;
    widen(steps.values(), &mut values);
    let prices = vec![in scene.alloc; 0; steps.progress().shares().len()]?;
    let mut extra = i128::from(steps.count_price());
    if is_carried {
        extra = price_in(scene.boxed, &values, extra);
    }
    Ok(Move::Duals(Duals::from_lists(scale, extra, values, prices)))
}
