//! What is tried where some site has a capacity: prices of capacities in the first boxes, and behind them whole
//! knapsacks, where these have a far better bound.
ghost use Rattle.std.specs.Prelude.{◌≡◌, IfOk, IsTrue, length};
ghost use Rattle.lane_order.specs.Order.{IsOrderOf};
ghost use Rattle.strategy_port.specs.Scene.{IsScene};
ghost use Rattle.search_strategy.specs.Sizes.{Suits};

use crate::beginning::Beginning;
use crate::constants::{
    CAPACITY_SCALE, FEW_BOXES, FIRST_LEFT, Rules, SEATED_SHARES, WHOLE_FIRST_CLIMBS, WHOLE_PLANS,
    WHOLE_ROOT_CLIMBS, WHOLE_SETTLED, WHOLE_STEPS, WHOLE_WEIGHT,
};
use crate::kept::FirstBox;
use crate::pricing::Pricing;
use crate::splitting::{bound_of, has_free_site, is_free};
use crate::trail::Trail;
use crate::tried::Tried;
use crate::widening::widen;
use dual_value::{Duals, Path, PreparedBox};
use instance_store::{Instance, NoMemory};
use lane_order::LaneOrder;
use leaf_bounds::has_small_knapsacks;
use std::alloc::Global;
use std::num::nearest_u64_to_f64;
use strategy_port::{Move, Scene, Wish};
use whole_steps::WholeSteps;

// What is known of whole knapsacks.
#[derive(Clone, Copy)]
enum Mode {
    // They are never taken.
    Off,
    // Nothing yet.
    Waiting,
    // What they come to in the box of the instance.
    Known,
}

// What comes next in the box at work.
#[derive(Clone, Copy)]
enum Stage {
    // To see whether knapsacks are taken whole.
    Start,
    // To seek plans by the steps in the box of the instance, the one at this place and those behind it.
    Root(usize),
    // To go on by prices.
    Prices,
    // To seek a plan where no site is free.
    Seats,
    // To take steps.
    Steps,
    // To make a plan of what the steps came to, where each customer is served once.
    Served,
    // To propose the best duals, where they close the box.
    Propose,
    // To seek a plan at the sites that most of the steps take.
    Plans,
    // To choose how to split the box.
    Split,
    // Nothing.
    Over,
}

/// The prices and the whole knapsacks of a search, and where they stand in the box at work.
#[derive(Drop)]
pub(crate) struct Knapsacks {
    pricing: Pricing,
    steps: WholeSteps,
    trail: Trail,
    rules: Rules,
    mode: Mode,
    stage: Stage,
    // In how many boxes it was asked, and in how many of the last ones no site was free.
    entered: u32,
    settled: u32,
    // Whether the box at work is that of a leaf of a carried tree, where prices come first, and in how many boxes of such
    // a tree prices weren't enough.
    is_leaf: bool,
    failed: u32,
    // The bounds of the box of the instance by prices and by whole knapsacks, in millionths.
    first_bound: f64,
    whole_bound: f64,
    // How the box at work is to be split.
    wished: Option<Wish>,
    // Sites at which a plan is sought, by place, and the last sets of them.
    flags: Vec<bool>,
    tried: Tried,
}

impl Knapsacks {
    /// Before the first box, with what is known before. It fails only where memory runs out.
    pub(crate) fn of(
        alloc: Global,
        inst: &Instance,
        order: &LaneOrder,
        beginning: Beginning,
        rules: Rules,
    ) -> Result<Knapsacks, NoMemory> {
        let pricing = Pricing::of(alloc, inst, order, beginning)?;
        let steps = WholeSteps::of(alloc, inst)?;
        let mode = if inst.sites() >= rules.least_sites && has_small_knapsacks(inst) {
            Mode::Waiting
        } else {
            Mode::Off
        };
        Ok(Knapsacks {
            pricing,
            steps,
            trail: Trail::new(alloc),
            rules,
            mode,
            stage: Stage::Start,
            entered: 0,
            settled: 0,
            is_leaf: false,
            failed: 0,
            first_bound: 0.0,
            whole_bound: 0.0,
            wished: None,
            flags: vec![in alloc; false; inst.sites()]?,
            tried: Tried::none(),
        })
    }

    /// Another box comes.
    pub(crate) fn enter(&mut self) {
        self.stage = Stage::Start;
        self.entered = self.entered.saturating_add(1);
        self.wished = None;
    }

    /// What to try next in it. It fails only where memory runs out.
    pub(crate) fn next(&mut self, scene: &Scene<'_, '_>) -> Result<Move, NoMemory>
        requires { IsScene scene.now }
    {
        if !suits(&self.steps, &self.flags, scene) {
            return Ok(Move::Done);
        }
        match self.stage {
            Stage::Start => self.start(scene),
            Stage::Root(k) => self.seek_root(scene, k),
            Stage::Prices => self.go_by_prices(scene),
            Stage::Seats => {
                self.stage = Stage::Steps;
                self.seek_seats(scene, 0.5)
            }
            Stage::Steps => Ok(self.take_steps(scene)),
            Stage::Served => self.seek_served(scene),
            Stage::Propose => self.propose(scene),
            Stage::Plans => self.seek_plan(scene),
            Stage::Split => self.choose_split(scene),
            Stage::Over => Ok(Move::Done),
        }
    }

    /// On which site or lane to split the box.
    pub(crate) fn wish(&mut self, scene: &Scene<'_, '_>) -> Option<Wish> {
        match self.stage {
            Stage::Prices => self.pricing.wish(scene),
            _ => self.wished,
        }
    }

    /// What is known of the first box.
    pub(crate) fn first_box(&self) -> &FirstBox {
        self.pricing.first_box()
    }

    fn go_by_prices(&mut self, scene: &Scene<'_, '_>) -> Result<Move, NoMemory>
        requires { Suits scene.now self.old.steps self.old.flags.items }
    {
        if scene.is_first && !self.pricing.is_carried() {
            self.first_bound = bound_of(scene);
        }
        let next = self.pricing.next(scene)?;
        if !matches!(next, Move::Done) || !self.pricing.is_carried() {
            return Ok(next);
        }
        self.failed = self.failed.saturating_add(1);
        if !self.is_leaf {
            return Ok(next);
        }
        self.is_leaf = false;
        self.start_whole(scene)
    }

    // Begins in the box: in that of a leaf of a carried tree by prices, behind which knapsacks may be taken whole.
    fn start(&mut self, scene: &Scene<'_, '_>) -> Result<Move, NoMemory>
        requires { Suits scene.now self.old.steps self.old.flags.items }
    {
        let is_waiting = matches!(self.mode, Mode::Waiting);
        self.is_leaf = self.pricing.enter(scene, is_waiting && self.entered > 1)?;
        if self.is_leaf {
            // No box that leads to this one was worked, but for that of the instance.
            self.trail.go_to(0);
            self.stage = Stage::Prices;
            return Ok(Move::Nothing);
        }
        self.start_whole(scene)
    }

    // Sees whether knapsacks are taken whole in the box.
    fn start_whole(&mut self, scene: &Scene<'_, '_>) -> Result<Move, NoMemory>
        requires { Suits scene.now self.old.steps self.old.flags.items }
    {
        self.stage = Stage::Prices;
        match self.mode {
            Mode::Off => {}
            Mode::Known => self.begin_where_it_pays(scene),
            Mode::Waiting => {
                if self.is_time(scene) {
                    self.take_root_steps(scene)?;
                    self.stage = Stage::Root(0);
                }
            }
        }
        Ok(Move::Nothing)
    }

    // Whether it is time for steps in the box of the instance, whose bound by prices is known.
    fn is_time(&mut self, scene: &Scene<'_, '_>) -> bool
        ensures steps { self.new.steps ≡ self.old.steps }
        ensures flags { self.new.flags ≡ self.old.flags }
    {
        if scene.cost.is_none() {
            return false;
        }
        if !self.pricing.is_carried() {
            return self.entered > self.rules.first_boxes;
        }
        if self.failed <= self.first_boxes() {
            return false;
        }
        match self.pricing.first_bound() {
            None => false,
            Some(bound) => {
                self.first_bound = bound;
                true
            }
        }
    }

    // How many boxes of a carried tree are to stay open before that.
    fn first_boxes(&self) -> u32 {
        if self.pricing.is_whole() {
            self.rules.first_boxes.min(FEW_BOXES)
        } else {
            self.rules.first_boxes
        }
    }

    // Takes steps in the box of the instance, more of them where the first ones gain something.
    fn take_root_steps(&mut self, scene: &Scene<'_, '_>) -> Result<(), NoMemory>
        requires { Suits scene.now self.old.steps self.old.flags.items }
    {
        let path = Path::root(scene.alloc);
        let whole = PreparedBox::of(scene.alloc, scene.boxed.instance(), &path)?;
        self.steps.enter(&whole);
        let first = self.pricing.first_box();
        self.steps.start_from(first.duals.values(), first.duals.q());
        self.steps.climb(target(scene), WHOLE_FIRST_CLIMBS);
        self.whole_bound = self.steps.progress().bound();
        if self.leaves(scene, FIRST_LEFT) {
            self.steps.climb(target(scene), WHOLE_ROOT_CLIMBS);
            self.steps.average(target(scene), WHOLE_STEPS);
            self.whole_bound = self.steps.progress().bound();
        }
        Ok(())
    }

    // Seeks plans by what the steps have come to in the box of the instance, and then begins in the box at work.
    fn seek_root(&mut self, scene: &Scene<'_, '_>, k: usize) -> Result<Move, NoMemory>
        requires { Suits scene.now self.old.steps self.old.flags.items }
    {
        self.stage = Stage::Root(k.saturating_add(1));
        if k < SEATED_SHARES.len() && self.leaves(scene, FIRST_LEFT) {
            return self.seek_seats(scene, SEATED_SHARES[k]);
        }
        self.mode = Mode::Known;
        self.trail.begin(self.steps.handed_on(scene.alloc)?)?;
        self.begin_where_it_pays(scene);
        Ok(Move::Nothing)
    }

    // Begins in the box where whole knapsacks leave much less than prices do. The better a plan is known, the less they
    // leave.
    fn begin_where_it_pays(&mut self, scene: &Scene<'_, '_>)
        requires { Suits scene.now self.old.steps self.old.flags.items }
    {
        self.stage = Stage::Prices;
        let is_whole = self.leaves(scene, self.rules.most_left);
        self.pricing.take_whole(is_whole);
        if is_whole {
            self.begin(scene);
        }
    }

    // Whether whole knapsacks leave at most such a part of what prices leave in the box of the instance.
    fn leaves(&self, scene: &Scene<'_, '_>, part: f64) -> bool {
        let target = target(scene);
        target - self.whole_bound <= part * (target - self.first_bound)
    }

    // Goes into the box with the duals of the box that it is a part of.
    fn begin(&mut self, scene: &Scene<'_, '_>)
        requires { Suits scene.now self.old.steps self.old.flags.items }
    {
        let depth = scene.boxed.path().steps();
        let is_settled = !has_free_site(scene.boxed);
        self.settled = if is_settled {
            self.settled.saturating_add(1)
        } else {
            0
        };
        if self.settled > WHOLE_SETTLED {
            return;
        }
        self.steps.enter(scene.boxed);
        self.trail.go_to(depth);
        if let Some(last) = self.trail.last() {
            self.steps.inherit(&last.handed);
        }
        self.stage = if self.trail.is_last_sure() || self.closes(scene) {
            Stage::Propose
        } else if self.settled == 1 {
            Stage::Seats
        } else {
            Stage::Steps
        };
    }

    // Takes steps.
    fn take_steps(&mut self, scene: &Scene<'_, '_>) -> Move
        requires { Suits scene.now self.old.steps self.old.flags.items }
    {
        self.steps.volume(target(scene), WHOLE_STEPS, WHOLE_WEIGHT);
        self.stage = Stage::Served;
        Move::Nothing
    }

    // Makes a plan of a point that serves each customer once.
    fn seek_served(&mut self, scene: &Scene<'_, '_>) -> Result<Move, NoMemory>
        requires { Suits scene.now self.old.steps self.old.flags.items }
    {
        self.stage = Stage::Propose;
        match self.steps.servers() {
            None => Ok(Move::Nothing),
            Some(servers) => self.pricing.seek_around(scene, servers),
        }
    }

    // Proposes the best duals where they close the box.
    fn propose(&mut self, scene: &Scene<'_, '_>) -> Result<Move, NoMemory>
        requires { Suits scene.now self.old.steps self.old.flags.items }
    {
        self.stage = if self.trail.is_last_sure() {
            Stage::Split
        } else {
            Stage::Plans
        };
        if !self.closes(scene) {
            return Ok(Move::Nothing);
        }
        self.steps.round(CAPACITY_SCALE);
        let mut values = vec![in scene.alloc; 0; self.steps.values().len()]?;
        widen(self.steps.values(), &mut values);
        let extra = i128::from(self.steps.count_price(CAPACITY_SCALE));
        let duals = Duals::whole(
            scene.alloc,
            scene.boxed.instance(),
            CAPACITY_SCALE,
            extra,
            values,
        )?;
        Ok(Move::Closing(duals))
    }

    // Seeks a plan at the sites that most of the steps take, where it is time for that.
    fn seek_plan(&mut self, scene: &Scene<'_, '_>) -> Result<Move, NoMemory>
        requires { IsScene scene.now }
    {
        self.stage = Stage::Split;
        if self.entered % WHOLE_PLANS == 0 {
            return self.seek_seats(scene, 0.5);
        }
        Ok(Move::Nothing)
    }

    // Seeks a plan at the sites with more than this share.
    fn seek_seats(&mut self, scene: &Scene<'_, '_>, share: f64) -> Result<Move, NoMemory>
        requires { IsScene scene.now }
    {
        flag_shares(self.steps.shares(), share, &mut self.flags);
        if !self.tried.is_new(&self.flags) {
            return Ok(Move::Nothing);
        }
        self.pricing.seek_at(scene, &self.flags)
    }

    // Chooses how to split the box, and keeps what is handed on to its parts.
    fn choose_split(&mut self, scene: &Scene<'_, '_>) -> Result<Move, NoMemory>
        requires { Suits scene.now self.old.steps self.old.flags.items }
    {
        self.stage = Stage::Over;
        let depth = scene.boxed.path().steps();
        let sure = self.sure_place(scene);
        let handed = self.steps.handed_on(scene.alloc)?;
        self.trail.push(depth, sure.is_some(), handed)?;
        self.wished = match sure {
            Some(site) => Some(Wish::Site(site)),
            None => self.doubtful(scene),
        };
        Ok(Move::Done)
    }

    fn closes(&self, scene: &Scene<'_, '_>) -> bool {
        self.steps.progress().reaches(target(scene))
    }

    // The free site one of whose states the duals rule out most clearly.
    fn sure_place(&self, scene: &Scene<'_, '_>) -> Option<usize> {
        let mut greatest = target(scene) - self.steps.progress().bound() - 0.9999;
        let mut best = None;
        let slacks = self.steps.slacks();
        for site in 0..slacks.len() {
            let size = slacks[site].abs();
            if size >= greatest && is_free(scene.boxed, site) {
                greatest = size;
                best = Some(site);
            }
        }
        best
    }

    // The free site whose share is farthest from 0 and 1, and where none is free a lane.
    fn doubtful(&mut self, scene: &Scene<'_, '_>) -> Option<Wish> {
        let shares = self.steps.shares();
        let mut greatest = -1.0;
        let mut best = None;
        for site in 0..shares.len() {
            let doubt = shares[site].min(1.0 - shares[site]);
            if doubt > greatest && is_free(scene.boxed, site) {
                greatest = doubt;
                best = Some(site);
            }
        }
        if let Some(site) = best {
            return Some(Wish::Site(site));
        }
        let lane = self.steps.split()?;
        Some(Wish::Lane {
            site: lane.site,
            cust: lane.cust,
        })
    }
}

// Whether steps and flags are for an instance as large as the leaf's.
fn suits(steps: &WholeSteps, flags: &[bool], scene: &Scene<'_, '_>) -> bool
    requires { IsScene scene.now }
    ensures { IsTrue result → Suits scene.now steps.now flags.now }
{
    let inst = scene.boxed.instance();
    steps.progress().shares().len() == inst.sites()
        && steps.values().len() == inst.custs()
        && flags.len() == inst.sites()
}

fn flag_shares(shares: &[f64], least: f64, flags: &mut [bool])
    ensures { length flags.new ≡ length flags.old }
{
    for i in 0..flags.len() {
        flags[i] = i < shares.len() && shares[i] > least;
    }
}

// What steps aim at: what the best plan costs, in millionths.
fn target(scene: &Scene<'_, '_>) -> f64 {
    match scene.cost {
        Some(cost) => nearest_u64_to_f64(cost),
        None => 1.5 * bound_of(scene).max(1.0),
    }
}
