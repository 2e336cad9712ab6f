//! What is tried where some site has a capacity: steps with prices of capacities, and plans around the sites that
//! they take or that the flows come from.
ghost use Rattle.std.specs.Prelude.{◌≡◌, IfOk, IsTrue, length};
ghost use Rattle.lane_order.specs.Order.{IsOrderOf};
ghost use Rattle.strategy_port.specs.Scene.{IsScene};
ghost use Rattle.search_strategy.specs.Sizes.{Suits};

use crate::beginning::{Beginning, Regrowth};
use crate::constants::{
    CAPACITY_SCALE, HINTS, PRICE_HINTS, PRICE_NODE_STEPS, PRICE_REGROWN_ROUNDS,
    PRICE_REGROWN_STEPS, PRICE_ROUND_STEPS, PRICE_ROUNDS,
};
use crate::full::price_in;
use crate::kept::FirstBox;
use crate::plans::{Hint, Plans, flag_taken, proposed};
use crate::prices::Prices;
use crate::splitting::{missing, split_place};
use dual_value::{Duals, Path, PreparedBox};
use instance_store::{Instance, NoMemory};
use lane_order::LaneOrder;
use set_search::Ordered;
use std::alloc::Global;
use std::num::nearest_u64_to_f64;
use strategy_port::{Move, Scene, Wish};

// What comes next in the box at work.
#[derive(Clone, Copy)]
enum Stage {
    // To search sets of sites for a plan, where it is time for that.
    Sets,
    // To enter the box with the steps.
    Start,
    // To seek a plan at the sites without slack.
    Seed,
    // To take steps, and propose what they come to.
    Steps,
    // To seek a plan by the hint at this place, and by those behind it.
    Plans(usize),
    // To seek a plan near by.
    Near,
    // Nothing.
    Over,
    // In such a leaf: to seek a plan near the carried one.
    Carried,
    // To see whether steps in the box of the instance are due.
    Due,
    // To take a round of them.
    Whole,
    // To seek plans by the hint at this place behind it, and by those behind.
    WholePlans(usize),
}

/// The prices of a search, and where they stand in the box at work.
#[derive(Drop)]
pub(crate) struct Pricing {
    prices: Prices,
    plans: Plans,
    stage: Stage,
    rounds: u32,
    // Whether no plans are sought in the box at work.
    is_sparing: bool,
    // What is known of the box of the instance, and whether that came from a former search.
    first: FirstBox,
    is_known: bool,
    regrowth: Regrowth,
    // The bound in the box of the instance to which steps came there in a carried tree.
    first_bound: Option<f64>,
    // Whether the box at work is that of a leaf of a carried tree.
    is_leaf: bool,
}

impl Pricing {
    /// Before the first box, with what is known before. It fails only where memory runs out.
    pub(crate) fn of(
        alloc: Global,
        inst: &Instance,
        order: &LaneOrder,
        beginning: Beginning,
    ) -> Result<Pricing, NoMemory> {
        let prices = Prices::of(alloc, inst, order)?;
        let plans = Plans::of(alloc, inst)?;
        let Beginning {
            regrowth,
            first,
            is_known,
        } = beginning;
        Ok(Pricing {
            prices,
            plans,
            stage: Stage::Sets,
            rounds: 0,
            is_sparing: false,
            first,
            is_known,
            regrowth,
            first_bound: None,
            is_leaf: false,
        })
    }

    /// Goes into a box, in which plans are sought or not: whether it is that of another leaf of a carried tree. It fails
    /// only where memory runs out.
    pub(crate) fn enter(
        &mut self,
        scene: &Scene<'_, '_>,
        is_sparing: bool,
    ) -> Result<bool, NoMemory> {
        self.is_leaf = self.regrowth.begins(scene.boxed.path())?;
        self.is_sparing = is_sparing;
        self.rounds = 0;
        self.stage = match (self.is_leaf, scene.is_first) {
            (false, _) => Stage::Sets,
            (true, true) => Stage::Carried,
            (true, false) => Stage::Due,
        };
        Ok(self.is_leaf)
    }

    /// What to try next in it. It fails only where memory runs out.
    pub(crate) fn next(&mut self, scene: &Scene<'_, '_>) -> Result<Move, NoMemory>
        requires { IsScene scene.now }
    {
        if !suits(&self.prices, &self.plans, scene) {
            return Ok(Move::Done);
        }
        if scene.is_first && !self.is_starting() && !self.regrowth.is_carried() {
            self.first.take_duals(scene.duals);
        }
        match self.stage {
            Stage::Carried => self.seek_carried(scene),
            Stage::Due => Ok(self.see_due(scene)),
            Stage::Whole => self.step_whole(scene),
            Stage::WholePlans(k) => self.seek_whole_plan(scene, k),
            Stage::Sets => self.seek_sets(scene),
            Stage::Start => self.start(scene),
            Stage::Seed => self.seed(scene),
            Stage::Steps => self.take_steps(scene),
            Stage::Plans(k) => self.seek_plan(scene, k),
            Stage::Near => self.seek_near(scene),
            Stage::Over => Ok(Move::Done),
        }
    }

    /// On which site or lane to split the box.
    pub(crate) fn wish(&mut self, scene: &Scene<'_, '_>) -> Option<Wish> {
        match split_place(scene, missing(scene), self.prices.progress().shares()) {
            Some(place) => Some(Wish::Site(place)),
            None => {
                let target = target_of(scene.cost, self.prices.bound());
                let lane = self.prices.split(target)?;
                Some(Wish::Lane {
                    site: lane.site,
                    cust: lane.cust,
                })
            }
        }
    }

    /// Seeks a plan at exactly the flagged sites, by place. It fails only where memory runs out.
    pub(crate) fn seek_at(
        &mut self,
        scene: &Scene<'_, '_>,
        flags: &[bool],
    ) -> Result<Move, NoMemory>
        requires { IsScene scene.now }
    {
        if !suits(&self.prices, &self.plans, scene) {
            return Ok(Move::Nothing);
        }
        let at = Ordered {
            alloc: scene.alloc,
            inst: scene.boxed.instance(),
            order: scene.order,
        };
        let most = target_of(scene.cost, self.prices.bound());
        let plan = self.prices.plan_at(&at, flags, most)?;
        Ok(proposed(plan))
    }

    /// Seeks a plan around the site that is named for each customer, by place. It fails only where memory runs out.
    pub(crate) fn seek_around(
        &mut self,
        scene: &Scene<'_, '_>,
        named: &[usize],
    ) -> Result<Move, NoMemory> {
        self.plans.seek_around(scene, named)
    }

    /// What is known of the first box.
    pub(crate) fn first_box(&self) -> &FirstBox {
        &self.first
    }

    /// Whether whole knapsacks paid in a former search.
    pub(crate) fn is_whole(&self) -> bool {
        self.first.is_whole
    }

    /// Whole knapsacks pay in this search, or don't.
    pub(crate) fn take_whole(&mut self, is_whole: bool) {
        self.first.is_whole = is_whole;
    }

    /// Whether the search began with a tree of several leaves.
    pub(crate) fn is_carried(&self) -> bool {
        self.regrowth.is_carried()
    }

    /// The bound of the box of the instance where such a search took steps there, in millionths.
    pub(crate) fn first_bound(&self) -> Option<f64> {
        self.first_bound
    }

    // Looks for a plan among sets of sites, from those that the best plan opens, or that the steps take where none
    // is known.
    fn seek_sets(&mut self, scene: &Scene<'_, '_>) -> Result<Move, NoMemory>
        requires { Suits scene.now self.old.prices self.old.plans.flags.items }
    {
        self.stage = Stage::Start;
        if !self.prices.is_time_for_sets() {
            return Ok(Move::Nothing);
        }
        self.plans.flag_opened(scene);
        if scene.cost.is_none() {
            flag_taken(self.prices.progress().open(), &mut self.plans.flags);
        }
        let at = Ordered {
            alloc: scene.alloc,
            inst: scene.boxed.instance(),
            order: scene.order,
        };
        let most = target_of(scene.cost, self.prices.bound());
        let plan = self.prices.plan_of_sets(&at, &self.plans.flags, most)?;
        Ok(proposed(plan))
    }

    fn is_starting(&self) -> bool {
        matches!(self.stage, Stage::Sets | Stage::Start)
    }

    // Seeks a plan near the carried one.
    fn seek_carried(&mut self, scene: &Scene<'_, '_>) -> Result<Move, NoMemory>
        requires { IsScene scene.now }
    {
        self.stage = Stage::Due;
        self.plans.seek_near(scene, self.regrowth.near())
    }

    // Sees whether steps in the box of the instance are due.
    fn see_due(&mut self, scene: &Scene<'_, '_>) -> Move {
        self.stage = if self.regrowth.is_due(scene.cost) {
            Stage::Whole
        } else {
            Stage::Sets
        };
        Move::Nothing
    }

    // A round of steps in the box of the instance.
    fn step_whole(&mut self, scene: &Scene<'_, '_>) -> Result<Move, NoMemory>
        requires { Suits scene.now self.old.prices self.old.plans.flags.items }
    {
        if self.rounds == 0 {
            let path = Path::root(scene.alloc);
            let whole = PreparedBox::of(scene.alloc, scene.boxed.instance(), &path)?;
            self.regrowth.begin(&self.first)?;
            self.first.fill(scene.duals);
            self.prices.enter_again(&whole, scene.order);
            self.prices
                .start_from(&self.first.stepped, self.first.step_scale);
        }
        self.prices.step(
            target_of(scene.cost, self.prices.bound()),
            PRICE_REGROWN_STEPS,
        );
        self.rounds = self.rounds.saturating_add(1);
        self.stage = Stage::WholePlans(0);
        if self.rounds < PRICE_REGROWN_ROUNDS {
            return Ok(Move::Nothing);
        }
        let duals = self.prices.rounded(scene.alloc, CAPACITY_SCALE)?;
        self.first.take_steps(self.prices.values(), CAPACITY_SCALE);
        self.first.take_duals(&duals);
        self.regrowth.end(&self.first);
        self.first_bound = Some(self.prices.bound());
        Ok(Move::Duals(duals))
    }

    // Seeks a plan by the hint at this place behind such a round.
    fn seek_whole_plan(&mut self, scene: &Scene<'_, '_>, k: usize) -> Result<Move, NoMemory>
        requires { Suits scene.now self.old.prices self.old.plans.flags.items }
    {
        if k >= PRICE_HINTS.len() {
            self.stage = if self.rounds < PRICE_REGROWN_ROUNDS {
                Stage::Whole
            } else {
                Stage::Sets
            };
            return Ok(Move::Nothing);
        }
        self.stage = Stage::WholePlans(k + 1);
        self.plans
            .seek_anywhere(scene, PRICE_HINTS[k], self.prices.progress())
    }

    // Enters the box, and lets the steps start from the best duals of the leaf, or from where a former search was, whose
    // duals it then proposes.
    fn start(&mut self, scene: &Scene<'_, '_>) -> Result<Move, NoMemory>
        requires { Suits scene.now self.old.prices self.old.plans.flags.items }
    {
        let is_first = scene.is_first && !self.is_leaf;
        self.prices
            .enter(scene.boxed, scene.order, scene.duals, is_first);
        self.stage = Stage::Steps;
        self.rounds = 0;
        if self.is_leaf {
            return self.start_leaf(scene);
        }
        if !scene.is_first {
            return Ok(Move::Nothing);
        }
        self.stage = Stage::Seed;
        if !self.is_known {
            return Ok(Move::Nothing);
        }
        let duals = self.first.former_duals()?;
        self.first.fill(scene.duals);
        self.prices
            .start_from(&self.first.stepped, self.first.step_scale);
        Ok(Move::Duals(duals))
    }

    // Lets the steps in the box of a leaf of a carried tree start from the best of its own duals, these with the change
    // of those of the instance's box, and the latter, and proposes them.
    fn start_leaf(&mut self, scene: &Scene<'_, '_>) -> Result<Move, NoMemory>
        requires { Suits scene.now self.old.prices self.old.plans.flags.items }
    {
        if self.prices.is_settled() {
            return Ok(Move::Nothing);
        }
        if self.regrowth.is_stepped() {
            let own = self.prices.bound();
            let scale = self.first.step_scale;
            self.prices.start_from(&self.first.stepped, scale);
            let former = self.prices.bound();
            let shifted = self.regrowth.shifted(scene.duals);
            self.prices.start_from(shifted, scene.duals.q());
            let changed = self.prices.bound();
            if own >= former && own >= changed {
                self.prices
                    .start_from(scene.duals.values(), scene.duals.q());
            } else if former > changed {
                self.prices.start_from(&self.first.stepped, scale);
            }
        }
        let duals = self.rounded(scene)?;
        Ok(Move::Duals(duals))
    }

    // The best duals of the steps, rounded.
    fn rounded(&mut self, scene: &Scene<'_, '_>) -> Result<Duals, NoMemory>
        requires { Suits scene.now self.old.prices self.old.plans.flags.items }
        ensures prices { self.new.prices ≡ self.old.prices }
        ensures plans { self.new.plans ≡ self.old.plans }
    {
        let duals = self.prices.rounded(scene.alloc, CAPACITY_SCALE)?;
        if !self.regrowth.is_carried() {
            return Ok(duals);
        }
        let price = price_in(scene.boxed, duals.values(), duals.nu());
        let values = Vec::from_slice(scene.alloc, duals.values())?;
        let prices = Vec::from_slice(scene.alloc, duals.prices())?;
        Ok(Duals::from_lists(CAPACITY_SCALE, price, values, prices))
    }

    // Seeks a plan at the sites without slack.
    fn seed(&mut self, scene: &Scene<'_, '_>) -> Result<Move, NoMemory>
        requires { Suits scene.now self.old.prices self.old.plans.flags.items }
    {
        self.stage = Stage::Steps;
        self.plans.seek(scene, Hint::Tight, self.prices.progress())
    }

    // Takes steps, if more of them are worth while, and proposes their best duals.
    fn take_steps(&mut self, scene: &Scene<'_, '_>) -> Result<Move, NoMemory>
        requires { Suits scene.now self.old.prices self.old.plans.flags.items }
    {
        let target = target_of(scene.cost, self.prices.bound());
        if !scene.is_first || self.is_leaf {
            self.stage = Stage::Near;
            self.prices.step(target, PRICE_NODE_STEPS);
        } else {
            if self.rounds >= PRICE_ROUNDS {
                return Ok(Move::Done);
            }
            self.rounds = self.rounds.saturating_add(1);
            self.stage = Stage::Plans(0);
            self.prices.step(target, PRICE_ROUND_STEPS);
        }
        let duals = self.rounded(scene)?;
        if scene.is_first && !self.is_leaf {
            self.first.take_steps(self.prices.values(), CAPACITY_SCALE);
        }
        Ok(Move::Duals(duals))
    }

    // Seeks a plan by the hint at this place.
    fn seek_plan(&mut self, scene: &Scene<'_, '_>, k: usize) -> Result<Move, NoMemory>
        requires { Suits scene.now self.old.prices self.old.plans.flags.items }
    {
        if k >= HINTS.len() {
            self.stage = Stage::Steps;
            return Ok(Move::Nothing);
        }
        self.stage = Stage::Plans(k + 1);
        self.plans.seek(scene, HINTS[k], self.prices.progress())
    }

    // Looks for a plan around the flows where no site is free, and else around the sites that steps take. Where
    // nothing is left but lanes that the box has to lose, no plan is left either.
    fn seek_near(&mut self, scene: &Scene<'_, '_>) -> Result<Move, NoMemory>
        requires { Suits scene.now self.old.prices self.old.plans.flags.items }
    {
        self.stage = Stage::Over;
        if self.is_leaf && !self.regrowth.is_stepped() {
            self.rounds = 0;
            self.stage = Stage::Whole;
            return Ok(Move::Nothing);
        }
        if self.is_sparing || self.prices.shows(target_of(scene.cost, f64::MAX)) {
            return Ok(Move::Done);
        }
        if !self.prices.is_settled() {
            return self.plans.seek(scene, Hint::Taken, self.prices.progress());
        }
        self.prices.name_suppliers();
        self.plans.seek_around(scene, self.prices.suppliers())
    }
}

// Whether prices and flags are for an instance as large as the leaf's.
fn suits(prices: &Prices, plans: &Plans, scene: &Scene<'_, '_>) -> bool
    requires { IsScene scene.now }
    ensures { IsTrue result → Suits scene.now prices.now plans.now.flags.items }
{
    let inst = scene.boxed.instance();
    prices.progress().shares().len() == inst.sites()
        && prices.values().len() == inst.custs()
        && plans.flags.len() == inst.sites()
}

// What steps aim at: what the best plan costs, in millionths, and where none is known what it may cost.
fn target_of(cost: Option<u64>, bound: f64) -> f64 {
    match cost {
        Some(cost) => nearest_u64_to_f64(cost),
        None => 1.5 * bound.max(1.0),
    }
}
