//! The strategy that counts sites.
ghost use Rattle.std.specs.Prelude.{◌≡◌, IfOk, OnOk};
ghost use Rattle.lane_order.specs.Order.{IsOrderOf};
ghost use Rattle.dual_ascent.specs.Work.{IsWorkFor};
ghost use Rattle.plan_search.specs.InBox.{IsPathOf};
ghost use Rattle.strategy_port.specs.Scene.{IsScene};

use crate::counted::with_enough;
use crate::covering::SITE_COST;
use crate::exchanges::few_sites;
use crate::raised::Raised;
use dual_ascent::Workspace;
use dual_value::{Path, PreparedBox};
use instance_store::{Instance, NoMemory};
use lane_order::LaneOrder;
use plan_meaning::{Plan, judge};
use plan_search::{LocalSearch, improved_set, is_path_of};
use search_strategy::SearchStrategy;
use std::alloc::Global;
use std::marker::Model;
use strategy_port::{Move, Scene, Strategy, Wish};

// More moves in a box than any strategy needs.
const MAX_MOVES: u32 = 100_000;

/// Tries in each box what another strategy proposes, and then, as long as no plan is known, seeks the fewest sites that
/// can serve all customers there.
#[derive(Drop)]
pub struct CoverStrategy<'a, S> {
    alloc: Global,
    ground: Ground<'a>,
    fewest: SearchStrategy<'a>,
    // The best plan by the number of its sites.
    best: Option<Plan>,
    // The least and the greatest number of open sites.
    count: (u32, u32),
    first: S,
    stage: Stage,
    is_first: bool,
}

#[derive(Clone, Copy, PartialEq, Eq)]
enum Stage {
    // The first strategy has more.
    First,
    // The sites are to be counted.
    Due,
    Over,
}

// The instance in which each open site costs one unit, with the order of its lanes.
#[derive(Drop)]
struct Ground<'a> {
    inst: &'a Instance,
    order: &'a LaneOrder,
}

impl<'a> Model for Ground<'a> {
    ghost use Rattle.location_terms.specs.Instance.{Instance as Meaning, instance_code};
    ghost use Rattle.lane_order.specs.Order.{IsOrderOf};

    ghost Value = { Meaning };

    ghost coded = { instance_code };

    ghost view = { λ a. a.inst.now };

    ghost invariant = { λ a. IsOrderOf a.order.now a.inst.now };
}

// What a move comes to.
#[derive(Drop)]
enum Tried {
    More,
    Last,
    // This is to be proposed.
    Found(Move),
}

impl<'a, S: Strategy + Drop> CoverStrategy<'a, S> {
    /// The strategy of a search of an instance whose plans open at least `count.0` and at most `count.1` sites, where
    /// `first` is asked first. `counted` is what `covering_of` makes of the instance, and `order` has its lanes. It fails
    /// only where memory runs out.
    pub fn of(
        alloc: Global,
        counted: &'a Instance,
        order: &'a LaneOrder,
        count: (u32, u32),
        first: S,
    ) -> Result<CoverStrategy<'a, S>, NoMemory>
        requires { IsOrderOf order.now counted.now }
    {
        let fewest = SearchStrategy::of(alloc, counted, order, None)?;
        Ok(CoverStrategy {
            alloc,
            ground: Ground {
                inst: counted,
                order,
            },
            fewest,
            best: None,
            count,
            first,
            stage: Stage::First,
            is_first: true,
        })
    }

    // Counts the sites that the box of this path takes. It fails only where memory runs out.
    fn count_sites(&mut self, path: &Path) -> Result<Move, NoMemory> {
        let Ground { inst, order } = &self.ground;
        let (inst, order) = (*inst, *order);
        if !is_path_of(inst, path) {
            return Ok(Move::Done);
        }
        let boxed = PreparedBox::of(self.alloc, inst, path)?;
        let mut work = Workspace::of(self.alloc, inst)?;
        let mut raised = Raised::none(self.alloc, &boxed)?;
        let zeros = raised.duals.copied()?;
        raised.take(&boxed, order, &mut work, zeros)?;
        let found = self.ask(&boxed, order, &mut raised, &mut work)?;
        match found {
            Move::Done => self.exchange_sites(&boxed, order),
            found => Ok(found),
        }
    }

    // Seeks a plan of few enough sites by exchanges, in the first box. It fails only where memory runs out.
    fn exchange_sites(
        &mut self,
        boxed: &PreparedBox<'_>,
        order: &LaneOrder,
    ) -> Result<Move, NoMemory>
        requires order { IsOrderOf order.now boxed.now.instance }
        requires path { IsPathOf boxed.now.instance boxed.now.path }
    {
        if !self.is_first {
            return Ok(Move::Done);
        }
        let Some(flags) = few_sites(self.alloc, boxed, order, self.count.1 as usize)? else {
            return Ok(Move::Done);
        };
        let mut local = LocalSearch::of(self.alloc, boxed.instance())?;
        let Some(plan) = improved_set(self.alloc, boxed, order, &mut local, &flags, None)? else {
            return Ok(Move::Done);
        };
        match self.try_plan(boxed, plan)? {
            Tried::Found(found) => Ok(found),
            Tried::More | Tried::Last => Ok(Move::Done),
        }
    }

    // Asks for one move after another, up to a plan of few enough sites or duals that show that there is none.
    fn ask(
        &mut self,
        boxed: &PreparedBox<'_>,
        order: &LaneOrder,
        raised: &mut Raised,
        work: &mut Workspace,
    ) -> Result<Move, NoMemory>
        requires order { IsOrderOf order.now boxed.now.instance }
        requires path { IsPathOf boxed.now.instance boxed.now.path }
        requires work { IsWorkFor boxed.now.instance work.old }
    {
        let alloc = self.alloc;
        self.fewest.enter(&scene(alloc, boxed, order, raised, &self.best, self.is_first));
        for _turn in 0..MAX_MOVES {
            if raised.exceeds(self.count.1) {
                return Ok(Move::Closing(raised.ray(alloc)?));
            }
            let next = self.fewest.next(&scene(
                alloc,
                boxed,
                order,
                raised,
                &self.best,
                self.is_first,
            ))?;
            match self.try_move(boxed, order, raised, work, next)? {
                Tried::More => {}
                Tried::Last => return Ok(Move::Done),
                Tried::Found(found) => return Ok(found),
            }
        }
        Ok(Move::Done)
    }

    // Tries what is proposed for the fewest sites. It fails only where memory runs out.
    fn try_move(
        &mut self,
        boxed: &PreparedBox<'_>,
        order: &LaneOrder,
        raised: &mut Raised,
        work: &mut Workspace,
        next: Move,
    ) -> Result<Tried, NoMemory>
        requires order { IsOrderOf order.now boxed.now.instance }
        requires work { IsWorkFor boxed.now.instance work.old }
        ensures { OnOk result (IsWorkFor boxed.now.instance work.new) }
    {
        match next {
            Move::Duals(duals) => {
                raised.take(boxed, order, work, duals)?;
                Ok(Tried::More)
            }
            Move::Plan(plan) => self.try_plan(boxed, plan),
            Move::Closing(_) | Move::Nothing => Ok(Tried::More),
            Move::Done => Ok(Tried::Last),
        }
    }

    // Keeps a plan of fewer sites, and proposes one of few enough. It fails only where memory runs out.
    fn try_plan(&mut self, boxed: &PreparedBox<'_>, plan: Plan) -> Result<Tried, NoMemory> {
        if judge(boxed.instance(), &plan).is_err() {
            return Ok(Tried::More);
        }
        let (least, most) = self.count;
        if plan.site_count() <= most as usize {
            let wider = with_enough(self.alloc, boxed, plan, least as usize)?;
            return Ok(Tried::Found(Move::Plan(wider)));
        }
        if is_smaller(&plan, &self.best) {
            self.best = Some(plan);
        }
        Ok(Tried::More)
    }

    // How the box of this path is best split to count its sites.
    fn wish_to_count(&mut self, path: &Path) -> Result<Option<Wish>, NoMemory> {
        let Ground { inst, order } = &self.ground;
        let (inst, order) = (*inst, *order);
        if !is_path_of(inst, path) {
            return Ok(None);
        }
        let boxed = PreparedBox::of(self.alloc, inst, path)?;
        let raised = Raised::none(self.alloc, &boxed)?;
        Ok(self.fewest.wish(&scene(self.alloc, &boxed, order, &raised, &self.best, false)))
    }
}

impl<'a, S: Strategy + Drop> Strategy for CoverStrategy<'a, S> {
    fn enter(&mut self, scene: &Scene<'_, '_>) {
        self.stage = Stage::First;
        self.first.enter(scene);
    }

    fn next(&mut self, scene: &Scene<'_, '_>) -> Result<Move, NoMemory> {
        match self.stage {
            Stage::First => {
                let next = self.first.next(scene)?;
                match next {
                    Move::Done => {
                        self.stage = Stage::Due;
                        Ok(Move::Nothing)
                    }
                    next => Ok(next),
                }
            }
            Stage::Due => {
                self.stage = Stage::Over;
                if scene.plan.is_some() {
                    return Ok(Move::Done);
                }
                let found = self.count_sites(scene.boxed.path())?;
                self.is_first = false;
                Ok(found)
            }
            Stage::Over => Ok(Move::Done),
        }
    }

    fn wish(&mut self, scene: &Scene<'_, '_>) -> Option<Wish> {
        if scene.plan.is_some() {
            return self.first.wish(scene);
        }
        match self.wish_to_count(scene.boxed.path()) {
            Ok(wish) => wish,
            Err(_) => None,
        }
    }
}

// The box as a strategy sees it that seeks the fewest sites.
fn scene<'a, 'b>(
    alloc: Global,
    boxed: &'b PreparedBox<'b>,
    order: &'a LaneOrder,
    raised: &'a Raised,
    best: &'a Option<Plan>,
    is_first: bool,
) -> Scene<'a, 'b>
    requires order { IsOrderOf order.now boxed.now.instance }
    requires path { IsPathOf boxed.now.instance boxed.now.path }
    ensures { IsScene result }
{
    Scene {
        alloc,
        boxed,
        order,
        duals: &raised.duals,
        bound: raised.bound,
        slacks: &raised.slacks,
        plan: best.as_ref(),
        cost: match best {
            None => None,
            Some(plan) => Some((plan.site_count() as u64).saturating_mul(SITE_COST)),
        },
        is_first,
    }
}

// Whether the plan opens fewer sites than the best one.
fn is_smaller(plan: &Plan, best: &Option<Plan>) -> bool {
    match best {
        None => true,
        Some(best) => plan.site_count() < best.site_count(),
    }
}
