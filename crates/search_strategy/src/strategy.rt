//! The strategy of a search.
ghost use Rattle.std.specs.Prelude.{◌≡◌};
ghost use Rattle.lane_order.specs.Order.{IsOrderOf};

use crate::beginning::Beginning;
use crate::constants::{EVERYWHERE, Rules, WHERE_THEY_PAY};
use crate::kept::{FirstBox, Kept};
use crate::knapsacks::Knapsacks;
use crate::stepping::Stepping;
use instance_store::{Instance, NoMemory};
use lane_order::LaneOrder;
use plan_meaning::Plan;
use plan_search::has_no_caps;
use std::alloc::Global;
use std::marker::Model;
use strategy_port::{Move, Scene, Strategy, Wish};

/// What a search of an instance tries. It is made for one search; asked in leaves of an instance of another size it
/// proposes nothing. Its arrays are made when it is asked first, so that a search in which nothing is open costs little.
#[derive(Drop)]
pub struct SearchStrategy<'a> {
    alloc: Global,
    source: Source<'a>,
    rules: Rules,
    // Until it is asked first.
    beginning: Option<Beginning>,
    // From then on.
    kind: Option<Kind<'a>>,
}

#[derive(Drop)]
enum Kind<'a> {
    // Where no site has a capacity.
    Steps(Stepping<'a>),
    Prices(Knapsacks),
}

// An instance with the order of its lanes.
#[derive(Drop)]
struct Source<'a> {
    inst: &'a Instance,
    order: &'a LaneOrder,
}

impl<'a> Model for Source<'a> {
    ghost use Rattle.location_terms.specs.Instance.{Instance as Meaning, instance_code};
    ghost use Rattle.lane_order.specs.Order.{IsOrderOf};

    ghost Value = { Meaning };

    ghost coded = { instance_code };

    ghost view = { λ a. a.inst.now };

    ghost invariant = { λ a. IsOrderOf a.order.now a.inst.now };
}

impl<'a> SearchStrategy<'a> {
    /// The strategy of a search of this instance, which begins where a former search was, if something was kept of
    /// one. It fails only where memory runs out.
    pub fn of(
        alloc: Global,
        inst: &'a Instance,
        order: &'a LaneOrder,
        kept: Option<&Kept>,
    ) -> Result<SearchStrategy<'a>, NoMemory>
        requires { IsOrderOf order.now inst.now }
    {
        strategy_by(alloc, inst, order, kept, WHERE_THEY_PAY)
    }

    /// The same with whole knapsacks from the first boxes on, in instances of any size with a capacity and small
    /// knapsacks, so that small ones are searched with them. It fails only where memory runs out.
    pub fn of_whole(
        alloc: Global,
        inst: &'a Instance,
        order: &'a LaneOrder,
    ) -> Result<SearchStrategy<'a>, NoMemory>
        requires { IsOrderOf order.now inst.now }
    {
        strategy_by(alloc, inst, order, None, EVERYWHERE)
    }

    /// Lets the search of a tree that was carried over edits begin with a plan near this one, which need not be feasible:
    /// the plan of the former search, carried over like the tree. It says nothing once the search has begun.
    pub fn hint(&mut self, plan: &Plan) {
        if let Some(beginning) = &mut self.beginning {
            beginning.regrowth.hint(self.source.inst, plan);
        }
    }

    /// What this search leaves for a later one: where it was never asked, what a former search left. It fails only where
    /// memory runs out.
    pub fn kept(&self) -> Result<Kept, NoMemory> {
        let inst = self.source.inst;
        if let Some(beginning) = &self.beginning {
            return beginning.first.kept(self.alloc, inst);
        }
        match &self.kind {
            None => FirstBox::unknown(self.alloc, inst)?.kept(self.alloc, inst),
            Some(Kind::Steps(steps)) => steps.first_box().kept(self.alloc, inst),
            Some(Kind::Prices(prices)) => prices.first_box().kept(self.alloc, inst),
        }
    }
}

fn strategy_by<'a>(
    alloc: Global,
    inst: &'a Instance,
    order: &'a LaneOrder,
    kept: Option<&Kept>,
    rules: Rules,
) -> Result<SearchStrategy<'a>, NoMemory>
    requires { IsOrderOf order.now inst.now }
{
    let beginning = Beginning::of(alloc, inst, kept)?;
    Ok(SearchStrategy {
        alloc,
        source: Source { inst, order },
        rules,
        beginning: Some(beginning),
        kind: None,
    })
}

impl<'a> Source<'a> {
    // What is tried in the instance. It fails only where memory runs out.
    fn kind(
        &self,
        alloc: Global,
        beginning: Beginning,
        rules: Rules,
    ) -> Result<Kind<'a>, NoMemory> {
        if has_no_caps(self.inst) {
            let steps = Stepping::of(alloc, self.inst, self.order, beginning)?;
            return Ok(Kind::Steps(steps));
        }
        let prices = Knapsacks::of(alloc, self.inst, self.order, beginning, rules)?;
        Ok(Kind::Prices(prices))
    }
}

impl<'a> Strategy for SearchStrategy<'a> {
    fn enter(&mut self, _scene: &Scene<'_, '_>) {
        match &mut self.kind {
            None => {}
            Some(Kind::Steps(steps)) => steps.enter(),
            Some(Kind::Prices(prices)) => prices.enter(),
        }
    }

    fn next(&mut self, scene: &Scene<'_, '_>) -> Result<Move, NoMemory> {
        if let Some(beginning) = self.beginning.take() {
            let kind = self.source.kind(self.alloc, beginning, self.rules)?;
            self.kind = Some(kind);
            self.enter(scene);
        }
        match &mut self.kind {
            None => Ok(Move::Done),
            Some(Kind::Steps(steps)) => steps.next(scene),
            Some(Kind::Prices(prices)) => prices.next(scene),
        }
    }

    fn wish(&mut self, scene: &Scene<'_, '_>) -> Option<Wish> {
        match &mut self.kind {
            None => None,
            Some(Kind::Steps(steps)) => steps.wish(scene),
            Some(Kind::Prices(prices)) => prices.wish(scene),
        }
    }
}
