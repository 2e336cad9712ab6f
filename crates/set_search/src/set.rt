//! Sets of open sites, and what they cost at least.
ghost use Rattle.std.specs.Prelude.{◌≡◌, IfOk};
ghost use Rattle.lane_order.specs.Order.{IsOrderOf};
ghost use Rattle.dual_steps.specs.Sizes.{sizes_of};
ghost use Rattle.set_search.specs.Ready.{IsReady};

use crate::change::{Change, NO_CHANGE, exchanges, holds_all, single_changes};
use crate::ordered::Ordered;
use dual_value::{Path, PreparedBox};
use instance_store::{Instance, NoMemory};
use lane_order::LaneOrder;
use location_terms::Decision;
use side_multipliers::Transport;
use std::alloc::Global;

// How many changes of a set are made.
const MOST_CHANGES: usize = 100;

// How many lanes all sets that are looked at may have together, about.
const MOST_LANES: usize = 4_000_000;

/// A set of open sites.
#[derive(Drop)]
pub(crate) struct Set {
    /// Whether a site is in it, by place.
    pub(crate) open: Vec<bool>,
    // What its transportation problem costs with its fixed costs, in millionths, or what it may cost, where that
    // is less.
    cost: f64,
    // How many sets may still be looked at.
    looks: usize,
}

impl Set {
    /// The set of the flagged sites, by place, where plans are sought that cost less than `most` millionths. It
    /// fails only where memory runs out.
    pub(crate) fn of(
        at: &Ordered<'_>,
        rooms: &mut Transport,
        open: &[bool],
        most: f64,
    ) -> Result<Set, NoMemory>
        requires { IsReady at.now rooms.old }
        ensures { rooms.new ≡ rooms.old }
    {
        let open = Vec::from_slice(at.alloc, open)?;
        let cost = set_cost(at, rooms, &open, most)?.unwrap_or(most);
        let lanes = at.inst.custs().saturating_mul(at.inst.sites());
        let looks = MOST_LANES / lanes;
        Ok(Set { open, cost, looks })
    }

    /// Changes the set while that makes it cheaper: a single site where that does, and else an exchange. It
    /// fails only where memory runs out.
    pub(crate) fn descend(
        &mut self,
        at: &Ordered<'_>,
        rooms: &mut Transport,
    ) -> Result<(), NoMemory>
        requires { IsReady at.now rooms.old }
        ensures { rooms.new ≡ rooms.old }
    {
        for _ in 0..MOST_CHANGES {
            let singles = single_changes(at.alloc, at.inst, &self.open)?;
            if self.make_best(at, rooms, &singles)? {
                continue;
            }
            let exchanges = exchanges(at.alloc, at.inst, &self.open)?;
            if !self.make_best(at, rooms, &exchanges)? {
                return Ok(());
            }
        }
        Ok(())
    }

    /// The sets beside this one that cost less than `most` millionths, as changes of it, the first of which is
    /// none. It fails only where memory runs out.
    pub(crate) fn near(
        &mut self,
        at: &Ordered<'_>,
        rooms: &mut Transport,
        most: f64,
    ) -> Result<Vec<Change>, NoMemory>
        requires { IsReady at.now rooms.old }
        ensures { rooms.new ≡ rooms.old }
    {
        self.cost = most;
        let mut near = Vec::new(at.alloc);
        near.push(NO_CHANGE)?;
        let singles = single_changes(at.alloc, at.inst, &self.open)?;
        self.push_near(at, rooms, &singles, &mut near)?;
        let exchanges = exchanges(at.alloc, at.inst, &self.open)?;
        self.push_near(at, rooms, &exchanges, &mut near)?;
        Ok(near)
    }

    // Those of the changes with which the set costs less than it may.
    fn push_near(
        &mut self,
        at: &Ordered<'_>,
        rooms: &mut Transport,
        changes: &[Change],
        near: &mut Vec<Change>,
    ) -> Result<(), NoMemory>
        requires { IsReady at.now rooms.old }
        ensures { rooms.new ≡ rooms.old }
    {
        for change in changes {
            if self.cost_with(at, rooms, change)?.is_some() {
                near.push(*change)?;
            }
        }
        Ok(())
    }

    // Makes the change that makes the set cheapest. The answer is whether one makes it cheaper.
    fn make_best(
        &mut self,
        at: &Ordered<'_>,
        rooms: &mut Transport,
        changes: &[Change],
    ) -> Result<bool, NoMemory>
        requires { IsReady at.now rooms.old }
        ensures { rooms.new ≡ rooms.old }
    {
        let mut best = None;
        for change in changes {
            if let Some(cost) = self.cost_with(at, rooms, change)? {
                self.cost = cost;
                best = Some(*change);
            }
        }
        match best {
            None => Ok(false),
            Some(change) => {
                change.make(&mut self.open);
                Ok(true)
            }
        }
    }

    // What the set costs with the change, where that is less than it costs without.
    fn cost_with(
        &mut self,
        at: &Ordered<'_>,
        rooms: &mut Transport,
        change: &Change,
    ) -> Result<Option<f64>, NoMemory>
        requires { IsReady at.now rooms.old }
        ensures { rooms.new ≡ rooms.old }
    {
        change.make(&mut self.open);
        let mut cost = None;
        if self.looks > 0 && holds_all(at.inst, &self.open) {
            self.looks -= 1;
            cost = set_cost(at, rooms, &self.open, self.cost)?;
        }
        change.undo(&mut self.open);
        Ok(cost)
    }
}

/// The path on which each site is settled: opened where it is flagged, and else closed. It fails only where
/// memory runs out.
pub(crate) fn path_of(alloc: Global, inst: &Instance, open: &[bool]) -> Result<Path, NoMemory> {
    let mut path = Path::root(alloc);
    for site in 0..inst.sites() {
        let id = inst.site_id(site);
        let is_open = site < open.len() && open[site];
        path.push(if is_open {
            Decision::Opened(id)
        } else {
            Decision::Closed(id)
        })?;
    }
    Ok(path)
}

// What the transportation problem of a set costs with its fixed costs, in millionths, where that is less than
// `most`.
fn set_cost(
    at: &Ordered<'_>,
    rooms: &mut Transport,
    open: &[bool],
    most: f64,
) -> Result<Option<f64>, NoMemory>
    requires { IsReady at.now rooms.old }
    ensures { rooms.new ≡ rooms.old }
{
    let path = path_of(at.alloc, at.inst, open)?;
    let boxed = PreparedBox::of(at.alloc, at.inst, &path)?;
    Ok(box_cost(&boxed, at.order, rooms, most))
}

/// What the transportation problem of a box costs whose sites are all settled, with their fixed costs, in
/// millionths, where that is less than `most`.
pub(crate) fn box_cost(
    boxed: &PreparedBox<'_>,
    order: &LaneOrder,
    rooms: &mut Transport,
    most: f64,
) -> Option<f64>
    requires order { IsOrderOf order.now boxed.now.instance }
    requires sizes { rooms.old ≡ sizes_of boxed.now.instance }
    ensures { rooms.new ≡ rooms.old }
{
    rooms.enter(boxed, order);
    rooms.cost_below(most)
}
