//! The lanes to one customer, and the room for more.
ghost use Rattle.std.specs.Prelude.{◌≡◌, ◌≢◌, ◌+◌, ◌<◌, ◌≤◌, length, map, filter, All, AllPairs, Contains, IfOk, OnOk, vec_len, vec_capacity};
ghost use Rattle.std.specs.List.Sorted.{IsPartitionPoint};
ghost use Rattle.lane_order.specs.Grown.{IsGrown, HaveGrown};
ghost use Rattle.lane_order.specs.Listed.{IsPlacedBefore, IsNotBefore, is_placed_before, IsWith, IsWithout, IsLaneFrom, HaveSameOthers, IsList, IsFresh, HasLaneMore, HasLaneLess, IsFilled, lane_up, lane_down, is_elsewhere};
ghost use Rattle.location_terms.specs.declared.limits.TheConstants.{MAX_SITES};

use crate::shifting::{shift_down, shift_up};
use crate::{LaneRow, NoMemory, PlacedLane};
use std::alloc::Global;
use std::marker::Model;

/// The lanes to one customer, by cost and then by the place of the site. A clause sees the lanes, and
/// how many more there is room for.
#[derive(Drop)]
pub(crate) struct LaneList {
    lanes: Vec<PlacedLane>,
}

impl Model for LaneList {
    ghost use Rattle.std.specs.Prelude.{◌-◌, vec_len, vec_capacity};
    ghost use Rattle.lane_order.specs.Grown.{IsGrown, HaveGrown};
    ghost use Rattle.lane_order.specs.Listed.{Listed};

    ghost Value = { Listed };

    ghost view = { λ a. record { lanes = a.lanes.items; spare = vec_capacity a.lanes - vec_len a.lanes } };
}

impl LaneList {
    /// The list of these lanes. It fails only where memory runs out.
    pub(crate) fn from_slice(alloc: Global, lanes: &[PlacedLane]) -> Result<LaneList, NoMemory>
        ensures { IfOk result (λ list. list.lanes ≡ lanes.now) }
    {
        Ok(LaneList {
            lanes: Vec::from_slice(alloc, lanes)?,
        })
    }

    /// An empty list with room for so many lanes. It fails only where memory runs out.
    pub(crate) fn with_capacity(alloc: Global, lanes: usize) -> Result<LaneList, NoMemory>
        ensures { IfOk result (IsFresh lanes) }
    {
        Ok(LaneList {
            lanes: Vec::with_capacity(alloc, lanes)?,
        })
    }

    /// The lanes in order.
    #[inline(always)]
    pub(crate) fn lanes(&self) -> &[PlacedLane]
        ensures { result.now ≡ self.now.lanes }
    {
        self.lanes.as_slice()
    }

    /// Makes room for so many more lanes, which stay. It fails only where memory runs out.
    pub(crate) fn reserve(&mut self, more: usize) -> Result<(), NoMemory>
        ensures kept { IsGrown self.old self.new }
        ensures room { OnOk result (more ≤ self.new.spare) }
    {
        self.lanes.reserve(more)?;
        Ok(())
    }

    /// Replaces the lane from the site at place `site`, where it is `old`. It takes no memory.
    pub(crate) fn set(&mut self, site: u32, old: Option<u64>, new: Option<u64>)
        requires room { 0 < self.old.spare }
        requires ascending { AllPairs IsPlacedBefore self.old.lanes }
        requires old { IsLaneFrom site old self.old.lanes }
        ensures ascending { AllPairs IsPlacedBefore self.new.lanes }
        ensures lane { IsLaneFrom site new self.new.lanes }
        ensures others { HaveSameOthers site self.old.lanes self.new.lanes }
        ensures spare { self.old.spare ≤ self.new.spare + 1 }
    {
        self.drop_lane(site, old);
        self.add_lane(site, new);
    }

    /// A site comes in at a place, with its lane to the customer. It takes no memory.
    pub(crate) fn insert_site(&mut self, place: u32, lane: Option<u64>)
        requires { IsList MAX_SITES 1 self.old }
        ensures { HasLaneMore place lane self.old self.new }
    {
        self.shift_up(place);
        self.add_lane(place, lane);
    }

    /// The site at a place goes, with its lane where it has one.
    pub(crate) fn remove_site(&mut self, place: u32)
        requires { AllPairs IsPlacedBefore self.old.lanes }
        ensures { HasLaneLess place self.old self.new }
    {
        self.drop_from(place);
        self.shift_down(place);
    }

    /// Fills an empty list with these lanes, each from the site at its place. It takes no memory.
    pub(crate) fn fill(&mut self, lanes: &LaneRow)
        requires few { length lanes.now ≤ MAX_SITES }
        requires fresh { IsFresh (length lanes.now) self.old }
        ensures { IsFilled lanes.now self.old self.new }
    {
        for site in 0..lanes.len() {
            self.add_lane(site as u32, lanes.get(site));
        }
    }

    fn shift_up(&mut self, place: u32)
        requires { All (λ lane. lane.site < MAX_SITES) self.old.lanes }
        ensures lanes { self.new.lanes ≡ map (lane_up place) self.old.lanes }
        ensures spare { self.new.spare ≡ self.old.spare }
    {
        shift_up(&mut self.lanes, place);
    }

    fn shift_down(&mut self, place: u32)
        ensures lanes { self.new.lanes ≡ map (lane_down place) self.old.lanes }
        ensures spare { self.new.spare ≡ self.old.spare }
    {
        shift_down(&mut self.lanes, place);
    }

    // Takes out the lane from the site at a place, where there is one.
    fn drop_from(&mut self, place: u32)
        ensures lanes { self.new.lanes ≡ filter (is_elsewhere place) self.old.lanes }
        ensures spare { self.old.spare ≤ self.new.spare }
    {
        self.lanes.retain(|lane| lane.site != place);
    }

    fn drop_lane(&mut self, site: u32, lane: Option<u64>)
        requires ascending { AllPairs IsPlacedBefore self.old.lanes }
        requires lane { IsLaneFrom site lane self.old.lanes }
        ensures ascending { AllPairs IsPlacedBefore self.new.lanes }
        ensures gone { IsLaneFrom site None self.new.lanes }
        ensures others { HaveSameOthers site self.old.lanes self.new.lanes }
        ensures spare { self.old.spare ≤ self.new.spare }
    {
        if let Some(cost) = lane {
            self.remove(PlacedLane { cost, site });
        }
    }

    fn add_lane(&mut self, site: u32, lane: Option<u64>)
        requires room { 0 < self.old.spare }
        requires ascending { AllPairs IsPlacedBefore self.old.lanes }
        requires none { IsLaneFrom site None self.old.lanes }
        ensures ascending { AllPairs IsPlacedBefore self.new.lanes }
        ensures lane { IsLaneFrom site lane self.new.lanes }
        ensures others { HaveSameOthers site self.old.lanes self.new.lanes }
        ensures spare { self.old.spare ≤ self.new.spare + 1 }
    {
        if let Some(cost) = lane {
            self.insert(PlacedLane { cost, site });
        }
    }

    // Puts a lane from a site that has none yet in its place among the others. It takes no memory.
    fn insert(&mut self, lane: PlacedLane)
        requires room { 0 < self.old.spare }
        requires ascending { AllPairs IsPlacedBefore self.old.lanes }
        requires new { All (λ other. other.site ≢ lane.site) self.old.lanes }
        ensures ascending { AllPairs IsPlacedBefore self.new.lanes }
        ensures lanes { IsWith lane self.old.lanes self.new.lanes }
        ensures spare { self.new.spare + 1 ≡ self.old.spare }
    {
        put(&mut self.lanes, lane);
    }

    // Takes a lane out. It takes no memory.
    fn remove(&mut self, lane: PlacedLane)
        requires ascending { AllPairs IsPlacedBefore self.old.lanes }
        requires there { Contains self.old.lanes lane }
        ensures ascending { AllPairs IsPlacedBefore self.new.lanes }
        ensures lanes { IsWithout lane self.old.lanes self.new.lanes }
        ensures spare { self.new.spare ≡ self.old.spare + 1 }
    {
        take_out(&mut self.lanes, lane);
    }
}

/// Makes room for so many more lanes in each list. It fails only where memory runs out.
pub(crate) fn reserve_each(lists: &mut [LaneList], more: usize) -> Result<(), NoMemory>
    ensures kept { HaveGrown lists.old lists.new }
    ensures room { OnOk result (All (λ list. more ≤ list.spare) lists.new) }
{
    for cust in 0..lists.len() {
        lists[cust].reserve(more)?;
    }
    Ok(())
}

fn put(lanes: &mut Vec<PlacedLane>, lane: PlacedLane)
    requires room { vec_len lanes.old < vec_capacity lanes.old }
    requires ascending { AllPairs IsPlacedBefore lanes.old.items }
    requires new { All (λ other. other.site ≢ lane.site) lanes.old.items }
    ensures ascending { AllPairs IsPlacedBefore lanes.new.items }
    ensures lanes { IsWith lane lanes.old.items lanes.new.items }
    ensures longer { vec_len lanes.new ≡ vec_len lanes.old + 1 }
    ensures room { vec_capacity lanes.new ≡ vec_capacity lanes.old }
{
    let place = place_of(lanes, lane);
    let Ok(()) = lanes.insert(place, lane) else {
        unreachable!();
    };
}

fn take_out(lanes: &mut Vec<PlacedLane>, lane: PlacedLane)
    requires ascending { AllPairs IsPlacedBefore lanes.old.items }
    requires there { Contains lanes.old.items lane }
    ensures ascending { AllPairs IsPlacedBefore lanes.new.items }
    ensures lanes { IsWithout lane lanes.old.items lanes.new.items }
    ensures shorter { vec_len lanes.new + 1 ≡ vec_len lanes.old }
    ensures room { vec_capacity lanes.new ≡ vec_capacity lanes.old }
{
    let place = place_of(lanes, lane);
    let _ = lanes.remove(place);
}

// How many of the lanes come before this one.
fn place_of(lanes: &[PlacedLane], lane: PlacedLane) -> usize
    requires { AllPairs IsPlacedBefore lanes.now }
    ensures within { result ≤ length lanes.now }
    ensures parted { IsPartitionPoint (λ other. IsPlacedBefore other lane) (λ other. IsNotBefore other lane) lanes.now result }
{
    lanes.partition_point(|other| is_before(*other, lane))
}

fn is_before(a: PlacedLane, b: PlacedLane) -> bool
    ensures { result ≡ is_placed_before a b }
{
    a.cost < b.cost || (a.cost == b.cost && a.site < b.site)
}
