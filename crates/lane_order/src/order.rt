//! The order of the lanes, and what is read of it.
ghost use Rattle.std.specs.Prelude.{◌≡◌, ℕ, ◌+◌, ◌<◌, ◌≤◌, List, Option, length, map, insert, slice_index, All, IfOk, OnOk};
ghost use Rattle.std.specs.List.Sorted.{IsNonDecreasingBy, IsStrictlyIncreasing};
ghost use Rattle.location_terms.specs.declared.limits.TheConstants.{MAX_SITES};
ghost use Rattle.location_terms.specs.Instance.{Instance as Meaning, IsValid};
ghost use Rattle.lane_order.specs.Changed.{IsLaneTo, DifferInLane, HasSiteMore, HasCustMore};
ghost use Rattle.lane_order.specs.Order.{IsOrderOf, lanes_to, lane_at, next_above};
ghost use Rattle.lane_order.specs.Placed.{named};

use crate::build::{lane_lists, site_ids};
use crate::edits::{insert_site, keep_fresh, put_id, put_list, remove_site, take_fresh, widen};
use crate::lane_list::LaneList;
use crate::{Instance, LaneRow, NoMemory, SiteId};
use std::alloc::Global;
use std::marker::Model;

/// A lane to a customer, by the place of its site.
#[derive(Clone, Copy, Debug, PartialEq, Eq, PartialOrd, Ord)]
pub struct PlacedLane {
    /// What it costs to serve the whole customer, in millionths.
    pub cost: u64,
    /// The place of the site, counted from 0.
    pub site: u32,
}

/// The lanes of an instance, for each customer by cost, and by the site's id where costs are equal.
/// Customers and sites are known by their places, which count from 0 in the order of the instance.
/// The lanes to one customer lie side by side, and those to another apart from them: where a lane comes
/// or goes, only those to its customer move.
#[derive(Drop)]
pub struct LaneOrder {
    site_ids: Vec<SiteId>,
    lists: Vec<LaneList>,
    // Empty lists for customers to come, each with room for the lanes of all sites and those to come.
    fresh: Vec<LaneList>,
    // There is room for at least so many more lanes in each list, sites and customers.
    spare: usize,
}

impl Model for LaneOrder {
    ghost use Rattle.lane_order.specs.Order.{Order};

    ghost Value = { Order };

    ghost use Rattle.lane_order.specs.Stored.{stored_order, IsStored};

    ghost view = { stored_order };

    ghost invariant = { IsStored };
}

impl LaneOrder {
    /// The lanes of the instance in order. It fails only where memory runs out.
    pub fn of(alloc: Global, inst: &Instance) -> Result<LaneOrder, NoMemory>
        ensures { IfOk result (λ order. IsOrderOf order inst.now) }
    {
        let site_ids = site_ids(alloc, inst)?;
        let lists = lane_lists(alloc, inst)?;
        Ok(LaneOrder {
            site_ids,
            lists,
            fresh: Vec::new(alloc),
            spare: 0,
        })
    }

    /// Makes room for so many changes, which one after the other may then be made without memory: in
    /// each a lane is replaced, or a site or a customer comes in. The order stays. It fails only where
    /// memory runs out.
    pub fn reserve(&mut self, more: usize) -> Result<(), NoMemory>
        ensures sites { self.new.sites ≡ self.old.sites }
        ensures lanes { self.new.lanes ≡ self.old.lanes }
        ensures grown { self.old.spare ≤ self.new.spare }
        ensures room { OnOk result (more ≤ self.new.spare) }
    {
        let spare = self.spare.max(more);
        widen(&mut self.lists, spare)?;
        self.site_ids.reserve(spare)?;
        let alloc = *self.fresh.allocator();
        keep_fresh(alloc, &mut self.fresh, spare, self.site_ids.len() + spare)?;
        self.spare = spare;
        Ok(())
    }

    /// Replaces the lane from the site at place `site` to the customer at place `cust`, which costs `old`,
    /// in millionths, or isn't there. It takes no memory. The order is then that of an instance with that
    /// lane replaced.
    pub fn set_lane(&mut self, cust: usize, site: u32, old: Option<u64>, new: Option<u64>)
        requires customer { cust < length self.old.lanes }
        requires site { site < length self.old.sites }
        requires old { IsLaneTo (slice_index self.old.sites site) old (lanes_to self.old cust) }
        requires room { 0 < self.old.spare }
        ensures order { (I J : Meaning) → IsValid I → IsOrderOf self.old I → DifferInLane I J site cust new → IsOrderOf self.new J }
        ensures spare { self.new.spare + 1 ≡ self.old.spare }
    {
        self.lists[cust].set(site, old, new);
        self.spare -= 1;
    }

    /// A site comes in at a place, with its id and its lanes to the customers by their places: the sites
    /// from there on come one place behind. It takes no memory. The order is then that of an instance with
    /// that site.
    pub fn insert_site(&mut self, place: usize, id: SiteId, lanes: &LaneRow)
        requires place { place ≤ length self.old.sites }
        requires few { length self.old.sites < MAX_SITES }
        requires rising { IsStrictlyIncreasing (insert self.old.sites place id) }
        requires lanes { length lanes.now ≡ length self.old.lanes }
        requires room { 0 < self.old.spare }
        ensures order { (I J : Meaning) → IsValid I → IsValid J → IsOrderOf self.old I → HasSiteMore I J place id lanes.now → IsOrderOf self.new J }
        ensures spare { self.new.spare + 1 ≡ self.old.spare }
    {
        insert_site(&mut self.lists, place as u32, lanes);
        put_id(&mut self.site_ids, place, id);
        self.spare -= 1;
    }

    /// The site at a place goes, with its lanes: the sites behind it come one place forward. It takes no
    /// memory. The order is then that of an instance without that site.
    pub fn remove_site(&mut self, place: usize)
        requires { place < length self.old.sites }
        ensures order { (I J : Meaning) (s : ℕ) (lanes : List (Option ℕ)) → IsValid I → IsValid J → IsOrderOf self.old J → HasSiteMore I J place s lanes → IsOrderOf self.new I }
        ensures spare { self.new.spare ≡ self.old.spare }
    {
        remove_site(&mut self.lists, place as u32);
        let _ = self.site_ids.remove(place);
    }

    /// A customer comes in at a place, with its lanes from the sites by their places: the customers from
    /// there on come one place behind. It takes no memory. The order is then that of an instance with that
    /// customer.
    pub fn insert_cust(&mut self, place: usize, lanes: &LaneRow)
        requires place { place ≤ length self.old.lanes }
        requires lanes { length lanes.now ≡ length self.old.sites }
        requires room { 0 < self.old.spare }
        ensures order { (I J : Meaning) (c : ℕ) → IsValid I → IsValid J → IsOrderOf self.old I → HasCustMore I J place c lanes.now → IsOrderOf self.new J }
        ensures spare { self.new.spare + 1 ≡ self.old.spare }
    {
        let mut list = take_fresh(&mut self.fresh);
        list.fill(lanes);
        put_list(&mut self.lists, place, list);
        self.spare -= 1;
    }

    /// The customer at a place goes, with its lanes: the customers behind it come one place forward. It
    /// takes no memory. The order is then that of an instance without that customer.
    pub fn remove_cust(&mut self, place: usize)
        requires { place < length self.old.lanes }
        ensures order { (I J : Meaning) (c : ℕ) (lanes : List (Option ℕ)) → IsValid I → IsValid J → IsOrderOf self.old J → HasCustMore I J place c lanes → IsOrderOf self.new I }
        ensures spare { self.new.spare ≡ self.old.spare }
    {
        let _ = self.lists.remove(place);
    }

    /// The number of customers.
    pub fn custs(&self) -> usize
        ensures { result ≡ length self.now.lanes }
    {
        self.lists.len()
    }

    /// All lanes to the customer at place `cust`, by rank.
    pub fn lanes(&self, cust: usize) -> &[PlacedLane]
        requires { cust < length self.now.lanes }
        ensures exact { map (named self.now.sites) result.now ≡ lanes_to self.now cust }
        ensures known { All (λ lane. lane.site < length self.now.sites) result.now }
        ensures rising { IsNonDecreasingBy (λ lane. lane.cost) result.now }
    {
        self.lists[cust].lanes()
    }

    /// The lane of this rank to the customer at place `cust`, as its cost in millionths and its
    /// site, and `None` exactly where the customer has no more lanes. Ranks count from 0.
    pub fn lane_at(&self, cust: usize, rank: usize) -> Option<(u64, SiteId)>
        requires { cust < length self.now.lanes }
        ensures { result ≡ lane_at self.now cust rank }
    {
        let lanes = self.lanes(cust);
        if rank >= lanes.len() {
            return None;
        }
        Some(self.named(lanes[rank]))
    }

    /// The first lane to the customer at place `cust` that costs more than this, in millionths, and
    /// `None` exactly where none does.
    pub fn next_above(&self, cust: usize, cost: u64) -> Option<(u64, SiteId)>
        requires { cust < length self.now.lanes }
        ensures { result ≡ next_above self.now cust cost }
    {
        let rank = self.lanes(cust).partition_point(|lane| lane.cost <= cost);
        self.lane_at(cust, rank)
    }

    fn named(&self, lane: PlacedLane) -> (u64, SiteId)
        requires { lane.site < length self.now.sites }
        ensures { result ≡ named self.now.sites lane }
    {
        (lane.cost, self.site_ids[lane.site as usize])
    }
}
