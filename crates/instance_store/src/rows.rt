//! The rows that an instance is made of.
ghost use Rattle.std.specs.Prelude.{◌≡◌, ◌<◌, ◌≤◌, ◌↔◌, ◌++◌, ◌∷◌, [], None, IsTrue, IfOk, OnOk, OnErr, length, slice_index_or, slice_set, insert, remove};
ghost use Rattle.instance_store.specs.Small.{IsSmall, AreSmall};
ghost use Rattle.instance_store.specs.Lanes.{lane_in};

use crate::NoMemory;
use location_terms::{CustId, MAX_AMOUNT, SiteId};
use std::alloc::Global;
use std::marker::Model;

// What stands where there is no lane: it is above every amount.
const NO_LANE: u64 = u64::MAX;

/// What it costs to serve each customer from one site, in millionths, in the order of the
/// customers, and `None` where there is no lane. A lane takes 8 bytes. A clause sees the list.
#[derive(Debug, Drop)]
pub struct LaneRow {
    costs: Vec<u64>,
}

impl Model for LaneRow {
    ghost use Rattle.std.specs.Prelude.{List, ℕ, Option, map};
    ghost use Rattle.instance_store.specs.Lanes.{lane_in};

    ghost Value = { List (Option ℕ) };

    ghost view = { λ a. map lane_in a.costs.items };
}

impl LaneRow {
    /// A row without lanes, with room for those to so many customers. It fails only where memory
    /// runs out.
    pub fn with_capacity(alloc: Global, custs: usize) -> Result<LaneRow, NoMemory>
        ensures { IfOk result (λ row. row ≡ []) }
    {
        Ok(LaneRow {
            costs: Vec::with_capacity(alloc, custs)?,
        })
    }

    /// The row of these lanes, whose costs are at most `MAX_AMOUNT`. It fails only where memory runs
    /// out.
    pub fn from_slice(alloc: Global, lanes: &[Option<u64>]) -> Result<LaneRow, NoMemory>
        requires { AreSmall lanes.now }
        ensures { IfOk result (λ row. row ≡ lanes.now) }
    {
        let mut row = LaneRow::with_capacity(alloc, lanes.len())?;
        for lane in lanes {
            row.push(*lane)?;
        }
        Ok(row)
    }

    /// A copy of the row. It fails only where memory runs out.
    pub fn copied(&self, alloc: Global) -> Result<LaneRow, NoMemory>
        ensures { IfOk result (λ row. row ≡ self.now) }
    {
        Ok(LaneRow {
            costs: Vec::from_slice(alloc, &self.costs)?,
        })
    }

    /// Replaces the lane to the customer at place `k`. Its cost is at most `MAX_AMOUNT`. It takes no
    /// memory.
    pub fn set(&mut self, k: usize, lane: Option<u64>)
        requires place { k < length self.old }
        requires small { IsSmall lane }
        ensures { self.new ≡ slice_set self.old k lane }
    {
        self.costs[k] = stored(lane);
    }

    /// Puts the lane to a customer before that to the one at place `k`, or behind the others. Its cost is
    /// at most `MAX_AMOUNT`. It fails only where memory runs out, and then leaves the row as it was.
    pub fn insert(&mut self, k: usize, lane: Option<u64>) -> Result<(), NoMemory>
        requires place { k ≤ length self.old }
        requires small { IsSmall lane }
        ensures inserted { OnOk result (self.new ≡ insert self.old k lane) }
        ensures kept { OnErr result (self.new ≡ self.old) }
    {
        self.costs.insert(k, stored(lane))?;
        Ok(())
    }

    /// Takes the lane to the customer at place `k` out, and gives it back. It takes no memory.
    pub fn remove(&mut self, k: usize) -> Option<u64>
        requires { k < length self.old }
        ensures rest { self.new ≡ remove self.old k }
        ensures lane { result ≡ slice_index_or self.old k None }
    {
        lane_in(self.costs.remove(k))
    }

    /// Puts the lane to the next customer behind the others. Its cost is at most `MAX_AMOUNT`. It
    /// fails only where memory runs out, and then leaves the row as it was.
    pub fn push(&mut self, lane: Option<u64>) -> Result<(), NoMemory>
        requires { IsSmall lane }
        ensures pushed { IfOk result (λ _. self.new ≡ self.old ++ lane ∷ []) }
        ensures kept { OnErr result (self.new ≡ self.old) }
    {
        self.costs.push(stored(lane))?;
        Ok(())
    }

    /// The number of customers that the row was made for.
    pub fn len(&self) -> usize
        ensures { result ≡ length self.now }
    {
        self.costs.len()
    }

    /// Whether the row was made for no customer.
    pub fn is_empty(&self) -> bool
        ensures { IsTrue result ↔ (length self.now ≡ 0) }
    {
        self.costs.is_empty()
    }

    /// The lane to the customer at place `k`.
    #[inline(always)]
    pub fn get(&self, k: usize) -> Option<u64>
        requires { k < length self.now }
        ensures exact { result ≡ slice_index_or self.now k None }
        ensures small { IsSmall result }
    {
        lane_in(self.costs[k])
    }
}

// The number that stands for the lane.
fn stored(lane: Option<u64>) -> u64
    requires { IsSmall lane }
    ensures { lane_in result ≡ lane }
{
    match lane {
        Some(cost) => cost,
        None => NO_LANE,
    }
}

// The lane that the number stands for.
#[inline(always)]
fn lane_in(cost: u64) -> Option<u64>
    ensures exact { result ≡ lane_in cost }
    ensures small { IsSmall result }
{
    if cost > MAX_AMOUNT { None } else { Some(cost) }
}

/// A site to be, with its lanes to the customers in their order.
#[derive(Debug, Drop)]
pub struct SiteRow {
    /// The id that the site is known by.
    pub id: SiteId,
    /// What it costs to open the site, in millionths.
    pub fixed: u64,
    /// The most demand that the site serves, in millionths, and `None` where there is no limit.
    pub cap: Option<u64>,
    pub lanes: LaneRow,
}

/// A customer to be.
#[derive(Clone, Copy, Debug, PartialEq, Eq)]
pub struct CustRow {
    /// The id that the customer is known by.
    pub id: CustId,
    /// What the customer demands, in millionths.
    pub demand: u64,
}
