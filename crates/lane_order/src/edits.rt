//! The lists of all customers when a site or a customer comes or goes.
ghost use Rattle.std.specs.Prelude.{◌≡◌, ℕ, ◌+◌, ◌-◌, ◌<◌, ◌≤◌, [], ◌++◌, ◌∷◌, length, insert, All, AllPairs, None, OnOk, slice_index_or, vec_len, vec_capacity};
ghost use Rattle.location_terms.specs.declared.limits.TheConstants.{MAX_SITES};
ghost use Rattle.lane_order.specs.Grown.{HaveGrown};
ghost use Rattle.lane_order.specs.Listed.{Listed, IsPlacedBefore, IsList, IsFresh, HasLaneMore, HasLaneLess};

use crate::lane_list::{LaneList, reserve_each};
use crate::{LaneRow, NoMemory, SiteId};
use std::alloc::Global;

/// Makes room for so many more lanes in each list, and for so many more lists. It fails only where memory
/// runs out.
pub(crate) fn widen(lists: &mut Vec<LaneList>, more: usize) -> Result<(), NoMemory>
    ensures kept { HaveGrown lists.old.items lists.new.items }
    ensures len { vec_len lists.new ≡ vec_len lists.old }
    ensures capacity { vec_capacity lists.old ≤ vec_capacity lists.new }
    ensures lanes { OnOk result (All (λ list. more ≤ list.spare) lists.new.items) }
    ensures room { OnOk result (more ≤ vec_capacity lists.new - vec_len lists.new) }
{
    lists.reserve(more)?;
    reserve_each(lists, more)?;
    Ok(())
}

/// A site comes in at a place, with its lane to each customer. It takes no memory.
pub(crate) fn insert_site(lists: &mut [LaneList], place: u32, lanes: &LaneRow)
    requires lanes { length lanes.now ≡ length lists.old }
    requires lists { All (IsList MAX_SITES 1) lists.old }
    ensures count { length lists.new ≡ length lists.old }
    ensures each { (j : ℕ) (d : Listed) → j < length lists.old → HasLaneMore place (slice_index_or lanes.now j None) (slice_index_or lists.old j d) (slice_index_or lists.new j d) }
{
    for cust in 0..lists.len() {
        lists[cust].insert_site(place, lanes.get(cust));
    }
}

/// The site at a place goes, with its lanes.
pub(crate) fn remove_site(lists: &mut [LaneList], place: u32)
    requires { All (λ list. AllPairs IsPlacedBefore list.lanes) lists.old }
    ensures count { length lists.new ≡ length lists.old }
    ensures each { (j : ℕ) (d : Listed) → j < length lists.old → HasLaneLess place (slice_index_or lists.old j d) (slice_index_or lists.new j d) }
{
    for cust in 0..lists.len() {
        lists[cust].remove_site(place);
    }
}

/// Puts an id in its place, where there is room.
pub(crate) fn put_id(ids: &mut Vec<SiteId>, place: usize, id: SiteId)
    requires place { place ≤ vec_len ids.old }
    requires room { vec_len ids.old < vec_capacity ids.old }
    ensures ids { ids.new.items ≡ insert ids.old.items place id }
    ensures longer { vec_len ids.new ≡ vec_len ids.old + 1 }
    ensures room { vec_capacity ids.new ≡ vec_capacity ids.old }
{
    let Ok(()) = ids.insert(place, id) else {
        unreachable!();
    };
}

/// Puts a list in its place, where there is room.
pub(crate) fn put_list(lists: &mut Vec<LaneList>, place: usize, list: LaneList)
    requires place { place ≤ vec_len lists.old }
    requires room { vec_len lists.old < vec_capacity lists.old }
    ensures lists { lists.new.items ≡ insert lists.old.items place list }
    ensures longer { vec_len lists.new ≡ vec_len lists.old + 1 }
    ensures room { vec_capacity lists.new ≡ vec_capacity lists.old }
{
    let Ok(()) = lists.insert(place, list) else {
        unreachable!();
    };
}

/// Takes one of the lists that are kept for customers to come.
pub(crate) fn take_fresh(fresh: &mut Vec<LaneList>) -> LaneList
    requires { 0 < vec_len fresh.old }
    ensures taken { fresh.old.items ≡ fresh.new.items ++ result ∷ [] }
    ensures shorter { vec_len fresh.new + 1 ≡ vec_len fresh.old }
{
    let Some(list) = fresh.pop() else {
        unreachable!();
    };
    list
}

/// Keeps so many empty lists, each with room for so many lanes. It fails only where memory runs out, and
/// then those that were there are no less and have no less room.
pub(crate) fn keep_fresh(
    alloc: Global,
    fresh: &mut Vec<LaneList>,
    count: usize,
    lanes: usize,
) -> Result<(), NoMemory>
    ensures kept { (room : ℕ) → room ≤ lanes → All (IsFresh room) fresh.old.items → All (IsFresh room) fresh.new.items }
    ensures count { vec_len fresh.old ≤ vec_len fresh.new }
    ensures many { OnOk result (count ≤ vec_len fresh.new) }
    ensures room { OnOk result (All (IsFresh 0) fresh.old.items → All (IsFresh lanes) fresh.new.items) }
{
    reserve_each(fresh, lanes)?;
    for _more in fresh.len()..count {
        push_fresh(alloc, fresh, lanes)?;
    }
    Ok(())
}

// One more empty list with room for so many lanes.
fn push_fresh(alloc: Global, fresh: &mut Vec<LaneList>, lanes: usize) -> Result<(), NoMemory>
    ensures kept { (room : ℕ) → room ≤ lanes → All (IsFresh room) fresh.old.items → All (IsFresh room) fresh.new.items }
    ensures count { vec_len fresh.old ≤ vec_len fresh.new }
    ensures longer { OnOk result (vec_len fresh.new ≡ vec_len fresh.old + 1) }
{
    fresh.push(LaneList::with_capacity(alloc, lanes)?)?;
    Ok(())
}
