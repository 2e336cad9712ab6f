//! Where the sites and customers of an instance stood before its edits.
ghost use Rattle.std.specs.Prelude.{◌≡◌, ◌<◌, ◌≤◌, All, IfOk, take, length};
ghost use Rattle.std.specs.List.Sorted.{IsStrictlyIncreasing};
ghost use Rattle.location_terms.specs.Instance.{site_ids, customer_ids};
ghost use Rattle.instance_store.specs.Places.{place_of};
ghost use Rattle.leaf_repair.specs.Placed.{places_of};

use instance_store::{Instance, NoMemory};
use location_terms::{CustId, SiteId};
use std::alloc::Global;

// For each site and each customer of an instance the first place of its id in lists from before, where it stands there.
#[derive(Drop)]
pub(crate) struct Places {
    pub(crate) sites: Vec<Option<usize>>,
    pub(crate) customers: Vec<Option<usize>>,
}

impl Places {
    pub(crate) fn of(
        alloc: Global,
        inst: &Instance,
        sites: &[SiteId],
        customers: &[CustId],
    ) -> Result<Places, NoMemory>
        ensures sites { IfOk result (λ p. p.sites.items ≡ places_of sites.now (site_ids inst.now)) }
        ensures customers { IfOk result (λ p. p.customers.items ≡ places_of customers.now (customer_ids inst.now)) }
    {
        let _valid = inst.sites();
        let before = site_numbers(alloc, sites)?;
        let now = instance_sites(alloc, inst)?;
        let sites = places_in(alloc, &before, &now)?;
        let before = customer_numbers(alloc, customers)?;
        let now = instance_customers(alloc, inst)?;
        let customers = places_in(alloc, &before, &now)?;
        Ok(Places { sites, customers })
    }
}

fn site_numbers(alloc: Global, ids: &[SiteId]) -> Result<Vec<u32>, NoMemory>
    ensures { IfOk result (λ v. v.items ≡ ids.now) }
{
    let mut numbers = Vec::with_capacity(alloc, ids.len())?;
    for k in 0..ids.len() {
        numbers.push(ids[k].number())?;
    }
    Ok(numbers)
}

fn customer_numbers(alloc: Global, ids: &[CustId]) -> Result<Vec<u32>, NoMemory>
    ensures { IfOk result (λ v. v.items ≡ ids.now) }
{
    let mut numbers = Vec::with_capacity(alloc, ids.len())?;
    for k in 0..ids.len() {
        numbers.push(ids[k].number())?;
    }
    Ok(numbers)
}

fn instance_sites(alloc: Global, inst: &Instance) -> Result<Vec<u32>, NoMemory>
    ensures { IfOk result (λ v. v.items ≡ site_ids inst.now) }
{
    let mut numbers = Vec::with_capacity(alloc, inst.sites())?;
    for site in 0..inst.sites() {
        numbers.push(inst.site_id(site).number())?;
    }
    Ok(numbers)
}

fn instance_customers(alloc: Global, inst: &Instance) -> Result<Vec<u32>, NoMemory>
    ensures { IfOk result (λ v. v.items ≡ customer_ids inst.now) }
{
    let mut numbers = Vec::with_capacity(alloc, inst.custs())?;
    for cust in 0..inst.custs() {
        numbers.push(inst.cust_id(cust).number())?;
    }
    Ok(numbers)
}

// The first place of each number among those from before. Where these rise too, as ids do, it is one walk over
// both, but for numbers that aren't there.
fn places_in(alloc: Global, before: &[u32], now: &[u32]) -> Result<Vec<Option<usize>>, NoMemory>
    requires { IsStrictlyIncreasing now.now }
    ensures { IfOk result (λ v. v.items ≡ places_of before.now now.now) }
{
    let mut places = Vec::with_capacity(alloc, now.len())?;
    let mut passed = 0;
    for k in 0..now.len() {
        let id = now[k];
        passed = pass(before, passed, id);
        places.push(first_place(before, passed, id))?;
    }
    Ok(places)
}

// The first place of the number, where each one before the place `from` is less.
fn first_place(before: &[u32], from: usize, id: u32) -> Option<usize>
    requires within { from ≤ length before.now }
    requires less { All (λ x. x < id) (take from before.now) }
    ensures { result ≡ place_of id before.now }
{
    for at in from..before.len() {
        if before[at] == id {
            return Some(at);
        }
    }
    None
}

// A place from `from` on, before which each number is less.
fn pass(before: &[u32], from: usize, id: u32) -> usize
    requires within { from ≤ length before.now }
    requires less { All (λ x. x < id) (take from before.now) }
    ensures within { result ≤ length before.now }
    ensures less { All (λ x. x < id) (take result before.now) }
{
    let mut at = from;
    while at < before.len() && before[at] < id {
        at += 1;
    }
    at
}
