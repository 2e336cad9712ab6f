//! How the sites of a box are prepared: each step of its path is looked at once.
ghost use Rattle.std.specs.Prelude.{◌≡◌, ◌<◌, ◌≤◌, ◌++◌, ◌&&◌, [], ◌∷◌, IfOk, length, ℕ, nat_lt, not};
ghost use Rattle.location_terms.specs.Instance.{IsValid};
ghost use Rattle.location_terms.specs.Box.{Path as Decisions, holds_demand, is_torn};
ghost use Rattle.location_terms.specs.declared.limits.TheConstants.{MAX_AMOUNT};
ghost use Rattle.instance_store.specs.Small.{IsSmall};
ghost use Rattle.dual_value.specs.PreparedSites.{AreStates, AreDemandEnds, settled_by, opened_by, state_of, is_open};

use crate::settled::named_site;
use crate::{Path, SiteState, is_torn};
use instance_store::{Instance, NoMemory, SiteStatus};
use location_terms::{Decision, MAX_AMOUNT};
use std::alloc::Global;

/// What is settled of each site, by place.
pub(crate) fn site_states(
    alloc: Global,
    inst: &Instance,
    path: &Path,
) -> Result<Vec<SiteState>, NoMemory>
    ensures { IfOk result (λ states. AreStates inst.now path.now states.items) }
{
    let mut states = states_by_status(alloc, inst)?;
    for step in path.as_slice() {
        settle(inst, step, &mut states);
    }
    Ok(states)
}

// What the statuses alone settle.
fn states_by_status(alloc: Global, inst: &Instance) -> Result<Vec<SiteState>, NoMemory>
    ensures exact { IfOk result (λ states. AreStates inst.now [] states.items) }
    ensures valid { IsValid inst.now }
{
    let mut states = Vec::with_capacity(alloc, inst.sites())?;
    for site in 0..inst.sites() {
        states.push(state_of(inst.status(site)))?;
    }
    Ok(states)
}

fn state_of(status: SiteStatus) -> SiteState
    ensures { result ≡ state_of status }
{
    match status {
        SiteStatus::MustOpen => SiteState::Opened,
        SiteStatus::MustClose => SiteState::Closed,
        SiteStatus::Free => SiteState::Free,
    }
}

// What is settled with one more step.
fn settle(inst: &Instance, step: &Decision, states: &mut [SiteState])
    requires valid { IsValid inst.now }
    requires long { length states.old ≡ length inst.now.sites }
    ensures long { length states.new ≡ length states.old }
    ensures settled { (path : Decisions) → AreStates inst.now path states.old → AreStates inst.now (path ++ step.now ∷ []) states.new }
{
    let Some(id) = named_site(step) else {
        return;
    };
    let Some(site) = inst.site_at(id) else {
        return;
    };
    states[site] = settled_by(states[site], step);
}

fn settled_by(state: SiteState, step: &Decision) -> SiteState
    ensures { result ≡ settled_by state step.now }
{
    match step {
        Decision::Closed(_) => SiteState::Closed,
        Decision::Opened(_) | Decision::Yes(_, _) => opened_by(state),
        Decision::No(_, _) => state,
    }
}

fn opened_by(state: SiteState) -> SiteState
    ensures { result ≡ opened_by state }
{
    match state {
        SiteState::Closed => SiteState::Closed,
        SiteState::Opened | SiteState::Free => SiteState::Opened,
    }
}

/// The end of the demands that each site may serve, by place.
pub(crate) fn demand_ends(
    alloc: Global,
    inst: &Instance,
    path: &Path,
    states: &[SiteState],
) -> Result<Vec<u64>, NoMemory>
    requires { AreStates inst.now path.now states.now }
    ensures { IfOk result (λ ends. AreDemandEnds inst.now path.now ends.items) }
{
    let torn = is_torn(inst, path.as_slice());
    let mut ends = Vec::with_capacity(alloc, inst.sites())?;
    for site in 0..inst.sites() {
        ends.push(demand_end(torn, states[site], inst.cap(site)))?;
    }
    Ok(ends)
}

fn demand_end(torn: bool, state: SiteState, cap: Option<u64>) -> u64
    requires { IsSmall cap }
    ensures { (demand : ℕ) → demand ≤ MAX_AMOUNT → nat_lt demand result ≡ (not torn && is_open state && holds_demand cap demand) }
{
    match state {
        SiteState::Closed => 0,
        SiteState::Opened | SiteState::Free => open_demand_end(torn, cap),
    }
}

fn open_demand_end(torn: bool, cap: Option<u64>) -> u64
    requires { IsSmall cap }
    ensures { (demand : ℕ) → demand ≤ MAX_AMOUNT → nat_lt demand result ≡ (not torn && holds_demand cap demand) }
{
    if torn {
        return 0;
    }
    match cap {
        None => MAX_AMOUNT + 1,
        Some(cap) => cap + 1,
    }
}
