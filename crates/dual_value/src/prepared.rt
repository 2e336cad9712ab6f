//! A box that is looked at once, before its lanes are walked.
ghost use Rattle.std.specs.Prelude.{◌≡◌, ◌<◌, IfOk, IsSome, length};
ghost use Rattle.std.specs.List.{list_any};
ghost use Rattle.location_terms.specs.Instance.{site_at, customer_at, lane};
ghost use Rattle.location_terms.specs.Box.{bars_lane, is_allowed, is_opened};
ghost use Rattle.dual_value.specs.SiteState.{IsState};

use crate::lane_steps::{LaneSteps, chain_bars, lane_steps};
use crate::preparing::{demand_ends, site_states};
use crate::{Path, SiteState};
use instance_store::{Instance, NoMemory};
use std::alloc::Global;
use std::marker::Model;

/// What a path settles of the sites and customers of an instance, found out once and read for each
/// lane. Sites and customers are known by their places, which count from 0.
#[derive(Drop)]
pub struct PreparedBox<'a> {
    inst: &'a Instance,
    path: &'a Path,
    states: Vec<SiteState>,
    // By site, the end of the demands that it may serve: 0 where it may serve none.
    demand_ends: Vec<u64>,
    lane_steps: LaneSteps,
}

impl<'a> Model for PreparedBox<'a> {
    ghost use Rattle.dual_value.specs.Prepared.{Prepared, prepared_code};

    ghost Value = { Prepared };

    ghost coded = { prepared_code };

    ghost use Rattle.dual_value.specs.PreparedSites.{IsPrepared};

    ghost view = { λ a. record { instance = a.inst.now; path = a.path.now } };

    ghost invariant = { IsPrepared };
}

impl<'a> PreparedBox<'a> {
    /// The box of the path. It fails only where memory runs out.
    pub fn of(
        alloc: Global,
        inst: &'a Instance,
        path: &'a Path,
    ) -> Result<PreparedBox<'a>, NoMemory>
        ensures { IfOk result (λ b. b ≡ record { instance = inst.now; path = path.now }) }
    {
        let states = site_states(alloc, inst, path)?;
        let demand_ends = demand_ends(alloc, inst, path, &states)?;
        let lane_steps = lane_steps(alloc, inst, path)?;
        Ok(PreparedBox {
            inst,
            path,
            states,
            demand_ends,
            lane_steps,
        })
    }

    /// The instance of the box.
    pub fn instance(&self) -> &'a Instance
        ensures { result.now ≡ self.now.instance }
    {
        self.inst
    }

    /// The path to the box.
    pub fn path(&self) -> &'a Path
        ensures { result.now ≡ self.now.path }
    {
        self.path
    }

    /// What is settled of the site at place `site`.
    #[inline(always)]
    pub fn state(&self, site: usize) -> SiteState
        requires { site < length self.now.instance.sites }
        ensures { IsState self.now.path (site_at self.now.instance site) result }
    {
        self.states[site]
    }

    /// Whether the site at place `site` is opened.
    #[inline(always)]
    pub fn is_opened(&self, site: usize) -> bool
        requires { site < length self.now.instance.sites }
        ensures { result ≡ is_opened self.now.path (site_at self.now.instance site) }
    {
        match self.state(site) {
            SiteState::Opened => true,
            SiteState::Closed | SiteState::Free => false,
        }
    }

    /// Whether the box lets the site at place `site` serve the customer at place `cust`, which demands
    /// `demand`, by the lane that there is.
    #[inline(always)]
    pub fn admits(&self, site: usize, cust: usize, demand: u64) -> bool
        requires site { site < length self.now.instance.sites }
        requires customer { cust < length self.now.instance.customers }
        requires demand { demand ≡ (customer_at self.now.instance cust).demand }
        requires lane { IsSome (lane self.now.instance (site_at self.now.instance site).id (customer_at self.now.instance cust).id) }
        ensures { result ≡ is_allowed self.now.instance self.now.path (site_at self.now.instance site) (customer_at self.now.instance cust) }
    {
        // An instance is valid, so that its demands are small.
        let _sites = self.inst.sites();
        demand < self.demand_ends[site] && !self.bars(site, cust)
    }

    // Whether a step on a lane takes the lane away.
    #[inline(always)]
    fn bars(&self, site: usize, cust: usize) -> bool
        requires site { site < length self.now.instance.sites }
        requires customer { cust < length self.now.instance.customers }
        ensures { result ≡ list_any (bars_lane (site_at self.now.instance site).id (customer_at self.now.instance cust).id) self.now.path }
    {
        let lasts = &self.lane_steps.lasts;
        if cust >= lasts.len() || lasts[cust] == 0 {
            return false;
        }
        chain_bars(
            self.path,
            &self.lane_steps.befores,
            lasts[cust],
            self.inst.site_id(site),
            self.inst.cust_id(cust),
        )
    }
}
