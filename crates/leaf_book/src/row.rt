//! A row, which holds the sums of one leaf.
ghost use Rattle.std.specs.Prelude.{◌≡◌, ◌≤◌, ◌<◌, IfOk, OnOk, length, pos, slice_index_or, unsigned_abs, vec_capacity};
ghost use Rattle.location_terms.specs.Fit.{DualsFit};
ghost use Rattle.location_terms.specs.declared.limits.TheConstants.{MAX_SCALE, MAX_SITES};
ghost use Rattle.dual_value.specs.declared.bounds.TheConstants.{MAX_BOUND};
ghost use Rattle.leaf_book.specs.declared.change.Change.TheVariants.{Count};
ghost use Rattle.leaf_book.specs.Sums.{sums_of};
ghost use Rattle.leaf_book.specs.Due.{IsDue};
ghost use Rattle.leaf_book.specs.OneSite.{IsOfSite};

use crate::Change;
use crate::one_site::slack_behind;
use crate::row_sums::{bound_from, fill_slacks, price_of, share};
use dual_value::{Decision, DualsByPlace};
use instance_store::{Instance, NoMemory, SiteId};
use std::alloc::Global;
use std::marker::Model;

/// The sums of one leaf, with room for those of other instances.
#[derive(Drop)]
pub(crate) struct Row {
    q: u32,
    slacks: Vec<i128>,
    bound: i128,
}

impl Model for Row {
    ghost use Rattle.std.specs.Prelude.{vec_capacity};
    ghost use Rattle.leaf_book.specs.Rows.{Held, IsSmallRow};

    ghost Value = { Held };

    ghost view = { λ a. record { sums = record { q = a.q; slacks = a.slacks.items; bound = a.bound }; room = vec_capacity a.slacks } };

    ghost invariant = { IsSmallRow };
}

impl Row {
    /// A row with room for so many sites. It fails only where memory runs out.
    pub(crate) fn with_room(alloc: Global, sites: usize) -> Result<Row, NoMemory>
        ensures { IfOk result (λ row. sites ≤ row.room) }
    {
        Ok(Row {
            q: 0,
            slacks: Vec::with_capacity(alloc, sites)?,
            bound: 0,
        })
    }

    /// Makes room for so many sites. The sums stay. It fails only where memory runs out.
    pub(crate) fn widen(&mut self, sites: usize) -> Result<(), NoMemory>
        ensures same { self.new.sums ≡ self.old.sums }
        ensures grown { self.old.room ≤ self.new.room }
        ensures room { OnOk result (sites ≤ self.new.room) }
    {
        let more = sites.saturating_sub(self.slacks.len());
        self.slacks.reserve(more)?;
        Ok(())
    }

    /// The scale.
    pub(crate) fn q(&self) -> u32
        ensures exact { result ≡ self.now.sums.q }
        ensures small { result ≤ MAX_SCALE }
    {
        self.q
    }

    /// How many sites have a slack.
    pub(crate) fn sites(&self) -> usize
        ensures { result ≡ length self.now.sums.slacks }
    {
        self.slacks.len()
    }

    /// The slack of the site at place `site`.
    pub(crate) fn slack(&self, site: usize) -> i128
        requires { site < length self.now.sums.slacks }
        ensures { result ≡ slice_index_or self.now.sums.slacks site (pos 0) }
    {
        self.slacks[site]
    }

    /// The bound.
    pub(crate) fn bound(&self) -> i128
        ensures exact { result ≡ self.now.sums.bound }
        ensures small { unsigned_abs result ≤ MAX_BOUND }
    {
        self.bound
    }

    /// Follows a change of the instance. The numbers of open sites from before are `count`.
    pub(crate) fn follow<D: DualsByPlace>(
        &mut self,
        inst: &Instance,
        path: &[Decision],
        duals: &D,
        change: Change,
        count: (u32, u32),
    )
        requires fit { DualsFit inst.now (D.numbers duals.now) }
        requires low { count.0 ≤ MAX_SITES }
        requires high { count.1 ≤ MAX_SITES }
        requires due { IsDue change count.0 count.1 inst.now path.now (D.numbers duals.now) self.old }
        ensures sums { self.new.sums ≡ sums_of inst.now (path.now, D.numbers duals.now) }
        ensures room { self.new.room ≡ self.old.room }
    {
        match change {
            Change::Fixed { site, .. } | Change::Lane { site, .. } | Change::Site(site) => {
                self.touch(inst, path, duals, change, site)
            }
            Change::Count => self.recount(inst, path, duals, count),
            Change::All => self.fill(inst, path, duals),
        }
    }

    // All sums anew.
    fn fill<D: DualsByPlace>(&mut self, inst: &Instance, path: &[Decision], duals: &D)
        requires fit { DualsFit inst.now (D.numbers duals.now) }
        requires room { length inst.now.sites ≤ self.old.room }
        ensures sums { self.new.sums ≡ sums_of inst.now (path.now, D.numbers duals.now) }
        ensures room { self.new.room ≡ self.old.room }
    {
        fill_slacks(inst, path, duals, &mut self.slacks);
        self.bound = bound_from(inst, path, duals, &self.slacks);
        self.q = duals.q();
    }

    // The slack of one site behind a change of it, and the bound by the difference.
    fn touch<D: DualsByPlace>(
        &mut self,
        inst: &Instance,
        path: &[Decision],
        duals: &D,
        change: Change,
        site: SiteId,
    )
        requires fit { DualsFit inst.now (D.numbers duals.now) }
        requires of_site { IsOfSite change site }
        requires due { IsDue change 0 0 inst.now path.now (D.numbers duals.now) self.old }
        ensures sums { self.new.sums ≡ sums_of inst.now (path.now, D.numbers duals.now) }
        ensures room { self.new.room ≡ self.old.room }
    {
        let _valid = inst.sites();
        match inst.site_at(site) {
            Some(place) => {
                let old = self.slacks[place];
                let new = slack_behind(inst, path, duals, place, change, old);
                self.slacks[place] = new;
                self.bound += share(inst, path, place, new) - share(inst, path, place, old);
            }
            None => {}
        }
    }

    // The bound, by the difference of what the price on the number of open sites comes to.
    fn recount<D: DualsByPlace>(
        &mut self,
        inst: &Instance,
        path: &[Decision],
        duals: &D,
        count: (u32, u32),
    )
        requires fit { DualsFit inst.now (D.numbers duals.now) }
        requires low { count.0 ≤ MAX_SITES }
        requires high { count.1 ≤ MAX_SITES }
        requires due { IsDue Count count.0 count.1 inst.now path.now (D.numbers duals.now) self.old }
        ensures sums { self.new.sums ≡ sums_of inst.now (path.now, D.numbers duals.now) }
        ensures room { self.new.room ≡ self.old.room }
    {
        let _valid = inst.sites();
        let nu = duals.nu();
        self.bound += price_of(count, nu) - dual_value::count_price(inst, nu);
    }
}
