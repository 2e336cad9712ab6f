//! Changes of a set of open sites.
ghost use Rattle.std.specs.Prelude.{◌≡◌, length};

use instance_store::{Instance, NoMemory};
use location_terms::SiteStatus;
use std::alloc::Global;
use std::num::nearest_u64_to_f64;

/// A site that closes, one that opens, or both, by their places.
#[derive(Clone, Copy)]
pub(crate) struct Change {
    pub(crate) closes: Option<usize>,
    pub(crate) opens: Option<usize>,
}

/// None at all.
pub(crate) const NO_CHANGE: Change = Change {
    closes: None,
    opens: None,
};

impl Change {
    /// Makes the change of a set, whose sites are flagged by place.
    pub(crate) fn make(&self, open: &mut [bool])
        ensures { length open.new ≡ length open.old }
    {
        flag(open, self.closes, false);
        flag(open, self.opens, true);
    }

    /// Takes the change back.
    pub(crate) fn undo(&self, open: &mut [bool])
        ensures { length open.new ≡ length open.old }
    {
        flag(open, self.closes, true);
        flag(open, self.opens, false);
    }
}

fn flag(open: &mut [bool], site: Option<usize>, is_open: bool)
    ensures { length open.new ≡ length open.old }
{
    if let Some(site) = site {
        if site < open.len() {
            open[site] = is_open;
        }
    }
}

/// Each change of a single site of a set that leaves the number of open sites within the limits of the
/// instance. It fails only where memory runs out.
pub(crate) fn single_changes(
    alloc: Global,
    inst: &Instance,
    open: &[bool],
) -> Result<Vec<Change>, NoMemory> {
    let (lo, hi) = inst.count();
    let count = open_count(open);
    let mut changes = Vec::new(alloc);
    for site in 0..inst.sites().min(open.len()) {
        if !is_free(inst, site) {
            continue;
        }
        if open[site] && count > lo as usize {
            changes.push(Change {
                closes: Some(site),
                opens: None,
            })?;
        }
        if !open[site] && count < hi as usize {
            changes.push(Change {
                closes: None,
                opens: Some(site),
            })?;
        }
    }
    Ok(changes)
}

/// Each exchange of an open site of a set for a closed one. It fails only where memory runs out.
pub(crate) fn exchanges(
    alloc: Global,
    inst: &Instance,
    open: &[bool],
) -> Result<Vec<Change>, NoMemory> {
    let mut changes = Vec::new(alloc);
    for site in 0..inst.sites().min(open.len()) {
        if open[site] && is_free(inst, site) {
            push_exchanges(inst, open, site, &mut changes)?;
        }
    }
    Ok(changes)
}

// The exchanges of this site.
fn push_exchanges(
    inst: &Instance,
    open: &[bool],
    site: usize,
    changes: &mut Vec<Change>,
) -> Result<(), NoMemory> {
    for other in 0..inst.sites().min(open.len()) {
        if !open[other] && is_free(inst, other) {
            changes.push(Change {
                closes: Some(site),
                opens: Some(other),
            })?;
        }
    }
    Ok(())
}

// Whether the instance lets the site be opened and closed.
fn is_free(inst: &Instance, site: usize) -> bool {
    site < inst.sites() && inst.status(site) == SiteStatus::Free
}

/// How many sites are in a set.
pub(crate) fn open_count(open: &[bool]) -> usize {
    let mut count = 0usize;
    for is_open in open {
        if *is_open {
            count = count.saturating_add(1);
        }
    }
    count
}

/// Whether the sites of a set hold what all customers demand, as far as floats show it.
pub(crate) fn holds_all(inst: &Instance, open: &[bool]) -> bool {
    let mut left = 0.0;
    for site in 0..inst.sites().min(open.len()) {
        if open[site] {
            match inst.cap(site) {
                None => return true,
                Some(cap) => left += nearest_u64_to_f64(cap),
            }
        }
    }
    for cust in 0..inst.custs() {
        left -= nearest_u64_to_f64(inst.demand(cust));
    }
    left >= 0.0
}
