//! Which sites a plan opens that is packed for a hint, as flags by place.
ghost use Rattle.std.specs.Prelude.{◌≡◌, ℕ, ◌<◌, ◌≤◌, ◌&&◌, ◌||◌, not, false, length, filter, take, IfOk};
ghost use Rattle.location_terms.specs.Instance.{IsValid, site_at};
ghost use Rattle.location_terms.specs.Box.{is_free, is_opened};
ghost use Rattle.dual_ascent.specs.Levels.{site_places};
ghost use Rattle.plan_search.specs.Packed.{is_among, opened_places, chosen};
ghost use Rattle.plan_search.specs.Flags.{is_set, flagged, AreFlags};

use crate::flags::{flag_count, keep_first};
use dual_value::{PreparedBox, SiteState};
use instance_store::{NoMemory, SiteId};
use std::alloc::Global;

/// The open sites: those that are opened in the box, and the free ones of the hint, to which others
/// join while they are too few and of which the last leave while they are too many. It fails only where
/// memory runs out.
pub(crate) fn chosen(
    alloc: Global,
    boxed: &PreparedBox,
    hint: &[SiteId],
) -> Result<Vec<bool>, NoMemory>
    ensures long { IfOk result (λ flags. length flags.items ≡ length boxed.now.instance.sites) }
    ensures exact { IfOk result (λ flags. flagged flags.items ≡ chosen boxed.now.instance boxed.now.path hint.now) }
{
    let mut flags = vec![in alloc; false; boxed.instance().sites()]?;
    choose(boxed, hint, &mut flags);
    Ok(flags)
}

fn choose(boxed: &PreparedBox, hint: &[SiteId], flags: &mut [bool])
    requires long { length flags.old ≡ length boxed.now.instance.sites }
    requires none { (i : ℕ) → is_set flags.old i ≡ false }
    ensures long { length flags.new ≡ length flags.old }
    ensures exact { flagged flags.new ≡ chosen boxed.now.instance boxed.now.path hint.now }
{
    let (lo, hi) = boxed.instance().count();
    let opened = opened_count(boxed);
    flag_hinted(boxed, hint, flags);
    let missing = (lo as usize).saturating_sub(opened + flag_count(flags));
    join(boxed, missing, flags);
    let joined = flag_count(flags);
    let surplus = (opened + joined).saturating_sub(hi as usize);
    keep_first(joined.saturating_sub(surplus), flags);
    add_opened(boxed, flags);
}

/// How many sites are opened in the box.
pub fn opened_count(boxed: &PreparedBox) -> usize
    ensures exact { result ≡ length (opened_places boxed.now.instance boxed.now.path) }
    ensures small { result ≤ length boxed.now.instance.sites }
    ensures valid { IsValid boxed.now.instance }
{
    let mut count = 0;
    for site in 0..boxed.instance().sites() {
        if boxed.is_opened(site) {
            count += 1;
        }
    }
    count
}

// The free sites of the hint are flagged, where none was.
fn flag_hinted(boxed: &PreparedBox, hint: &[SiteId], flags: &mut [bool])
    requires long { length flags.old ≡ length boxed.now.instance.sites }
    requires none { (i : ℕ) → is_set flags.old i ≡ false }
    requires valid { IsValid boxed.now.instance }
    ensures long { length flags.new ≡ length flags.old }
    ensures exact { AreFlags (λ i. is_free boxed.now.path (site_at boxed.now.instance i) && is_among hint.now (site_at boxed.now.instance i).id) (length boxed.now.instance.sites) flags.new }
{
    let inst = boxed.instance();
    for id in hint {
        if let Some(site) = inst.site_at(*id) {
            flags[site] = is_free(boxed, site);
        }
    }
}

// The first free sites that aren't flagged join, at most this many.
fn join(boxed: &PreparedBox, most: usize, flags: &mut [bool])
    requires { length flags.old ≡ length boxed.now.instance.sites }
    ensures { let I = boxed.now.instance in
        AreFlags (λ i. is_set flags.old i || is_among (take most (filter (λ k. is_free boxed.now.path (site_at I k) && not (is_set flags.old k)) (site_places I))) i) (length I.sites) flags.new }
{
    let mut left = most;
    for site in 0..flags.len() {
        if left > 0 && is_free(boxed, site) && !flags[site] {
            flags[site] = true;
            left -= 1;
        }
    }
}

// The sites that are opened in the box are flagged too.
fn add_opened(boxed: &PreparedBox, flags: &mut [bool])
    requires { length flags.old ≡ length boxed.now.instance.sites }
    ensures { AreFlags (λ i. is_opened boxed.now.path (site_at boxed.now.instance i) || is_set flags.old i) (length boxed.now.instance.sites) flags.new }
{
    for site in 0..flags.len() {
        if boxed.is_opened(site) {
            flags[site] = true;
        }
    }
}

/// Whether nothing is settled of the site at place `site`.
pub(crate) fn is_free(boxed: &PreparedBox, site: usize) -> bool
    requires { site < length boxed.now.instance.sites }
    ensures { result ≡ is_free boxed.now.path (site_at boxed.now.instance site) }
{
    match boxed.state(site) {
        SiteState::Free => true,
        SiteState::Opened | SiteState::Closed => false,
    }
}
