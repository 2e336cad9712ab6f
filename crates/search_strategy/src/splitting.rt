//! The site on which a box is best split.
ghost use Rattle.std.specs.Prelude.{◌<◌, length};

use crate::constants::{FEW, LEAST_DOUBT};
use dual_value::{PreparedBox, SiteState};
use std::num::nearest_i64_to_f64;
use strategy_port::Scene;

/// The place of the free site on which to split. Where the duals close the box of one of its two states, as far as
/// `missing` tells, what is missing to close the box at work, it is that whose slack says so most clearly; else the
/// site whose share is farthest from 0 and 1, where one is in doubt and more than a few are free.
pub(crate) fn split_place(
    scene: &Scene<'_, '_>,
    missing: Option<i128>,
    shares: &[f64],
) -> Option<usize> {
    match decided_place(scene, missing) {
        None if has_many_free(scene.boxed) => most_doubtful(scene.boxed, shares, LEAST_DOUBT, None),
        place => place,
    }
}

/// By how much the bound of the leaf is too small to close its box, in millionths times the scale of its duals, where
/// a plan is known.
pub(crate) fn missing(scene: &Scene<'_, '_>) -> Option<i128> {
    let cost = i128::from(scene.cost?);
    let goal = i128::from(scene.duals.q()) * (cost - 1) + 1;
    Some(goal.saturating_sub(scene.bound))
}

// The place of the free site with the greatest slack or lack that is at least `missing`.
fn decided_place(scene: &Scene<'_, '_>, missing: Option<i128>) -> Option<usize> {
    let mut greatest = missing?.max(0).unsigned_abs();
    let mut best = None;
    for site in 0..scene.slacks.len() {
        let size = scene.slacks[site].unsigned_abs();
        if is_free(scene.boxed, site) && size >= greatest {
            greatest = size;
            best = Some(site);
        }
    }
    best
}

/// The place of the free site in most doubt, of those in more than the `least`, and behind the `last` one.
pub(crate) fn most_doubtful(
    boxed: &PreparedBox<'_>,
    shares: &[f64],
    least: f64,
    last: Option<usize>,
) -> Option<usize> {
    let mut best = None;
    let mut greatest = least;
    for site in 0..shares.len() {
        let here = doubt(shares[site]);
        if here > greatest && is_free(boxed, site) && is_behind(shares, site, last) {
            greatest = here;
            best = Some(site);
        }
    }
    best
}

// Whether the site is in less doubt than the last one, or in as much and stands behind it.
fn is_behind(shares: &[f64], site: usize, last: Option<usize>) -> bool {
    match last {
        None => true,
        Some(last) => {
            if last >= shares.len() || site >= shares.len() {
                return false;
            }
            let here = doubt(shares[site]);
            let there = doubt(shares[last]);
            here < there || (here == there && site > last)
        }
    }
}

/// How far a share is from 0 and 1.
pub(crate) fn doubt(share: f64) -> f64 {
    share.min(1.0 - share)
}

/// Whether more than a few sites are free in the box.
pub(crate) fn has_many_free(boxed: &PreparedBox<'_>) -> bool {
    let mut free = 0usize;
    for site in 0..boxed.instance().sites() {
        if is_free(boxed, site) {
            free = free.saturating_add(1);
        }
    }
    free > FEW
}

/// Whether the site at this place is free, where there is one.
pub(crate) fn is_free(boxed: &PreparedBox<'_>, site: usize) -> bool {
    if site >= boxed.instance().sites() {
        return false;
    }
    match boxed.state(site) {
        SiteState::Free => true,
        SiteState::Opened | SiteState::Closed => false,
    }
}

/// Whether some site is free in the box.
pub(crate) fn has_free_site(boxed: &PreparedBox<'_>) -> bool {
    for site in 0..boxed.instance().sites() {
        if is_free(boxed, site) {
            return true;
        }
    }
    false
}

/// The bound of the leaf, in millionths.
pub(crate) fn bound_of(scene: &Scene<'_, '_>) -> f64 {
    let scale = i128::from(scene.duals.q().max(1));
    nearest_i64_to_f64(i64::try_from(scene.bound / scale).unwrap_or(0))
}
