//! Ranges, and what is answered where there is none.
use crate::files::{BRACKET, CERTIFICATE, OPEN_LEAF, RING_OWN};
use memory_runs::{Calls, RING, RING_CERTIFICATE, Row, Status, TWO_SITES};
use std::alloc::{AllocError, Global};
use std::test::Fail;

// Whether a run over the instance `a` and the certificate `k` ends so, prints this line and leaves both.
fn answers<'x>(
    alloc: Global,
    words: &'x str,
    files: [(&'x str, &'x str); 2],
    status: Status,
    line: &'x str,
) -> Result<bool, AllocError> {
    let texts = [line];
    Row::keeping(words, &files, status, &texts).is_met(alloc, Calls::sound(7))
}

// Whether it is so of two sites and the certificate of their best plan.
fn shows<'x>(alloc: Global, words: &'x str, line: &'x str) -> Result<bool, AllocError> {
    let files = [("a", TWO_SITES), ("k", CERTIFICATE)];
    answers(alloc, words, files, Status::Done, line)
}

fn refuses<'x>(alloc: Global, words: &'x str, line: &'x str) -> Result<bool, AllocError> {
    let files = [("a", TWO_SITES), ("k", CERTIFICATE)];
    answers(alloc, words, files, Status::Refused, line)
}

// Whether it ends with a no, where this is the certificate.
fn says_no<'x>(
    alloc: Global,
    words: &'x str,
    certificate: &'x str,
    line: &'x str,
) -> Result<bool, AllocError> {
    let files = [("a", TWO_SITES), ("k", certificate)];
    answers(alloc, words, files, Status::CheckNo, line)
}

fn is_usage(alloc: Global, words: &str) -> Result<bool, AllocError> {
    let files = [("a", TWO_SITES), ("k", CERTIFICATE)];
    answers(alloc, words, files, Status::Usage, "usage\n")
}

fn shows_costs_that_are_paid(alloc: Global) -> Result<bool, AllocError> {
    Ok(
        shows(alloc, "range ufl a k site 1", "range 0.000000 10.000000\n")?
            && shows(alloc, "range ufl a k lane 1 3", "range 0.000000 9.000000\n")?,
    )
}

fn shows_others(alloc: Global) -> Result<bool, AllocError> {
    Ok(
        shows(
            alloc,
            "range ufl a k site 2",
            "range 11.000000 999999999.999999\n",
        )? && shows(
            alloc,
            "range ufl a k lane 2 1",
            "range 7.000000 999999999.999999\n",
        )?,
    )
}

fn refuses_what_is_missing(alloc: Global) -> Result<bool, AllocError> {
    Ok(
        refuses(alloc, "range ufl a k site 3", "refused NoSite\n")?
            && refuses(alloc, "range ufl a k site 0", "refused NoSite\n")?
            && refuses(alloc, "range ufl a k lane 3 4", "refused NoSite\n")?
            && refuses(alloc, "range ufl a k lane 1 4", "refused NoCustomer\n")?,
    )
}

fn says_no_first(alloc: Global) -> Result<bool, AllocError> {
    let (leaf, claim) = (
        "no LeafOpen line 6 bound 21000000 scale 1\n",
        "no OptimalClaim\n",
    );
    Ok(
        says_no(alloc, "range ufl a k site 3", OPEN_LEAF, leaf)?
            && says_no(alloc, "range ufl a k site 3", BRACKET, claim)?
            && says_no(alloc, "range ufl a k site 1", "", "no Ended line 1\n")?,
    )
}

fn takes_no_other_words(alloc: Global) -> Result<bool, AllocError> {
    Ok(
        is_usage(alloc, "range ufl a k site 01")?
            && is_usage(alloc, "range ufl a k lane 1")?
            && is_usage(alloc, "range ufl a k cap 1")?
            && is_usage(alloc, "range ufl a a site 1")?
            && is_usage(alloc, "range ufl a k site 1 budget=3")?,
    )
}

#[test]
fn ranges_of_costs_that_are_paid(rt: HostRuntime) -> Result<(), Fail> {
    assert!(rt; shows_costs_that_are_paid(rt.alloc())?);
    Ok(())
}

#[test]
fn ranges_of_other_costs(rt: HostRuntime) -> Result<(), Fail> {
    assert!(rt; shows_others(rt.alloc())?);
    Ok(())
}

#[test]
fn the_range_of_a_site_on_which_a_tree_splits(rt: HostRuntime) -> Result<(), Fail> {
    let files = [("a", RING), ("k", RING_CERTIFICATE)];
    let line = "range 0.000000 2.000000\n";
    assert!(rt;
        answers(
            rt.alloc(),
            "range ufl a k site 1",
            files,
            Status::Done,
            line
        )?
    );
    Ok(())
}

#[test]
fn refuses_sites_and_customers(rt: HostRuntime) -> Result<(), Fail> {
    assert!(rt; refuses_what_is_missing(rt.alloc())?);
    Ok(())
}

#[test]
fn refuses_a_missing_lane(rt: HostRuntime) -> Result<(), Fail> {
    let files = [("a", RING_OWN), ("k", RING_CERTIFICATE)];
    let (words, line) = ("range own a k lane 1 3", "refused NoLane\n");
    assert!(rt; answers(rt.alloc(), words, files, Status::Refused, line)?);
    Ok(())
}

#[test]
fn says_no_before_it_refuses(rt: HostRuntime) -> Result<(), Fail> {
    assert!(rt; says_no_first(rt.alloc())?);
    Ok(())
}

#[test]
fn other_words(rt: HostRuntime) -> Result<(), Fail> {
    assert!(rt; takes_no_other_words(rt.alloc())?);
    Ok(())
}
