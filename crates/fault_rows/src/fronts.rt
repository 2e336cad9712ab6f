//! Files that are cut: each front of a warehouse file, of a file of the suite's own form, and of a certificate.
use memory_runs::{
    Calls, RING, RING_CERTIFICATE, Row, Status, TWO_SITES_OWN, WAREHOUSES, place_behind,
};
use std::alloc::Global;
use std::str::from_utf8;
use std::test::Fail;

const ITS_DUALS: &str =
    "bound 5.750000\ncustomer 1 1.750000\ncustomer 2 4.000000\nsite 1 7499.000000\nsite 2 0.000000\n";

const OWN_DUALS: &str =
    "bound 22.000000\ncustomer 1 8.000000\ncustomer 2 5.000000\ncustomer 3 9.000000\nsite 1 0.000000\nsite 2 4.000000\n";

fn front_of(text: &str, len: usize) -> &str {
    from_utf8(text.as_bytes().get(..len).unwrap_or_default()).unwrap_or_default()
}

// Whether words over the files `a` and `k` end so and print this.
fn answers<'x>(
    alloc: Global,
    words: &'x str,
    file: &'x str,
    certificate: &'x str,
    status: Status,
    text: &'x str,
) -> Result<bool, Fail> {
    let (files, texts) = ([("a", file), ("k", certificate)], [text]);
    let row = Row::keeping(words, &files, status, &texts);
    Ok(row.is_met(alloc, Calls::sound(7))?)
}

// Whether the duals of a file with these bytes are refused for this fault in its last word, or behind it.
fn is_refused(
    alloc: Global,
    words: &str,
    front: &str,
    kind: &str,
    behind: u32,
) -> Result<bool, Fail> {
    let (line, word) = place_behind(front.as_bytes());
    let word = word.saturating_sub(1).saturating_add(behind);
    let fault = format!(in alloc; "bad input {kind} line {line} word {word}\n")?;
    answers(alloc, words, front, "", Status::BadInput, &fault)
}

// The last of the words is an amount, of which each front is one.
fn is_cut(alloc: Global, len: usize) -> Result<bool, Fail> {
    let front = front_of(WAREHOUSES, len);
    let words = "duals cap a";
    if len.saturating_add(2) > WAREHOUSES.len() {
        answers(alloc, words, front, "", Status::Done, ITS_DUALS)
    } else if front.ends_with(" .") {
        is_refused(alloc, words, front, "NotANumber", 0)
    } else {
        is_refused(alloc, words, front, "Ended", 1)
    }
}

#[test]
fn names_the_end_of_each_front_of_warehouses(rt: HostRuntime) -> Result<(), Fail> {
    for len in 0..WAREHOUSES.len() {
        assert!(rt; is_cut(rt.alloc(), len)?, "at {len}");
    }
    Ok(())
}

fn is_blank(byte: &u8) -> bool {
    *byte == b' ' || *byte == b'\n'
}

// The fault of a front of this length of the two sites in the suite's own form, in its last word or, by 1, behind it. A
// front of a number is a number.
fn own_fault(len: usize) -> (&'static str, u32) {
    let bytes = TWO_SITES_OWN.as_bytes();
    let front = bytes.get(..len).unwrap_or_default();
    let rest = bytes.get(len..).unwrap_or_default();
    let word = front.rsplit(is_blank).next().unwrap_or_default();
    let due = bytes
        .get(len.saturating_sub(word.len())..)
        .unwrap_or_default();
    let is_whole = word.is_empty() || rest.first().is_some_and(is_blank);
    if is_whole || word.first().is_some_and(|byte| byte.is_ascii_digit()) {
        ("Ended", 1)
    } else if due.starts_with(b"none") {
        ("NotANumber", 0)
    } else {
        ("BadWord", 0)
    }
}

fn is_own_cut(alloc: Global, len: usize) -> Result<bool, Fail> {
    let front = front_of(TWO_SITES_OWN, len);
    let words = "duals own a";
    if len.saturating_add(1) == TWO_SITES_OWN.len() {
        return answers(alloc, words, front, "", Status::Done, OWN_DUALS);
    }
    let (kind, behind) = own_fault(len);
    is_refused(alloc, words, front, kind, behind)
}

#[test]
fn names_the_end_of_each_front_of_the_own_form(rt: HostRuntime) -> Result<(), Fail> {
    for len in 0..TWO_SITES_OWN.len() {
        assert!(rt; is_own_cut(rt.alloc(), len)?, "at {len}");
    }
    Ok(())
}

// A certificate ends in the line whose line feed isn't there.
fn is_certificate_cut(alloc: Global, len: usize) -> Result<bool, Fail> {
    let front = front_of(RING_CERTIFICATE, len);
    let line = front.split('\n').count();
    let answer = format!(in alloc; "no Ended line {line}\n")?;
    answers(
        alloc,
        "check ufl a k",
        RING,
        front,
        Status::CheckNo,
        &answer,
    )
}

#[test]
fn names_the_end_of_each_front_of_a_certificate(rt: HostRuntime) -> Result<(), Fail> {
    for len in 0..RING_CERTIFICATE.len() {
        assert!(rt; is_certificate_cut(rt.alloc(), len)?, "at {len}");
    }
    Ok(())
}
