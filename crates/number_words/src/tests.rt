use crate::*;
use std::alloc::Global;

const TEN_TO_30: i128 = 1_000_000_000_000_000_000_000_000_000_000;

/// Whether a word is a number, and a plain one, as told.
fn is_spelled(word: &[u8], number: bool, plain: bool) -> bool {
    is_number(word) == number && is_plain_number(word) == plain
}

/// Whether a word is a cost, and a plain one, as told.
fn is_cost_spelled(word: &[u8], cost: bool, plain: bool) -> bool {
    is_cost(word) == cost && is_plain_cost(word) == plain
}

fn value_of(word: &[u8]) -> Option<i128> {
    if is_number(word) {
        Some(number(word))
    } else {
        None
    }
}

fn millionths_of(word: &[u8]) -> Option<u128> {
    if is_cost(word) {
        Some(cost(word))
    } else {
        None
    }
}

/// Whether two words are plain numbers, and the second is greater.
fn is_step_up(a: &[u8], b: &[u8]) -> bool {
    if is_number(a) && is_plain_number(a) && is_number(b) && is_plain_number(b) {
        rises(a, b)
    } else {
        false
    }
}

fn is_printed(alloc: Global, value: i128, text: &[u8]) -> bool {
    let mut printed = Vec::new(alloc);
    match push_number(&mut printed, value) {
        Ok(()) => printed.as_slice() == text,
        Err(_) => false,
    }
}

#[test]
fn numbers_and_their_plain_spelling(rt: HostRuntime) {
    assert!(rt; is_spelled(b"0", true, true));
    assert!(rt; is_spelled(b"-12", true, true));
    assert!(rt; is_spelled(b"-0", true, false));
    assert!(rt; is_spelled(b"+5", true, false));
    assert!(rt; is_spelled(b"007", true, false));
    assert!(rt; is_spelled(b"-07", true, false));
    assert!(rt; is_spelled(&[b'9'; 100], true, true));
}

#[test]
fn words_that_are_no_numbers(rt: HostRuntime) {
    assert!(rt; is_spelled(b"", false, false));
    assert!(rt; is_spelled(b"-", false, false));
    assert!(rt; is_spelled(b"+", false, false));
    assert!(rt; is_spelled(b"1a", false, false));
    assert!(rt; is_spelled(b"--1", false, false));
    assert!(rt; is_spelled(b"+-1", false, false));
    assert!(rt; is_spelled(b"22.0", false, false));
}

#[test]
fn values_of_numbers(rt: HostRuntime) {
    assert_eq!(rt; value_of(b"-0"), Some(0));
    assert_eq!(rt; value_of(b"+5"), Some(5));
    assert_eq!(rt; value_of(b"007"), Some(7));
    assert_eq!(rt; value_of(b"-12"), Some(-12));
}

#[test]
fn values_stop_at_the_cap(rt: HostRuntime) {
    assert_eq!(rt; value_of(&[b'9'; 30]), Some(TEN_TO_30 - 1));
    assert_eq!(rt;
        value_of(b"1000000000000000000000000000000"),
        Some(TEN_TO_30)
    );
    assert_eq!(rt;
        value_of(b"-1000000000000000000000000000000"),
        Some(-TEN_TO_30)
    );
    assert_eq!(rt; value_of(&[b'9'; 100]), Some(TEN_TO_30));
}

#[test]
fn costs_and_their_plain_spelling(rt: HostRuntime) {
    assert!(rt; is_cost_spelled(b"22.000000", true, true));
    assert!(rt; is_cost_spelled(b"0.000001", true, true));
    assert!(rt; is_cost_spelled(b"22.0", true, false));
    assert!(rt; is_cost_spelled(b"22.0000000", true, false));
    assert!(rt; is_cost_spelled(b"00.000000", true, false));
}

#[test]
fn words_that_are_no_costs(rt: HostRuntime) {
    assert!(rt; is_cost_spelled(b"", false, false));
    assert!(rt; is_cost_spelled(b".5", false, false));
    assert!(rt; is_cost_spelled(b"5.", false, false));
    assert!(rt; is_cost_spelled(b"5", false, false));
    assert!(rt; is_cost_spelled(b"1.2.3", false, false));
    assert!(rt; is_cost_spelled(b"-1.000000", false, false));
}

#[test]
fn values_of_costs(rt: HostRuntime) {
    assert_eq!(rt; millionths_of(b"22.000000"), Some(22_000_000));
    assert_eq!(rt; millionths_of(b"0.000001"), Some(1));
    assert_eq!(rt;
        millionths_of(b"1000000000000000000000000.000000"),
        Some(TEN_TO_30 as u128)
    );
    assert_eq!(rt;
        millionths_of(b"99999999999999999999999999999999.000000"),
        Some(TEN_TO_30 as u128)
    );
}

#[test]
fn numbers_rise(rt: HostRuntime) {
    assert!(rt; is_step_up(b"-2", b"-1"));
    assert!(rt; is_step_up(b"-10", b"-9"));
    assert!(rt; is_step_up(b"-1", b"0"));
    assert!(rt; is_step_up(b"9", b"10"));
    assert!(rt; !is_step_up(b"7", b"7"));
    assert!(rt; !is_step_up(b"-7", b"-7"));
    assert!(rt; !is_step_up(b"1", b"-1"));
    assert!(rt; !is_step_up(b"10", b"9"));
}

#[test]
fn long_numbers_rise(rt: HostRuntime) {
    let low = [b'8'; 100];
    let mut high = [b'8'; 100];
    high[99] = b'9';
    assert!(rt; is_step_up(&low, &high));
    assert!(rt; !is_step_up(&high, &low));
    assert!(rt; !is_step_up(&low, &low));
}

#[test]
fn lines_in_plain_form(rt: HostRuntime) {
    assert!(rt; is_spaced(b""));
    assert!(rt; is_spaced(b"a b"));
    assert!(rt; !is_spaced(b" a"));
    assert!(rt; !is_spaced(b"a "));
    assert!(rt; !is_spaced(b"a  b"));
    assert!(rt; !is_spaced(b"a\tb"));
    assert!(rt; !is_spaced(b" "));
    assert!(rt; !is_spaced(b"a b\r"));
}

#[test]
fn words_of_a_line(rt: HostRuntime) {
    let mut words = LineWords::new(b" a\t bc \r");
    assert_eq!(rt; words.next(), Some(b"a".as_slice()));
    assert_eq!(rt; words.next(), Some(b"bc".as_slice()));
    assert_eq!(rt; words.next(), None);
    assert_eq!(rt; words.next(), None);
    assert_eq!(rt; LineWords::new(b"").next(), None);
}

#[test]
fn prints_numbers(rt: HostRuntime) {
    spelling();
    assert!(rt; is_printed(rt.alloc(), 0, b"0"));
    assert!(rt; is_printed(rt.alloc(), -12, b"-12"));
    assert!(rt;
        is_printed(
            rt.alloc(),
            i128::MAX,
            b"170141183460469231731687303715884105727"
        )
    );
    assert!(rt;
        is_printed(
            rt.alloc(),
            i128::MIN,
            b"-170141183460469231731687303715884105728"
        )
    );
}

#[test]
fn finds_words_with_their_places(rt: HostRuntime) {
    let text = "FILE: a\r\n\n\t2 3  0\r\n 1 \x0b\x00x\n\nlast";
    let want = [
        ("FILE:", 1, 1),
        ("a", 1, 2),
        ("2", 3, 1),
        ("3", 3, 2),
        ("0", 3, 3),
        ("1", 4, 1),
        ("\x0b\x00x", 4, 2),
        ("last", 6, 1),
    ];
    let mut words = Words::new(text.as_bytes());
    for (text, line, place) in want {
        let word = words.next().expect(&rt, "a word");
        assert_eq!(rt; word.text, text.as_bytes());
        assert_eq!(rt; (word.line, word.place), (line, place), "{text}");
    }
    assert!(rt; words.next().is_none());
    assert!(rt; words.next().is_none());
}

#[test]
fn digits_around_a_point(rt: HostRuntime) {
    assert_eq!(rt; parts(b"12.5"), (b"12".as_slice(), b"5".as_slice()));
    assert_eq!(rt; parts(b"1.2.3"), (b"1".as_slice(), b"2.3".as_slice()));
    assert_eq!(rt; parts(b"12"), (b"12".as_slice(), b"".as_slice()));
    assert!(rt; is_digits(b"007"));
    assert!(rt; !is_digits(b""));
    assert!(rt; has_digits_alone(b""));
    assert!(rt; !has_digits_alone(b"+1"));
    assert_eq!(rt; push_digits(12, b"034"), 12_034);
}
