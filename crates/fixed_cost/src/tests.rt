use crate::*;
use location_terms::Claim;
use std::alloc::Global;
use std::test::Fail;

#[test]
fn reads_each_spelling_of_an_amount(rt: HostRuntime) -> Result<(), Fail> {
    let rows = [
        ("0", Ok(0)),
        ("007", Ok(7_000_000)),
        ("12.", Ok(12_000_000)),
        (".5", Ok(500_000)),
        ("+3", Ok(3_000_000)),
        ("+.25", Ok(250_000)),
        ("1.0000000", Ok(1_000_000)),
        ("999999999.999999", Ok(999_999_999_999_999)),
        ("999999999.9999990", Ok(999_999_999_999_999)),
        ("", Err(AmountFault::NotANumber)),
        ("+", Err(AmountFault::NotANumber)),
        (".", Err(AmountFault::NotANumber)),
        ("+.", Err(AmountFault::NotANumber)),
        ("++1", Err(AmountFault::NotANumber)),
        ("-1", Err(AmountFault::NotANumber)),
        ("1e5", Err(AmountFault::NotANumber)),
        ("1.2.3", Err(AmountFault::NotANumber)),
        ("1.0000001x", Err(AmountFault::NotANumber)),
        ("1.0000001", Err(AmountFault::TooFine)),
        ("1000000000.0000001", Err(AmountFault::TooFine)),
        ("1000000000", Err(AmountFault::TooBig)),
        ("18446744073709551616", Err(AmountFault::TooBig)),
    ];
    for (word, want) in rows {
        let got = Amount::read(word.as_bytes()).map(|a| a.micro());
        assert_eq!(rt; got, want, "{word:?}");
    }
    assert_eq!(rt;
        Amount::read(&[b'9'; 100]).map(|a| a.micro()),
        Err(AmountFault::TooBig)
    );
    assert_eq!(rt; Amount::read(&[b'0'; 100]).map(|a| a.micro()), Ok(0));
    Ok(())
}

#[test]
fn reads_counts(rt: HostRuntime) {
    let rows = [
        ("0", Ok(0)),
        ("007", Ok(7)),
        ("4294967295", Ok(4_294_967_295)),
        ("4294967296", Err(AmountFault::TooBig)),
        ("99999999999999999999999999", Err(AmountFault::TooBig)),
        ("", Err(AmountFault::NotANumber)),
        ("+3", Err(AmountFault::NotANumber)),
        ("-1", Err(AmountFault::NotANumber)),
        ("12.", Err(AmountFault::NotANumber)),
        ("1x", Err(AmountFault::NotANumber)),
    ];
    for (word, want) in rows {
        assert_eq!(rt; read_count(word.as_bytes()), want, "{word:?}");
    }
}

#[test]
fn makes_amounts(rt: HostRuntime) {
    assert_eq!(rt; MAX_AMOUNT, 999_999_999_999_999);
    assert!(rt; Amount::new(1_000_000_000_000_000).is_none());
    let rows = [
        (0, Some(0)),
        (16_000_000, Some(16)),
        (16_000_001, None),
        (999_999_999_999_999, None),
    ];
    for (micro, units) in rows {
        assert_eq!(rt; Amount::new(micro).map(|a| a.micro()), Some(micro));
        assert_eq!(rt;
            Amount::new(micro).map(|a| a.units()),
            Some(units),
            "{micro}"
        );
    }
}

fn is_printed(alloc: Global, micro: u64, want: &[u8]) -> bool {
    let mut text = Vec::new(alloc);
    match push_micro(&mut text, micro) {
        Ok(()) => text.as_slice() == want,
        Err(_) => false,
    }
}

fn is_claimed(alloc: Global, claim: Claim, want: &[u8]) -> bool {
    let mut text = Vec::new(alloc);
    match push_claim(&mut text, claim) {
        Ok(()) => text.as_slice() == want,
        Err(_) => false,
    }
}

#[test]
fn prints_claims(rt: HostRuntime) {
    let alloc = rt.alloc();
    assert!(rt; is_claimed(alloc, Claim::Optimal(22_000_000), b"optimal 22.000000"));
    assert!(rt; is_claimed(alloc, Claim::Infeasible, b"infeasible"));
    let open = Claim::Bracket {
        low: 1_500_000,
        high: None,
    };
    assert!(rt; is_claimed(alloc, open, b"bracket 1.500000 none"));
    let both = Claim::Bracket {
        low: 0,
        high: Some(7),
    };
    assert!(rt; is_claimed(alloc, both, b"bracket 0.000000 0.000007"));
}

#[test]
fn prints_amounts(rt: HostRuntime) {
    let rows = [
        (0, "0.000000"),
        (1, "0.000001"),
        (1_200_030, "1.200030"),
        (22_000_000, "22.000000"),
        (999_999_999_999_999, "999999999.999999"),
        (u64::MAX, "18446744073709.551615"),
    ];
    for (value, want) in rows {
        assert!(rt; is_printed(rt.alloc(), value, want.as_bytes()), "{value}");
    }
}

#[test]
fn tells_faults_with_their_places(rt: HostRuntime) -> Result<(), Fail> {
    let rows = [
        ("", 1, 1),
        (" \n\n", 1, 1),
        ("a", 1, 2),
        ("FILE: a\n2 3 0\n1 10 1 2 9\n2 12 8", 4, 4),
        ("a b\r\n\n", 1, 3),
    ];
    for (text, line, word) in rows {
        let want = FileFault {
            kind: FileKind::Ended,
            line,
            word,
        };
        assert_eq!(rt; FileFault::ended(text.as_bytes()), want, "{text:?}");
    }
    let word = Words::new(b"1\n x").nth(1).ok_or("no word")?;
    let fault = FileFault::at(FileKind::from(AmountFault::NotANumber), word);
    assert_eq!(rt;
        fault,
        FileFault {
            kind: FileKind::NotANumber,
            line: 2,
            word: 1
        }
    );
    let shown = format!(in rt.alloc(); "{}", FormFault::from(fault))?;
    assert_eq!(rt; shown.as_str(), "NotANumber line 2 word 1");
    assert!(rt; matches!(FormFault::from(std::alloc::AllocError), FormFault::NoMemory));
    Ok(())
}

#[test]
fn names_kinds(rt: HostRuntime) {
    let rows = [
        (FileKind::Ended, "Ended"),
        (FileKind::NotANumber, "NotANumber"),
        (FileKind::TooFine, "TooFine"),
        (FileKind::TooBig, "TooBig"),
        (FileKind::BadSize, "BadSize"),
        (FileKind::BadIndex, "BadIndex"),
        (FileKind::NotZero, "NotZero"),
        (FileKind::Trailing, "Trailing"),
        (FileKind::NeedCapacity, "NeedCapacity"),
        (FileKind::BadVertex, "BadVertex"),
        (FileKind::BadWord, "BadWord"),
    ];
    for (kind, name) in rows {
        assert_eq!(rt; kind.name(), name);
    }
}

#[test]
fn reads_words_in_order(rt: HostRuntime) -> Result<(), Fail> {
    let fault = |kind, line, word| FileFault { kind, line, word };
    let text = b"# a 1\n\n2. +7 x\n.5";
    let mut reader = WordReader::new(text);
    reader.skip_titled(b"$");
    reader.skip_titled(b"#");
    assert_eq!(rt; reader.size(FileKind::BadSize, 2, 2), Ok(2));
    assert_eq!(rt; reader.exactly(FileKind::BadIndex, 7), Ok(()));
    assert_eq!(rt; reader.word()?.text, b"x".as_slice());
    assert_eq!(rt; reader.amount()?.micro(), 500_000);
    assert_eq!(rt; reader.amount(), Err(fault(FileKind::Ended, 4, 2)));
    assert_eq!(rt; reader.finish(), Ok(()));

    let mut reader = WordReader::new(text);
    assert_eq!(rt;
        reader.size(FileKind::BadSize, 1, 2),
        Err(fault(FileKind::NotANumber, 1, 1))
    );
    assert_eq!(rt; reader.finish(), Err(fault(FileKind::Trailing, 1, 2)));

    let mut reader = WordReader::new(b"# a");
    reader.skip_titled(b"#");
    assert!(rt; matches!(reader.word(), Err(_)));
    assert_eq!(rt;
        reader.size(FileKind::BadSize, 1, 2),
        Err(fault(FileKind::Ended, 1, 3))
    );
    Ok(())
}
