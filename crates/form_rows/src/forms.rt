//! The forms of instance files.
use memory_runs::{Calls, NETWORK, Row, Status, WAREHOUSES, WORDED, ran};
use std::alloc::Global;
use std::test::Fail;

const ITS_DUALS: &str =
    "bound 5.750000\ncustomer 1 1.750000\ncustomer 2 4.000000\nsite 1 7499.000000\nsite 2 0.000000\n";

// Those where the capacities are too small for every customer.
const NO_OFFERS: &str =
    "bound 0.000000\ncustomer 1 0.000000\ncustomer 2 0.000000\nsite 1 7500.000000\nsite 2 0.500000\n";

// Those of one warehouse that can hold one of two customers.
const ONE_OFFER: &str =
    "bound 4.000000\ncustomer 1 0.000000\ncustomer 2 4.000000\nsite 1 0.000000\n";

// Words, a file, and the duals that they print.
const DUALS: [(&str, &str, &str); 12] = [
    ("duals cap a", WAREHOUSES, ITS_DUALS),
    ("duals uncap a", WAREHOUSES, ITS_DUALS),
    ("duals uncap a", WORDED, ITS_DUALS),
    ("duals cap a capacity=10", WORDED, ITS_DUALS),
    ("duals cap a capacity=10", WAREHOUSES, ITS_DUALS),
    ("duals cap a capacity=+010.0000000", WORDED, ITS_DUALS),
    ("duals cap a capacity=+010.0000000", WAREHOUSES, ITS_DUALS),
    ("duals cap a capacity=6", WORDED, ITS_DUALS),
    ("duals cap a capacity=6", WAREHOUSES, ITS_DUALS),
    ("duals cap a capacity=5.999999", WORDED, NO_OFFERS),
    ("duals cap a capacity=5.999999", WAREHOUSES, ITS_DUALS),
    ("duals cap a", "1 2\n5 3\n6 1\n5 1\n", ONE_OFFER),
];

const ITS_PLAN: &str =
    "dualoc-plan 1\noptimal 5.750000\nsite 2 0.500000\nserve 1 2 1.250000\nserve 2 2 4.000000\nend\n";

// Two customers who each demand 6, and one warehouse whose capacity is that of the option.
const SMALL: &str = "1 2\ncapacity 3\n6 1\n6 1\n";

// Less than 12 is too little for both.
const NONE_FITS: &str =
    "dualoc-certificate 1\nsites 1 customers 2\nclaim infeasible\nsite 1\nleaf 0 0\nv 1 0\nu\nleaf 0 0\nv 6000000 6000000\nu 1 1\nend\n";

// The best median is vertex 2, for 4 + 0 + 7.
const ITS_MEDIAN: &str =
    "dualoc-certificate 1\nsites 3 customers 3\nclaim optimal 11.000000\nopen 2\nserve 2 2 2\nleaf 1 7000000\nv 4000000 7000000 7000000\nu\nend\n";

// Words of two commands, a file, and its first fault.
const FAULTS: [(&str, &str, &str, &str); 8] = [
    (
        "duals cap a",
        "check cap a c",
        WORDED,
        "bad input NeedCapacity line 2 word 1\n",
    ),
    (
        "duals cap a",
        "check cap a c",
        "1 1\n5 x\n",
        "bad input NotANumber line 2 word 2\n",
    ),
    (
        "duals uncap a",
        "check uncap a c",
        "1 1\n5 0\n5 2 2\n",
        "bad input Trailing line 3 word 3\n",
    ),
    (
        "duals uncap a",
        "check uncap a c",
        "1 1\ncapacity\n",
        "bad input Ended line 2 word 2\n",
    ),
    (
        "duals pmed a",
        "check pmed a c",
        "2 1 0\n1 2 3\n",
        "bad input BadSize line 1 word 3\n",
    ),
    (
        "duals pmed a",
        "check pmed a c",
        "2 1 1\n1 3 3\n",
        "bad input BadVertex line 2 word 2\n",
    ),
    (
        "duals pmed a",
        "check pmed a c",
        "3 2 1\n1 2 999999999.999999\n2 3 1\n",
        "bad input TooBig line 3 word 3\n",
    ),
    (
        "duals pmed a",
        "check pmed a c",
        "3 2 1\n1 2 999999999.999999\n2 3 1 0\n",
        "bad input Trailing line 3 word 4\n",
    ),
];

// Whether words on the file `a` and on the certificate `c` have this answer, and leave the certificate.
pub(crate) fn answers<'x>(
    alloc: Global,
    words: &'x str,
    file: &'x str,
    certificate: &'x str,
    status: Status,
    text: &'x str,
) -> Result<bool, Fail> {
    let row = Row {
        words,
        files: &[("a", file), ("c", certificate)],
        input: "",
        status,
        texts: &[text],
        left: &[("a", file), ("p", ""), ("c", certificate)],
    };
    Ok(row.is_met(alloc, Calls::sound(7))?)
}

#[test]
fn reads_warehouses(rt: HostRuntime) -> Result<(), Fail> {
    for (words, file, text) in DUALS {
        assert!(rt;
            answers(rt.alloc(), words, file, "", Status::Done, text)?,
            "{words}"
        );
    }
    Ok(())
}

// Whether these words on the file print this fault.
fn has_fault(alloc: Global, words: &str, file: &str, fault: &str) -> Result<bool, Fail> {
    answers(alloc, words, file, "", Status::BadInput, fault)
}

#[test]
fn names_the_fault_of_a_form(rt: HostRuntime) -> Result<(), Fail> {
    for (duals, check, file, fault) in FAULTS {
        assert!(rt;
            has_fault(rt.alloc(), duals, file, fault)?,
            "{duals} {fault}"
        );
        assert!(rt;
            has_fault(rt.alloc(), check, file, fault)?,
            "{check} {fault}"
        );
    }
    Ok(())
}

// Whether these words on the small warehouse and the certificate have this answer.
fn checks_small(alloc: Global, words: &str, status: Status, text: &str) -> Result<bool, Fail> {
    answers(alloc, words, SMALL, NONE_FITS, status, text)
}

#[test]
fn checks_with_the_capacity_that_is_given(rt: HostRuntime) -> Result<(), Fail> {
    let alloc = rt.alloc();
    let need = "bad input NeedCapacity line 2 word 1\n";
    assert!(rt; checks_small(alloc, "check cap a c", Status::BadInput, need)?);
    let yes = "yes infeasible\n";
    assert!(rt; checks_small(alloc, "check cap a c capacity=11.999999", Status::Done, yes)?);
    let open = "no LeafOpen line 8 bound 0 scale 0\n";
    assert!(rt; checks_small(alloc, "check cap a c capacity=12", Status::CheckNo, open)?);
    Ok(())
}

#[test]
fn checks_a_median(rt: HostRuntime) -> Result<(), Fail> {
    let words = "check pmed a c";
    let yes = "yes optimal 11.000000\n";
    assert!(rt; answers(rt.alloc(), words, NETWORK, ITS_MEDIAN, Status::Done, yes)?);
    // No edge leads to vertex 3.
    let no = "no PlanRefused line 5 NoLane\n";
    assert!(rt;
        answers(
            rt.alloc(),
            words,
            "3 1 1\n1 2 4\n",
            ITS_MEDIAN,
            Status::CheckNo,
            no
        )?
    );
    Ok(())
}

// Whether the search leaves its plan and a certificate, and a check of that says yes.
fn solves_uncapacitated(alloc: Global) -> Result<bool, Fail> {
    let words = "solve uncap a p c budget=3";
    let found = ran(alloc, words, &[("a", WORDED)], b"", Calls::sound(7))?;
    Ok(
        found.is(Status::Done, "optimal 5.750000 nodes 1\n")
            && found.holds("p", ITS_PLAN)
            && says_yes(alloc, found.file("c"))?,
    )
}

fn says_yes(alloc: Global, certificate: &str) -> Result<bool, Fail> {
    let (words, yes) = ("check uncap a c", "yes optimal 5.750000\n");
    answers(alloc, words, WORDED, certificate, Status::Done, yes)
}

#[test]
fn solves_warehouses_without_capacities(rt: HostRuntime) -> Result<(), Fail> {
    assert!(rt; solves_uncapacitated(rt.alloc())?);
    Ok(())
}
