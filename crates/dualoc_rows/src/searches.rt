//! Searches of every form, and checks of the certificates that they leave.
use memory_runs::{Calls, NETWORK, Outcome, Row, Status, WAREHOUSES, WORDED, ran};
use std::alloc::{AllocError, Global};
use std::test::Fail;

// Each warehouse holds one of the two customers.
const BOTH: &str =
    "dualoc-plan 1\noptimal 7504.750000\nsite 1 7500.000000\nsite 2 0.500000\nserve 1 2 1.250000\nserve 2 1 3.000000\nend\n";

// The costs of a customer stand on several lines.
const LIBRARY: &str =
    " 2 3 \n 5000 7500. \n 5000 7500. \n 146 \n 6739.72500 10355.05000 \n 87 \n 3204.86250 3853.29375 \n 672 \n 4914.00000 \n 26409.60000 \n";

const LIBRARY_PLAN: &str =
    "dualoc-plan 1\noptimal 22358.587500\nsite 1 7500.000000\nserve 1 1 6739.725000\nserve 2 1 3204.862500\nserve 3 1 4914.000000\nend\n";

const MEDIAN: &str =
    "dualoc-plan 1\noptimal 11.000000\nsite 2 0.000000\nserve 1 2 4.000000\nserve 2 2 0.000000\nserve 3 2 7.000000\nend\n";

const NO_PLAN: &str = "dualoc-plan 1\ninfeasible\nend\n";

// How a search of a file ends, what its line begins with, and the claim and the plan that it leaves.
struct Search {
    solve: &'static str,
    check: &'static str,
    file: &'static str,
    status: Status,
    front: &'static str,
    claim: &'static str,
    plan: &'static str,
}

const SEARCHES: [Search; 7] = [
    Search {
        solve: "solve cap a p c",
        check: "check cap a c",
        file: WAREHOUSES,
        status: Status::Done,
        front: "optimal 7504.750000 nodes ",
        claim: "yes optimal 7504.750000\n",
        plan: BOTH,
    },
    Search {
        solve: "solve cap a p c",
        check: "check cap a c",
        file: LIBRARY,
        status: Status::Done,
        front: "optimal 22358.587500 nodes ",
        claim: "yes optimal 22358.587500\n",
        plan: LIBRARY_PLAN,
    },
    // A customer that fits nowhere, though both capacities together suffice.
    Search {
        solve: "solve cap a p c",
        check: "check cap a c",
        file: "2 2\n10 7500\n10 .5\n6 6739.725 1.25\n11 3 4\n",
        status: Status::Infeasible,
        front: "infeasible nodes 1\n",
        claim: "yes infeasible\n",
        plan: NO_PLAN,
    },
    // One warehouse that holds either customer and not both.
    Search {
        solve: "solve cap a p c",
        check: "check cap a c",
        file: "1 2\n10 3\n6 1\n6 1\n",
        status: Status::Infeasible,
        front: "infeasible nodes 3\n",
        claim: "yes infeasible\n",
        plan: NO_PLAN,
    },
    Search {
        solve: "solve pmed a p c",
        check: "check pmed a c",
        file: NETWORK,
        status: Status::Done,
        front: "optimal 11.000000 nodes ",
        claim: "yes optimal 11.000000\n",
        plan: MEDIAN,
    },
    // No walk leads from one median to every vertex.
    Search {
        solve: "solve pmed a p c",
        check: "check pmed a c",
        file: "3 1 1\n1 2 5\n",
        status: Status::Infeasible,
        front: "infeasible nodes ",
        claim: "yes infeasible\n",
        plan: NO_PLAN,
    },
    // More medians than vertices.
    Search {
        solve: "solve pmed a p c",
        check: "check pmed a c",
        file: "2 1 3\n1 2 3\n",
        status: Status::Infeasible,
        front: "infeasible nodes 1\n",
        claim: "yes infeasible\n",
        plan: NO_PLAN,
    },
];

// Whether a check of the certificate prints this line.
fn shows<'x>(
    alloc: Global,
    words: &'x str,
    file: &'x str,
    certificate: &'x str,
    line: &'x str,
) -> Result<bool, Fail> {
    let (files, texts) = ([("a", file), ("c", certificate)], [line]);
    let row = Row::keeping(words, &files, Status::Done, &texts);
    Ok(row.is_met(alloc, Calls::sound(64))?)
}

fn searched(alloc: Global, words: &str, file: &str) -> Result<Outcome, AllocError> {
    ran(alloc, words, &[("a", file)], b"", Calls::sound(64))
}

fn is_as_said(alloc: Global, search: &Search) -> Result<bool, Fail> {
    let found = searched(alloc, search.solve, search.file)?;
    Ok(
        found.begins(search.status, search.front)
            && found.holds("p", search.plan)
            && shows(
                alloc,
                search.check,
                search.file,
                found.file("c"),
                search.claim,
            )?,
    )
}

#[test]
fn searches_every_form(rt: HostRuntime) -> Result<(), Fail> {
    for search in &SEARCHES {
        assert!(rt; is_as_said(rt.alloc(), search)?, "{}", search.file);
    }
    Ok(())
}

fn holds_both(alloc: Global, words: &str) -> Result<bool, Fail> {
    let found = searched(alloc, words, WORDED)?;
    Ok(
        found.begins(Status::Done, "optimal 7504.750000 nodes ")
            && found.holds("p", BOTH)
            && !found.file("c").is_empty(),
    )
}

#[test]
fn takes_options_in_either_order(rt: HostRuntime) -> Result<(), Fail> {
    assert!(rt; holds_both(rt.alloc(), "solve cap a p c capacity=10 budget=9")?);
    assert!(rt; holds_both(rt.alloc(), "solve cap a p c budget=9 capacity=10")?);
    Ok(())
}

fn ends_within_one_node(alloc: Global) -> Result<bool, Fail> {
    let words = "solve pmed a p c budget=1";
    let found = searched(alloc, words, NETWORK)?;
    Ok(
        found.is(Status::Done, "optimal 11.000000 nodes 1\n")
            || found.ends(Status::Bracket, ".000000 nodes 1 budget 1\n"),
    )
}

// A connected network has a plan, however small the budget is.
#[test]
fn finds_a_median_within_one_node(rt: HostRuntime) -> Result<(), Fail> {
    assert!(rt; ends_within_one_node(rt.alloc())?);
    Ok(())
}
