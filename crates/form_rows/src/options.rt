//! The options of commands.
use crate::forms::answers;
use memory_runs::{Status, TWO_SITES, WAREHOUSES};
use std::test::Fail;

// Words over the warehouses that name a file like an option, or pass the greatest budget.
const REFUSED: [(&str, Status, &str); 5] = [
    ("duals cap capacity=5", Status::ReadFault, "read fault\n"),
    (
        "duals cap capacity=5 capacity=5",
        Status::ReadFault,
        "read fault\n",
    ),
    ("check cap a capacity=5", Status::ReadFault, "read fault\n"),
    (
        "check cap a capacity=5 capacity=5",
        Status::ReadFault,
        "read fault\n",
    ),
    (
        "solve uncap a p c budget=5000001",
        Status::TooLarge,
        "too large budget\n",
    ),
];

// Words that are no command.
const NO_COMMANDS: [&str; 21] = [
    "duals own a capacity=1",
    "duals cap a capacity=1000000000",
    "solve uncap a p c budget=01",
    "check cap a c capacity=1 capacity=1",
    "check cap a c budget=1",
    "solve uncap a",
    "solve pmed a",
    "solve cap a p c budget=1 budget=1",
    "solve cap a p c capacity=1 capacity=1",
    "solve pmed a p c capacity=1 budget=1",
    "solve uncap a p c capacity=1",
    "duals ufl a capacity=1",
    "duals uncap a capacity=1",
    "duals pmed a capacity=1",
    "duals cap a capacity=1.0000001",
    "duals cap a capacity=",
    "duals cap a budget=1",
    "duals cap a capacity=1 capacity=1",
    "duals cap  capacity=1",
    "check uncap a c capacity=1",
    "check cap a a capacity=1",
];

#[test]
fn takes_an_option_with_its_form_alone(rt: HostRuntime) -> Result<(), Fail> {
    for words in NO_COMMANDS {
        assert!(rt; answers(rt.alloc(), words, TWO_SITES, "", Status::Usage, "usage\n")?);
    }
    for (words, status, text) in REFUSED {
        assert!(rt; answers(rt.alloc(), words, WAREHOUSES, "", status, text)?);
    }
    Ok(())
}
