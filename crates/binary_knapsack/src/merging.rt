//! The choices after one more load.
ghost use Rattle.std.specs.Prelude.{◌≡◌, ◌+◌, ◌<◌, ◌≤◌, ◌^◌, IsTrue, List, ◌∷◌, ◌++◌, [], length, max, IfOk, OnOk, drop};
ghost use Rattle.binary_knapsack.specs.Loads.{Load, Choice, taking_load, worth_with, reach};
ghost use Rattle.binary_knapsack.specs.Bounds.{IsBound};

use crate::item::{Choice, Load};
use crate::limit::Limit;
use instance_store::NoMemory;

// From the choices among the first k loads those among one more, in the place of what `next` held: each
// choice with the load and without it, the ones with more room first. A choice is left out where another
// one has as much room and worth, and where nothing that it may become is worth more than is reached.
pub(crate) fn add_load(
    choices: &[Choice],
    loads: &[Load],
    k: usize,
    limit: &Limit,
    next: &mut Vec<Choice>,
) -> Result<(), NoMemory>
    requires place { k < length loads.now }
    requires bound { IsBound limit.now (drop (k + 1) loads.now) }
    requires small { reach (drop k loads.now) choices.now < 2 ^ 126 }
    ensures { OnOk result (max limit.now.best (reach (drop (k + 1) loads.now) next.new.items) ≡ max limit.now.best (reach (drop k loads.now) choices.now)) }
{
    next.clear();
    let mut without = 0;
    for choice in choices {
        match take(choice, &loads[k]) {
            Some(with) => {
                without = pass_on(choices, without, &with, limit, next)?;
                add(&with, limit, next)?;
            }
            None => {}
        }
    }
    pass_all(choices, without, limit, next)?;
    Ok(())
}

// The choice with the load, where that fits.
fn take(choice: &Choice, load: &Load) -> Option<Choice>
    requires { load.now.weight ≤ choice.now.room → choice.now.worth + load.now.worth < 2 ^ 126 }
    ensures { result ≡ taking_load load.now choice.now }
{
    if load.weight <= choice.room {
        Some(Choice {
            room: choice.room - load.weight,
            worth: choice.worth + load.worth,
        })
    } else {
        None
    }
}

// Adds the choices from a place on that go before another one; the place behind them.
fn pass_on(
    choices: &[Choice],
    from: usize,
    until: &Choice,
    limit: &Limit,
    next: &mut Vec<Choice>,
) -> Result<usize, NoMemory>
    ensures { (rest : List Load) → IsBound limit.now rest → IfOk result (λ behind. max limit.now.best (max (reach rest next.new.items) (reach rest (drop behind choices.now))) ≡ max limit.now.best (max (reach rest next.old.items) (reach rest (drop from choices.now)))) }
{
    let mut i = from;
    while i < choices.len() && goes_first(&choices[i], until) {
        add(&choices[i], limit, next)?;
        i += 1;
    }
    Ok(i)
}

// Whether a choice goes before another one: it has more room, or as much and no less worth.
fn goes_first(choice: &Choice, other: &Choice) -> bool {
    choice.room > other.room || (choice.room == other.room && choice.worth >= other.worth)
}

// Adds the choices from a place on.
fn pass_all(
    choices: &[Choice],
    from: usize,
    limit: &Limit,
    next: &mut Vec<Choice>,
) -> Result<(), NoMemory>
    ensures { (rest : List Load) → IsBound limit.now rest → OnOk result (max limit.now.best (reach rest next.new.items) ≡ max limit.now.best (max (reach rest next.old.items) (reach rest (drop from choices.now)))) }
{
    for i in from..choices.len() {
        add(&choices[i], limit, next)?;
    }
    Ok(())
}

// Adds a choice, where it may matter.
fn add(choice: &Choice, limit: &Limit, next: &mut Vec<Choice>) -> Result<(), NoMemory>
    ensures { (rest : List Load) → IsBound limit.now rest → OnOk result (max limit.now.best (reach rest next.new.items) ≡ max limit.now.best (max (reach rest next.old.items) (worth_with rest choice.now))) }
{
    if !limit.excludes(choice) && !is_covered(choice, next) {
        next.push(*choice)?;
    }
    Ok(())
}

// Whether the last choice has as much room and worth.
fn is_covered(choice: &Choice, choices: &[Choice]) -> bool
    ensures { IsTrue result → (rest : List Load) → worth_with rest choice.now ≤ reach rest choices.now }
{
    match choices.last() {
        None => false,
        Some(last) => last.room >= choice.room && last.worth >= choice.worth,
    }
}
