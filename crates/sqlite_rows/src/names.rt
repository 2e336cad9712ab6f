// The rows of names as a list.
ghost use Rattle.std.specs.Prelude.{◌≡◌, ◌≢◌, ℕ, List, Err, IfOk, MatchOption};
ghost use Rattle.sqlite_rows.specs.Named.{name_row, AreOfNames};
ghost use Rattle.scenario_keeper.specs.Spelling.{IsName};
ghost use Rattle.sqlite_value.specs.Order.{column};
ghost use Rattle.sqlite_value.specs.declared.value.Value.TheVariants.{Text};

use crate::cells::{count_at, text_at};
use crate::fault::RowsFault;
use scenario_keeper::{NameList, as_name};
use sqlite_value::row::Row;
use std::alloc::Global;

/// The names of the scenarios in these rows, in the order of their bytes, each with its number of edits.
pub fn names_of(alloc: Global, rows: &[Row]) -> Result<NameList, RowsFault>
    ensures names { IfOk result (λ names. AreOfNames names rows.now) }
    ensures unlike { result ≡ Err RowsFault.Unlike → (names : List (List ℕ × ℕ)) → ¬ AreOfNames names rows.now }
{
    let mut names = NameList::new(alloc);
    for row in rows {
        let Some((name, edits)) = entry_of(row) else {
            return Err(RowsFault::Unlike);
        };
        if !names.are_below(name) {
            return Err(RowsFault::Unlike);
        }
        names.push(String::from_str(alloc, name)?, edits)?;
    }
    Ok(names)
}

// The name of a row with its number of edits.
fn entry_of(row: &Row) -> Option<(&str, u64)>
    ensures { MatchOption result ((entry : List ℕ × ℕ) → IsName entry.0 → row.now ≢ name_row entry)
        (λ entry. IsName entry.0.now × (row.now ≡ name_row (entry.0.now, entry.1))) }
{
    if row.len() != 2 {
        return None;
    }
    let edits = count_at(row, 1)?;
    let name = name_at(row)?;
    Some((name, edits))
}

// The name in the first column.
fn name_at(row: &Row) -> Option<&str>
    ensures { MatchOption result ((name : List ℕ) → IsName name → column row.now 0 ≢ Text name)
        (λ name. IsName name.now × (column row.now 0 ≡ Text name.now)) }
{
    as_name(text_at(row, 0)?)
}
