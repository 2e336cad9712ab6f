// The rows of one name as its scenario.
ghost use Rattle.std.specs.Prelude.{◌≡◌, ◌≢◌, ◌<◌, ◌+◌, ◌-◌, ◌^◌, ℕ, List, length, Option, Err, IfOk, MatchOption};
ghost use Rattle.scenario_keeper.specs.Scenario.{Scenario as Meaning};
ghost use Rattle.sqlite_rows.specs.Stored.{line_row, base_row, AreOf, Answers};

use crate::cells::{blob_at, count_at};
use crate::fault::RowsFault;
use scenario_keeper::Scenario;
use sqlite_value::row::Row;
use std::alloc::Global;

/// The scenario of a name, and `None` where nothing stands under it. `base` are the rows of its base with
/// the number of its edits, of which there is at most one, and `lines` those of its edits by their places.
pub fn scenario_of(
    alloc: Global,
    base: &[Row],
    lines: &[Row],
) -> Result<Option<Scenario>, RowsFault>
    ensures found { IfOk result (λ found. Answers found base.now lines.now) }
    ensures unlike { result ≡ Err RowsFault.Unlike → (found : Option Meaning) → ¬ Answers found base.now lines.now }
{
    match base {
        [] if lines.is_empty() => Ok(None),
        [row] => {
            let scenario = edited(alloc, row, lines)?;
            Ok(Some(scenario))
        }
        _ => Err(RowsFault::Unlike),
    }
}

// The scenario of the row of its base, and of the rows of its edits.
fn edited(alloc: Global, row: &Row, lines: &[Row]) -> Result<Scenario, RowsFault>
    ensures edited { IfOk result (λ scenario. AreOf scenario row.now lines.now) }
    ensures unlike { result ≡ Err RowsFault.Unlike → (scenario : Meaning) → ¬ AreOf scenario row.now lines.now }
{
    let Some(base) = base_of(row, lines) else {
        return Err(RowsFault::Unlike);
    };
    let mut scenario = Scenario::new(alloc, base.to_vec(alloc)?);
    for line in lines {
        let Some(body) = body_at(line, &scenario) else {
            return Err(RowsFault::Unlike);
        };
        scenario.push(body)?;
    }
    Ok(scenario)
}

// The text of a base from which as many edits lead on as there are lines.
fn base_of<'a>(row: &'a Row, lines: &[Row]) -> Option<&'a [u8]>
    ensures { MatchOption result ((base : List ℕ) → row.now ≢ base_row base (length lines.now))
        (λ base. row.now ≡ base_row base.now (length lines.now)) }
{
    if row.len() != 2 || count_at(row, 1) != Some(lines.len() as u64) {
        return None;
    }
    blob_at(row, 0)
}

// The line of the next edit behind those that were read.
fn body_at<'a>(row: &'a Row, read: &Scenario) -> Option<&'a [u8]>
    requires { length read.now.edits < 2 ^ 64 - 1 }
    ensures { MatchOption result ((line : List ℕ) → row.now ≢ line_row (length read.now.edits + 1) line)
        (λ line. row.now ≡ line_row (length read.now.edits + 1) line.now) }
{
    if row.len() != 2 || count_at(row, 0) != Some(read.lines() as u64 + 1) {
        return None;
    }
    blob_at(row, 1)
}
