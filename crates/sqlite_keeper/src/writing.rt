// What changes a store: each in one transaction, which is rolled back where a part of it is refused.
use crate::refusal::Refusal;
use crate::texts::{DELETE_LINES, DELETE_SCENARIO, INSERT_LINE, INSERT_SCENARIO};
use scenario_keeper::{Scenario, is_name};
use sqlite::{Alter, Connection, Transaction, params};

/// Puts a scenario under a name, in the place of what stood there. A name that no list of names may hold is
/// refused.
pub(crate) fn put<S: Alter>(
    conn: &mut Connection<S>,
    name: &str,
    what: &Scenario,
) -> Result<(), Refusal> {
    if !is_name(name.as_bytes()) || !conn.is_autocommit() {
        return Err(Refusal::Store);
    }
    let mut change = conn.transaction();
    delete(&mut change, name)?;
    insert(&mut change, name, what)?;
    insert_lines(&mut change, name, what)?;
    change.commit()?;
    Ok(())
}

/// Takes a name out, and says whether it was there.
pub(crate) fn forget<S: Alter>(conn: &mut Connection<S>, name: &str) -> Result<bool, Refusal> {
    if !conn.is_autocommit() {
        return Err(Refusal::Store);
    }
    let mut change = conn.transaction();
    let known = delete(&mut change, name)?;
    change.commit()?;
    Ok(known)
}

// Deletes the rows of a name from both tables, and says whether a scenario was there.
fn delete<S: Alter>(change: &mut Transaction<'_, S>, name: &str) -> Result<bool, Refusal> {
    change.execute(DELETE_LINES, params![name])?;
    Ok(change.execute(DELETE_SCENARIO, params![name])? > 0)
}

fn insert<S: Alter>(
    change: &mut Transaction<'_, S>,
    name: &str,
    what: &Scenario,
) -> Result<(), Refusal> {
    let edits = number(what.lines())?;
    change.execute(INSERT_SCENARIO, params![name, what.base(), edits])?;
    Ok(())
}

// The lines have the places 1, 2, 3 and so on.
fn insert_lines<S: Alter>(
    change: &mut Transaction<'_, S>,
    name: &str,
    what: &Scenario,
) -> Result<(), Refusal> {
    let insert = change.prepare(INSERT_LINE)?;
    for k in 0..what.lines() {
        let place = number(k + 1)?;
        change.execute_prepared(&insert, params![name, place, what.line(k)])?;
    }
    Ok(())
}

fn number(n: usize) -> Result<i64, Refusal> {
    match i64::try_from(n) {
        Ok(n) => Ok(n),
        Err(_) => Err(Refusal::Store),
    }
}
