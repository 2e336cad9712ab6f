// What is read from a store. Its answers are taken whole.
use crate::refusal::Refusal;
use crate::texts::{SELECT_BASE, SELECT_LINES, SELECT_NAMES};
use scenario_keeper::{NameList, Scenario};
use sqlite::{Alter, Connection, Row, params};
use sqlite_rows::{names_of, scenario_of};
use sqlite_value::row;
use sqlite_value::value::ValueRef;
use std::alloc::Global;

/// The scenario under a name, and `None` where nothing stands there.
pub(crate) fn get<S: Alter>(
    alloc: Global,
    conn: &mut Connection<S>,
    name: &str,
) -> Result<Option<Scenario>, Refusal> {
    let base = rows(alloc, conn, SELECT_BASE, params![name])?;
    let lines = rows(alloc, conn, SELECT_LINES, params![name])?;
    Ok(scenario_of(alloc, &base, &lines)?)
}

/// All names, each with its number of edits.
pub(crate) fn names<S: Alter>(
    alloc: Global,
    conn: &mut Connection<S>,
) -> Result<NameList, Refusal> {
    let rows = rows(alloc, conn, SELECT_NAMES, &[])?;
    Ok(names_of(alloc, &rows)?)
}

// All rows of an answer.
fn rows<S: Alter>(
    alloc: Global,
    conn: &mut Connection<S>,
    text: &str,
    params: &[ValueRef<'_>],
) -> Result<Vec<row::Row>, Refusal> {
    let mut rows = Vec::new(alloc);
    for row in conn.query_all(text, params)? {
        rows.push(plain(alloc, &row)?)?;
    }
    Ok(rows)
}

fn plain(alloc: Global, row: &Row) -> Result<row::Row, Refusal> {
    let mut plain = row::Row::new(alloc);
    for at in 0..row.column_count() {
        plain.push(row.get_ref(at)?)?;
    }
    Ok(plain)
}
