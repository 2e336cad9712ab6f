// A store that is open: its file is held until this is dropped.
use crate::refusal::Refusal;
use crate::texts::{LINE_TABLE, SCENARIO_TABLE, TABLES};
use sqlite::{Alter, Connection, File, FileStore, Row};
use std::rt::HostRuntime;

/// An open store with its two tables. No other process can open it until it is dropped.
pub(crate) struct Store {
    pub(crate) conn: Connection<FileStore<File>>,
}

impl Drop for Store {
    fn drop(self) {
        let Store { conn } = self;
        // What was committed stands in the log where it can't be copied into the file.
        let _ = conn.close();
    }
}

impl Store {
    /// Opens the file at a path, or makes it, and makes the tables that are missing. A table that was made by
    /// another text is left as it is, and then nothing is made.
    pub(crate) fn open(rt: &HostRuntime, path: &str) -> Result<Store, Refusal> {
        let mut store = Store {
            conn: Connection::open(rt, path)?,
        };
        make_missing(&mut store.conn)?;
        Ok(store)
    }
}

// Makes the tables that are missing, all of them or none.
fn make_missing<S: Alter>(conn: &mut Connection<S>) -> Result<(), Refusal> {
    let found = conn.query_all(TABLES, &[])?;
    let has_scenarios = is_made(&found, "scenario", SCENARIO_TABLE)?;
    let has_lines = is_made(&found, "line", LINE_TABLE)?;
    if has_scenarios && has_lines {
        return Ok(());
    }
    make(conn, has_scenarios, has_lines)
}

// Whether a table is there. It is refused where it was made by another text.
fn is_made(found: &[Row], name: &str, text: &str) -> Result<bool, Refusal> {
    for row in found {
        if row.get::<String>(0)?.as_str() == name {
            return if row.get::<String>(1)?.as_str() == text {
                Ok(true)
            } else {
                Err(Refusal::Store)
            };
        }
    }
    Ok(false)
}

fn make<S: Alter>(
    conn: &mut Connection<S>,
    has_scenarios: bool,
    has_lines: bool,
) -> Result<(), Refusal> {
    if !conn.is_autocommit() {
        return Err(Refusal::Store);
    }
    let mut change = conn.transaction();
    if !has_scenarios {
        change.execute(SCENARIO_TABLE, &[])?;
    }
    if !has_lines {
        change.execute(LINE_TABLE, &[])?;
    }
    change.commit()?;
    Ok(())
}
