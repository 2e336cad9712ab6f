// The texts that a store is asked with. None of them is put together of pieces: what varies is a parameter.

// The two tables. A store whose tables were made by other texts isn't one of this crate.
pub(crate) const SCENARIO_TABLE: &str =
    "CREATE TABLE scenario (name TEXT PRIMARY KEY, base BLOB, edits INTEGER)";

pub(crate) const LINE_TABLE: &str =
    "CREATE TABLE line (name TEXT, place INTEGER, body BLOB, PRIMARY KEY (name, place))";

// The texts by which the two names were made.
pub(crate) const TABLES: &str =
    "SELECT name, sql FROM sqlite_schema WHERE name = 'scenario' OR name = 'line'";

pub(crate) const DELETE_SCENARIO: &str = "DELETE FROM scenario WHERE name = ?1";

pub(crate) const DELETE_LINES: &str = "DELETE FROM line WHERE name = ?1";

pub(crate) const INSERT_SCENARIO: &str =
    "INSERT INTO scenario (name, base, edits) VALUES (?1, ?2, ?3)";

pub(crate) const INSERT_LINE: &str = "INSERT INTO line (name, place, body) VALUES (?1, ?2, ?3)";

pub(crate) const SELECT_BASE: &str = "SELECT base, edits FROM scenario WHERE name = ?1";

pub(crate) const SELECT_LINES: &str = "SELECT place, body FROM line WHERE name = ?1 ORDER BY place";

pub(crate) const SELECT_NAMES: &str = "SELECT name, edits FROM scenario ORDER BY name";
