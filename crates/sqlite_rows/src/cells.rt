// What stands in one column of a row.
ghost use Rattle.std.specs.Prelude.{◌≡◌, ◌≢◌, ℕ, List, pos, MatchOption};
ghost use Rattle.sqlite_value.specs.Order.{column};
ghost use Rattle.sqlite_value.specs.declared.value.Value.TheVariants.{Int, Text, Blob};

use sqlite_value::row::Row;
use sqlite_value::value::ValueRef;

// The bytes in a column of bytes.
pub(crate) fn blob_at(row: &Row, at: usize) -> Option<&[u8]>
    ensures { MatchOption result ((bytes : List ℕ) → column row.now at ≢ Blob bytes)
        (λ bytes. column row.now at ≡ Blob bytes.now) }
{
    match row.get(at) {
        ValueRef::Blob(bytes) => Some(bytes),
        _ => None,
    }
}

// The bytes of a text.
pub(crate) fn text_at(row: &Row, at: usize) -> Option<&[u8]>
    ensures { MatchOption result ((bytes : List ℕ) → column row.now at ≢ Text bytes)
        (λ bytes. column row.now at ≡ Text bytes.now) }
{
    match row.get(at) {
        ValueRef::Text(bytes) => Some(bytes),
        _ => None,
    }
}

// A whole number that isn't negative.
pub(crate) fn count_at(row: &Row, at: usize) -> Option<u64>
    ensures { MatchOption result ((n : ℕ) → column row.now at ≢ Int (pos n))
        (λ n. column row.now at ≡ Int (pos n)) }
{
    match row.get(at) {
        ValueRef::Int(n) => u64::try_from(n).ok(),
        _ => None,
    }
}
