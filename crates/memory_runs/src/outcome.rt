//! What a run came to.
use dualoc_cli::Status;
use shelf_port::{MemShelf, MemSink};

/// How a run ended, what it printed, and the files as it left them.
#[derive(Drop)]
pub struct Outcome {
    pub status: Status,
    pub(crate) shelf: MemShelf,
    pub(crate) out: MemSink,
}

impl Outcome {
    /// What the run printed.
    pub fn text(&self) -> &[u8] {
        self.out.written()
    }

    /// Whether the run ended so and printed just this.
    pub fn is(&self, status: Status, text: &str) -> bool {
        self.status == status && self.text() == text.as_bytes()
    }

    /// Whether the run ended so and printed a text that begins so.
    pub fn begins(&self, status: Status, front: &str) -> bool {
        self.status == status && self.text().starts_with(front.as_bytes())
    }

    /// Whether the run ended so and printed a text that ends so.
    pub fn ends(&self, status: Status, end: &str) -> bool {
        self.status == status && self.text().ends_with(end.as_bytes())
    }

    /// Whether the run ended so and printed just these texts, one behind the other.
    pub fn prints(&self, status: Status, texts: &[&str]) -> bool {
        self.status == status && is_made_of(self.text(), texts, b"")
    }

    /// Whether the run ended so and printed a text of this pattern, in which each star stands for a number.
    pub fn is_like(&self, status: Status, pattern: &str) -> bool {
        self.status == status && is_of(self.text(), pattern.as_bytes())
    }

    /// The text of this file, an empty one where it isn't there or is no UTF-8.
    pub fn file(&self, name: &str) -> &str {
        std::str::from_utf8(self.bytes(name)).unwrap_or_default()
    }

    // The bytes of this file, none where it isn't there.
    fn bytes(&self, name: &str) -> &[u8] {
        self.shelf.file(name).unwrap_or_default()
    }

    /// Whether this file holds just this text, or isn't there where that is empty.
    pub fn holds(&self, name: &str, text: &str) -> bool {
        self.bytes(name) == text.as_bytes()
    }

    /// Whether each of these files holds just its text.
    pub fn leaves(&self, files: &[(&str, &str)]) -> bool {
        for (name, text) in files {
            if !self.holds(name, text) {
                return false;
            }
        }
        true
    }
}

/// Whether the bytes are these texts, one behind the other, and then this front.
pub(crate) fn is_made_of(bytes: &[u8], texts: &[&str], front: &[u8]) -> bool {
    let mut rest = bytes;
    for text in texts {
        match rest.strip_prefix(text.as_bytes()) {
            Some(behind) => rest = behind,
            None => return false,
        }
    }
    rest == front
}

// Whether a text has this pattern.
fn is_of(text: &[u8], pattern: &[u8]) -> bool {
    let mut rest = text;
    let mut is_first = true;
    for part in pattern.split(|byte| *byte == b'*') {
        if !is_first {
            rest = behind_number(rest);
        }
        is_first = false;
        match rest.strip_prefix(part) {
            Some(behind) => rest = behind,
            None => return false,
        }
    }
    rest.is_empty()
}

// What stands behind the digits and points with which a text begins.
fn behind_number(text: &[u8]) -> &[u8] {
    let end = text
        .iter()
        .position(|byte| !byte.is_ascii_digit() && *byte != b'.');
    match end {
        Some(place) => text.get(place..).unwrap_or_default(),
        None => b"",
    }
}
