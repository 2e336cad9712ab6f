//! The names of scenarios.
ghost use Rattle.std.specs.Prelude.{◌≡◌, option_map, if◌then◌else◌, Some, None};
ghost use Rattle.std.specs.List.{list_all};
ghost use Rattle.scenario_keeper.specs.Spelling.{is_name, is_name_byte};

/// The most bytes of a scenario's name.
pub const MAX_NAME_BYTES: usize = 64;

/// Whether a scenario may have this name: 1 to `MAX_NAME_BYTES` letters, digits, `-` and `_` of ASCII.
pub fn is_name(word: &[u8]) -> bool
    ensures { result ≡ is_name word.now }
{
    !word.is_empty() && word.len() <= MAX_NAME_BYTES && are_name_bytes(word)
}

/// The name that a word is, where `is_name` says that it is one.
pub fn as_name(word: &[u8]) -> Option<&str>
    ensures { option_map (λ s. s.now) result ≡ (if is_name word.now then Some word.now else None) }
{
    if !is_name(word) {
        return None;
    }
    match std::str::from_utf8(word) {
        Ok(name) => Some(name),
        Err(_) => None,
    }
}

fn are_name_bytes(word: &[u8]) -> bool
    ensures { result ≡ list_all is_name_byte word.now }
{
    for byte in word {
        if !is_name_byte(*byte) {
            return false;
        }
    }
    true
}

fn is_name_byte(byte: u8) -> bool
    ensures { result ≡ is_name_byte byte }
{
    byte.is_ascii_alphanumeric() || byte == b'-' || byte == b'_'
}
