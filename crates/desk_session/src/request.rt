//! What a line asks of the keeper.
ghost use Rattle.std.specs.Prelude.{◌≡◌, ◌∷◌, [], option_map, bytes_eq};
ghost use Rattle.desk_session.specs.Asked.{asked_of};
ghost use Rattle.desk_session.specs.Lines.{keeper_line, keeper_words, named_line};

use number_words::LineWords;
use scenario_keeper::as_name;

/// What a line asks of the keeper.
#[derive(Debug, Drop)]
pub(crate) enum KeeperRequest<'a> {
    /// To keep the edits in force under this name.
    Keep(&'a str),
    /// To begin anew with what is kept there.
    Load(&'a str),
    /// To forget it.
    Forget(&'a str),
    /// To list what is kept.
    Names,
}

/// What a line asks of the keeper; `None` where it is one for the session.
pub(crate) fn keeper_request(line: &[u8]) -> Option<KeeperRequest<'_>>
    ensures { option_map asked_of result ≡ keeper_line line.now }
{
    let mut words = LineWords::new(line);
    let verb = words.next()?;
    let Some(word) = words.next() else {
        return alone(verb);
    };
    if words.next().is_some() {
        return None;
    }
    named(verb, as_name(word)?)
}

// What a word asks for behind which nothing stands.
fn alone(verb: &[u8]) -> Option<KeeperRequest<'static>>
    ensures { option_map asked_of result ≡ keeper_words (verb.now ∷ []) }
{
    if is_word(verb, b"names") {
        return Some(KeeperRequest::Names);
    }
    None
}

// What a word asks for behind which a name stands.
fn named<'a>(verb: &[u8], name: &'a str) -> Option<KeeperRequest<'a>>
    ensures { option_map asked_of result ≡ named_line verb.now name.now }
{
    match verb {
        verb if is_word(verb, b"keep") => Some(KeeperRequest::Keep(name)),
        verb if is_word(verb, b"load") => Some(KeeperRequest::Load(name)),
        verb if is_word(verb, b"forget") => Some(KeeperRequest::Forget(name)),
        _ => None,
    }
}

// Whether a word is this one.
fn is_word(verb: &[u8], word: &[u8]) -> bool
    ensures { result ≡ bytes_eq verb.now word.now }
{
    verb == word
}
