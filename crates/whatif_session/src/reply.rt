//! What a session replies to a line.
ghost use Rattle.std.specs.Prelude.{◌≡◌, ◌≢◌, [], true, false, IfOk};
ghost use Rattle.session_lines.specs.declared.fault.SessionFault.TheVariants as faults;
ghost use Rattle.session_lines.specs.Replies.{refusal_text};

use crate::{NoMemory, SessionFault};
use session_lines::refusal_text;
use std::alloc::Global;
use std::marker::Model;

/// The reply to a line, and whether the session ends with it.
#[derive(Drop)]
pub struct Reply {
    text: Vec<u8>,
    ended: bool,
}

impl Model for Reply {
    ghost use Rattle.whatif_session.specs.Shown.{Replied, replied_code};

    ghost Value = { Replied };

    ghost coded = { replied_code };

    ghost view = { λ r. record { text = r.text.items; ended = r.ended } };
}

impl Reply {
    /// The text of the reply.
    pub fn text(&self) -> &[u8]
        ensures { result.now ≡ self.now.text }
    {
        &self.text
    }

    /// Whether the session ends.
    pub fn ended(&self) -> bool
        ensures { result ≡ self.now.ended }
    {
        self.ended
    }

    /// A text, with which the session goes on.
    pub fn of(text: Vec<u8>) -> Reply
        ensures { result ≡ record { text = text.items; ended = false } }
    {
        Reply { text, ended: false }
    }

    // No text.
    pub(crate) fn silent(alloc: Global, ended: bool) -> Reply
        ensures { result ≡ record { text = []; ended = ended } }
    {
        Reply {
            text: Vec::new(alloc),
            ended,
        }
    }

    // The reply to a line that is refused; want of memory is no refusal.
    pub(crate) fn refusal(alloc: Global, fault: SessionFault) -> Result<Reply, NoMemory>
        ensures told { IfOk result (λ reply. reply ≡ record { text = refusal_text fault; ended = false }) }
        ensures refused { IfOk result (λ _. fault ≢ faults.NoMemory) }
    {
        if fault == SessionFault::NoMemory {
            return Err(NoMemory);
        }
        let text = refusal_text(alloc, fault)?;
        Ok(Reply::of(text))
    }
}
