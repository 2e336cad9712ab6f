//! An undo right behind an edit.
ghost use Rattle.std.specs.Prelude.{◌≡◌, None, Ok};
ghost use Rattle.std.specs.List.{last_or};
ghost use Rattle.location_terms.specs.Instance.{Instance};
ghost use Rattle.instance_edits.specs.declared.edit.Edit.{Edit};
ghost use Rattle.session_lines.specs.Replies.{ok_text};
ghost use Rattle.whatif_session.specs.State.{SessionState, IsPresent, present_solve, with_edit};
ghost use Rattle.whatif_session.specs.Step.{told_undo};
ghost use Rattle.session_laws.specs.Session.{unanswered};

/// An undo right behind an edit gives back the session as it was before the edit, but that no answer stands
/// any more: its instance, with the next ids, its edits, and the tree and the plan from which a solve starts.
pub fn undo_gives_back()
    ensures state { (state : SessionState) (e : Edit) →
        told_undo (with_edit state e) (last_or None (with_edit state e).edits) ≡ Ok (ok_text, unanswered state) }
    ensures instance { (state : SessionState) (I : Instance) → IsPresent state I → IsPresent (unanswered state) I }
    ensures solve { (state : SessionState) → present_solve (unanswered state) ≡ present_solve state }
{}
