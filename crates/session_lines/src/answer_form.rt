ghost use Rattle.std.specs.Prelude.{◌≡◌};

/// How the standing answer is shown.
#[derive(Clone, Copy, Debug, PartialEq, Eq)]
pub enum AnswerForm {
    /// By the plan text.
    Plan,
    /// By the site table of its plan.
    Table,
    /// By one line of JSON.
    Json,
}
