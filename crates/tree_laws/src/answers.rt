//! The certificates of a search's answers.
ghost use Rattle.std.specs.Prelude.{◌≡◌, ◌⊎◌, ℕ, ◌≤◌, length, Option};
ghost use Rattle.location_terms.specs.Instance.{Instance, IsValid};
ghost use Rattle.location_terms.specs.Plan.{Plan};
ghost use Rattle.location_terms.specs.Tree.{Tree, nodes_of};
ghost use Rattle.certificate_lines.specs.Follow.{HasSmallCosts};
ghost use Rattle.certificate_lines.specs.Length.{DecidesOnce};
ghost use Rattle.certificate_lines.specs.Text.{certificate_text};
ghost use Rattle.certificate_lines.specs.declared.limits.TheConstants.{MAX_CERTIFICATE_BYTES};
ghost use Rattle.tree_search.specs.Answer.{IsWithin, IsAnswerTo, claim_in, certificate_in};
ghost use Rattle.tree_search.specs.declared.answer.Answer.{Answer};

/// The costs that a search's answer claims are within their limit. Where the search started from a tree
/// that decides each thing once, with the nodes and the budget that a search may start with, the text of
/// the answer's certificate is within the checker's limit.
pub fn answers_have_texts()
    ensures small { (I : Instance) (old : Tree) (handed : Option Plan) (budget : ℕ) (a : Answer) →
        IsValid I → IsAnswerTo I old handed budget a → HasSmallCosts (claim_in I a) }
    ensures within { (I : Instance) (old : Tree) (handed : Option Plan) (budget : ℕ) (a : Answer) →
        IsValid I → IsWithin I (nodes_of old) ⊎ (nodes_of old ≡ 1) → IsWithin I budget → DecidesOnce old →
        IsAnswerTo I old handed budget a → length (certificate_text I (certificate_in I a)) ≤ MAX_CERTIFICATE_BYTES }
{}
