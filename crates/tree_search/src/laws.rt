//! When a search ends, and what its answer means, by the definitions alone. Each law is the contract of
//! a function that does nothing.
ghost use Rattle.std.specs.Prelude.{ℕ, ◌+◌, ◌*◌, ◌^◌, ◌≤◌, Bool, not, List, filter, length, Option};
ghost use Rattle.location_terms.specs.Instance.{Instance, IsValid};
ghost use Rattle.location_terms.specs.Plan.{Plan as Chosen};
ghost use Rattle.location_terms.specs.Optimal.{ClaimHolds};
ghost use Rattle.location_terms.specs.Tree.{Tree as Boxes, nodes_of};
ghost use Rattle.tree_search.specs.Grown.{IsGrownFrom};
ghost use Rattle.tree_search.specs.Answer.{cost_in, plan_in, claim_in, most_decisions, AreHeld, IsAnswerTo, IsDecided};
ghost use Rattle.tree_search.specs.declared.answer.Answer.{Answer as Reply};

/// A search ends. Whatever its target, its tree has less than 2 ^ (decisions + 1) nodes more for each leaf
/// of the handed tree that doesn't close with the target, where `most_decisions` are the sites and, where
/// some site has a capacity, the lanes besides; such a leaf is told by a `false` of `held`. With a budget
/// of so many nodes for each of these leaves the answer is no bracket: a plan is shown to be optimal, or
/// the instance to have none.
pub fn searches_end()
    ensures small { (I : Instance) (target cost : Option ℕ) (old new : Boxes) (held : List Bool) →
        AreHeld I old target held → IsGrownFrom I target cost old new →
        nodes_of new + 2 * length (filter not held) ≤ nodes_of old + length (filter not held) * 2 ^ (most_decisions I + 1) }
    ensures decided { (I : Instance) (old : Boxes) (handed : Option Chosen) (budget : ℕ) (held : List Bool) (a : Reply) →
        AreHeld I old (cost_in I handed) held → IsAnswerTo I old handed budget a →
        length (filter not held) * 2 ^ (most_decisions I + 1) ≤ budget → IsDecided a }
{}

/// What an answer claims of the instance and of its plan holds, whatever the search started from.
pub fn answers_hold()
    ensures { (I : Instance) (old : Boxes) (handed : Option Chosen) (budget : ℕ) (a : Reply) →
        IsValid I → IsAnswerTo I old handed budget a → ClaimHolds I (claim_in I a) (plan_in a) }
{}
