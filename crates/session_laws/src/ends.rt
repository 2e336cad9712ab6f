//! Solves that end with an answer, whatever was found before.
ghost use Rattle.std.specs.Prelude.{◌≡◌, ℕ, ◌+◌, ◌*◌, ◌^◌, ◌≤◌, Bool, not, List, filter, length, Option};
ghost use Rattle.location_terms.specs.Carried.{IsHanded, target_in};
ghost use Rattle.location_terms.specs.Instance.{Instance, IsValid};
ghost use Rattle.location_terms.specs.Plan.{Plan};
ghost use Rattle.location_terms.specs.Tree.{AllClose};
ghost use Rattle.tree_search.specs.Answer.{AreHeld, IsDecided, claim_in, made_in, most_decisions, tree_in};
ghost use Rattle.tree_search.specs.declared.answer.Answer.{Answer};
ghost use Rattle.whatif_session.specs.State.{SessionState, present_plan, starting_tree};
ghost use Rattle.whatif_session.specs.Step.{IsSolvedBy};
ghost use Rattle.session_laws.specs.Session.{closed_claim};

/// Where every leaf of the tree from which a solve starts closes, against the cost of the plan that the
/// search is handed or, where there is none, without a target, the solve makes no node, whatever its
/// budget is: the handed plan's cost is shown to be optimal, and without a plan the instance to have none.
pub fn closed_trees_decide()
    ensures { (I : Instance) (state : SessionState) (budget : ℕ) (handed : Option Plan) (answer : Answer) →
        IsValid I → IsHanded I (present_plan state) handed → AllClose I (starting_tree state I) (target_in I handed) →
        IsSolvedBy state I budget answer →
        IsDecided answer × (claim_in I answer ≡ closed_claim I handed) × (tree_in answer ≡ starting_tree state I) × (made_in answer ≡ 0) }
{}

/// A solve comes to an end where its budget has 2 ^ (decisions + 1) nodes for each leaf of the tree from
/// which it starts that doesn't close with what the search is handed; such a leaf is told by a `false` of
/// `held`. `most_decisions` are the sites and, where some site has a capacity, the lanes besides.
pub fn solves_end()
    ensures { (I : Instance) (state : SessionState) (budget : ℕ) (handed : Option Plan) (held : List Bool) (answer : Answer) →
        IsHanded I (present_plan state) handed → AreHeld I (starting_tree state I) (target_in I handed) held →
        length (filter not held) * 2 ^ (most_decisions I + 1) ≤ budget →
        IsSolvedBy state I budget answer → IsDecided answer }
{}
