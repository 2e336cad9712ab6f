//! How long the text of a certificate is. The law is the contract of a function that does nothing.
ghost use Rattle.std.specs.Prelude.{◌+◌, ◌*◌, ◌≤◌, length};
ghost use Rattle.location_terms.specs.Instance.{Instance, IsValid};
ghost use Rattle.location_terms.specs.Tree.{Tree, IsTree, StandsOn, nodes_of};
ghost use Rattle.location_terms.specs.Certificate.{Certificate};
ghost use Rattle.certificate_lines.specs.Follow.{HasText};
ghost use Rattle.certificate_lines.specs.Length.{HasFewNodes, DecidesOnce};
ghost use Rattle.certificate_lines.specs.Text.{certificate_text};

use crate::MAX_CERTIFICATE_BYTES;
use branch_tree::MAX_TREE_NUMBERS;

/// The text of a certificate on a tree of few nodes is within `MAX_CERTIFICATE_BYTES`. Of one site and
/// one customer a tree has few nodes where no path of it decides a thing twice, and else where their
/// product with the sites and customers counted together is within `MAX_TREE_NUMBERS`.
pub fn texts_fit()
    ensures within { (I : Instance) (cert : Certificate) → IsValid I → HasText I cert →
        HasFewNodes I cert.tree → length (certificate_text I cert) ≤ MAX_CERTIFICATE_BYTES }
    ensures few { (I : Instance) (t : Tree) → IsValid I → IsTree t → StandsOn t I → DecidesOnce t →
        nodes_of t * (length I.sites + length I.customers) ≤ MAX_TREE_NUMBERS → HasFewNodes I t }
{}
