ghost use Rattle.std.specs.Prelude.{◌≡◌};
ghost use Rattle.certificate_text.specs.Cert.{certificate_of, certificate_lent};

use branch_tree::Tree;
use location_terms::Claim;
use plan_meaning::Plan;

/// A claim with what shows it: a plan where the claim has a cost, and a tree of boxes with duals.
#[derive(Debug, Drop)]
pub struct Certificate {
    pub claim: Claim,
    pub plan: Option<Plan>,
    pub tree: Tree,
}

/// The same of parts that are lent, for whoever keeps the plan and the tree elsewhere.
#[derive(Clone, Copy)]
pub struct CertificateRef<'a> {
    pub claim: Claim,
    pub plan: Option<&'a Plan>,
    pub tree: &'a Tree,
}

impl Certificate {
    /// The certificate, lent.
    pub fn lent(&self) -> CertificateRef<'_>
        ensures { certificate_lent result ≡ certificate_of self.now }
    {
        CertificateRef {
            claim: self.claim,
            plan: self.plan.as_ref(),
            tree: &self.tree,
        }
    }
}
