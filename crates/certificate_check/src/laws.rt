//! What a verdict means, by the definitions alone. The law is the contract of a function that does nothing.
ghost use Rattle.std.specs.Prelude.{◌≡◌, ℕ, ◌≤◌, List, length, Option};
ghost use Rattle.location_terms.specs.Instance.{Instance, IsValid};
ghost use Rattle.location_terms.specs.Plan.{Plan};
ghost use Rattle.location_terms.specs.Optimal.{ClaimHolds};
ghost use Rattle.location_terms.specs.Certificate.{Certificate, IsAccepted};
ghost use Rattle.location_terms.specs.declared.claim.Claim.{Claim};
ghost use Rattle.certificate_lines.specs.Text.{certificate_text};
ghost use Rattle.certificate_lines.specs.Follow.{HasSmallCosts};
ghost use Rattle.certificate_lines.specs.declared.limits.TheConstants.{MAX_CERTIFICATE_BYTES};
ghost use Rattle.certificate_check.specs.Verdict.{Answer, IsAnswer, IsDecided, IsVerdict};
ghost use Rattle.certificate_check.specs.declared.verdict.Verdict.TheVariants.{Yes};

/// Of a valid instance, any bytes have a verdict and only one, and a file has one answer within a limit.
/// The bytes to which the verdict is yes are the text of an accepted certificate of the claim, and the
/// claim holds. The other way, the verdict on the text of an accepted certificate is yes to its claim,
/// where each cost of the claim is at most `MAX_COST`. The same is so of the answer within
/// `MAX_CERTIFICATE_BYTES`, of texts that are no longer.
pub fn verdicts()
    ensures some { (I : Instance) (bytes : List ℕ) →
        IsValid I → (answer : Answer) × IsVerdict I bytes answer }
    ensures some_within { (limit : ℕ) (I : Instance) (bytes : List ℕ) →
        IsValid I → (answer : Answer) × IsAnswer limit I bytes answer }
    ensures decided { (limit : ℕ) (I : Instance) (bytes : List ℕ) (answer : Answer) →
        IsAnswer limit I bytes answer → IsDecided limit bytes answer }
    ensures one { (I : Instance) (bytes : List ℕ) (a b : Answer) →
        IsVerdict I bytes a → IsVerdict I bytes b → a ≡ b }
    ensures one_within { (limit : ℕ) (I : Instance) (bytes : List ℕ) (a b : Answer) →
        IsAnswer limit I bytes a → IsAnswer limit I bytes b → a ≡ b }
    ensures yes { (I : Instance) (bytes : List ℕ) (claim : Claim) →
        IsValid I → IsVerdict I bytes (Ok (Yes claim)) →
        (cert : Certificate) × (bytes ≡ certificate_text I cert) × IsAccepted I cert × (cert.claim ≡ claim) }
    ensures yes_within { (I : Instance) (bytes : List ℕ) (claim : Claim) →
        IsValid I → IsAnswer MAX_CERTIFICATE_BYTES I bytes (Ok (Yes claim)) →
        (cert : Certificate) × (bytes ≡ certificate_text I cert) × IsAccepted I cert × (cert.claim ≡ claim)
        × HasSmallCosts claim × (length bytes ≤ MAX_CERTIFICATE_BYTES) }
    ensures holds { (I : Instance) (bytes : List ℕ) (claim : Claim) →
        IsValid I → IsVerdict I bytes (Ok (Yes claim)) →
        (plan : Option Plan) × ClaimHolds I claim plan }
    ensures accepted { (I : Instance) (cert : Certificate) →
        IsValid I → IsAccepted I cert → HasSmallCosts cert.claim →
        IsVerdict I (certificate_text I cert) (Ok (Yes cert.claim)) }
    ensures accepted_within { (I : Instance) (cert : Certificate) →
        IsValid I → IsAccepted I cert → HasSmallCosts cert.claim →
        length (certificate_text I cert) ≤ MAX_CERTIFICATE_BYTES →
        IsAnswer MAX_CERTIFICATE_BYTES I (certificate_text I cert) (Ok (Yes cert.claim)) }
{}
