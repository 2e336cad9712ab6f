//! A certificate has one text, and a text one certificate. The law is the contract of a function that
//! does nothing.
ghost use Rattle.std.specs.Prelude.{◌≡◌, ℕ, ◌≤◌, length};
ghost use Rattle.location_terms.specs.Instance.{Instance, IsValid};
ghost use Rattle.location_terms.specs.Certificate.{Certificate};
ghost use Rattle.certificate_lines.specs.declared.kind.CertKind.{CertKind};
ghost use Rattle.certificate_lines.specs.Text.{certificate_text};
ghost use Rattle.certificate_lines.specs.Follow.{HasText};
ghost use Rattle.certificate_text.specs.Form.{HasFault};

/// Two certificates with one text are the same, and the text of a certificate has no fault of form.
pub fn one_text()
    ensures one { (I : Instance) (a b : Certificate) → IsValid I → HasText I a → HasText I b →
        certificate_text I a ≡ certificate_text I b → a ≡ b }
    ensures faultless { (I : Instance) (cert : Certificate) (limit : ℕ) (kind : CertKind) (line : ℕ) → IsValid I → HasText I cert →
        length (certificate_text I cert) ≤ limit → HasFault limit I (certificate_text I cert) kind line → ⊥ }
{}
