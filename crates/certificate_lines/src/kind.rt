ghost use Rattle.std.specs.Prelude.{◌≡◌};
ghost use Rattle.certificate_lines.specs.Kind.{cert_kind_name};

use thiserror::Error;

/// What is wrong with a line of a certificate's text: the first of these that is the case, in this
/// order.
#[derive(Clone, Copy, Debug, PartialEq, Eq, Error)]
pub enum CertKind {
    /// The text ends before the line feed of the line that is due.
    #[error("the text ends too soon")]
    Ended,
    /// The words of the line are none that are due.
    #[error("the words are not those of a line that is due")]
    BadLine,
    /// The words are due, but not in the one spelling of the text.
    #[error("the line is not spelled in the one way")]
    NotCanonical,
    /// A number is outside its limits, a site without a capacity has a price of it, or whole knapsacks
    /// aren't small.
    #[error("a number is outside its limits")]
    OutOfRange,
    /// The numbers of sites and customers are not those of the instance.
    #[error("the sizes are not those of the instance")]
    WrongSizes,
    /// The id of a site or a customer is not in the instance.
    #[error("an id is not in the instance")]
    UnknownId,
    /// The sites that must be open, or must be closed, are not those of the instance.
    #[error("the statuses are not those of the instance")]
    WrongStatus,
    /// Bytes follow the last line.
    #[error("bytes follow the last line")]
    Trailing,
}

impl CertKind {
    /// The name of the kind as the checker prints it, which is that of the variant.
    pub fn name(self) -> &'static str
        ensures { result.now ≡ cert_kind_name self }
    {
        match self {
            CertKind::Ended => "Ended",
            CertKind::BadLine => "BadLine",
            CertKind::NotCanonical => "NotCanonical",
            CertKind::OutOfRange => "OutOfRange",
            CertKind::WrongSizes => "WrongSizes",
            CertKind::UnknownId => "UnknownId",
            CertKind::WrongStatus => "WrongStatus",
            CertKind::Trailing => "Trailing",
        }
    }
}
