//! The ids of sites and customers. A clause sees an id as its number.
ghost use Rattle.std.specs.Prelude.{◌≡◌};

use std::marker::Model;

/// The id of a site, which it keeps while other sites come and go.
#[derive(Clone, Copy, Debug, PartialEq, Eq, PartialOrd, Ord)]
pub struct SiteId(u32);

impl Model for SiteId {
    ghost use Rattle.std.specs.Prelude.{ℕ};

    ghost Value = { ℕ };

    ghost view = { λ id. id.0 };

    ghost inverse = { λ n. record { 0 = n } };
}

impl SiteId {
    /// The id of this number.
    pub fn new(number: u32) -> Self
        ensures { result ≡ number }
    {
        SiteId(number)
    }

    /// The number of this id.
    pub fn number(self) -> u32
        ensures { result ≡ self }
    {
        self.0
    }
}

/// The id of a customer, which it keeps while other customers come and go.
#[derive(Clone, Copy, Debug, PartialEq, Eq, PartialOrd, Ord)]
pub struct CustId(u32);

impl Model for CustId {
    ghost use Rattle.std.specs.Prelude.{ℕ};

    ghost Value = { ℕ };

    ghost view = { λ id. id.0 };

    ghost inverse = { λ n. record { 0 = n } };
}

impl CustId {
    /// The id of this number.
    pub fn new(number: u32) -> Self
        ensures { result ≡ number }
    {
        CustId(number)
    }

    /// The number of this id.
    pub fn number(self) -> u32
        ensures { result ≡ self }
    {
        self.0
    }
}
