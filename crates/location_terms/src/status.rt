//! What is settled about a site before any plan is made.
ghost use Rattle.std.specs.Prelude.{◌≡◌};
ghost use Rattle.location_terms.specs.Box.{must_open, must_close};

/// What is settled about a site before any plan is made.
#[derive(Clone, Copy, Debug, PartialEq, Eq)]
pub enum SiteStatus {
    /// A plan may open it or leave it closed.
    Free,
    /// Every feasible plan opens it, as where a lease runs on.
    MustOpen,
    /// No feasible plan opens it.
    MustClose,
}

impl SiteStatus {
    /// Whether every feasible plan opens the site.
    pub fn must_open(self) -> bool
        ensures { result ≡ must_open self }
    {
        match self {
            SiteStatus::MustOpen => true,
            SiteStatus::Free | SiteStatus::MustClose => false,
        }
    }

    /// Whether no feasible plan opens the site.
    pub fn must_close(self) -> bool
        ensures { result ≡ must_close self }
    {
        match self {
            SiteStatus::MustClose => true,
            SiteStatus::Free | SiteStatus::MustOpen => false,
        }
    }
}
