ghost use Rattle.std.specs.Prelude.{◌≡◌, ◌↔◌, IsTrue};
ghost use Rattle.vx_scheme.specs.declared.domain.Domain.TheVariants as domain_of;

/// Which versions a translation speaks of.
#[derive(Debug, Clone, Copy, PartialEq, Eq)]
pub enum Domain {
    /// Every version of the scheme.
    All,
    /// The releases of the scheme.
    Releases,
}

impl Domain {
    /// Whether it is `Releases`. It takes no memory.
    pub fn is_releases(self) -> bool
        ensures { IsTrue result ↔ (self ≡ domain_of.Releases) }
    {
        match self {
            Domain::Releases => true,
            Domain::All => false,
        }
    }
}
