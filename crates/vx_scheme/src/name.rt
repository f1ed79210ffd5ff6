ghost use Rattle.std.specs.Prelude.{◌≡◌, ◌≢◌, MatchOption};
ghost use Rattle.vx_scheme.specs.Names.{scheme_named, text_of};
ghost use Rattle.vx_scheme.specs.declared.name.SchemeName.{SchemeName};

/// A version scheme.
#[derive(Debug, Clone, Copy, PartialEq, Eq)]
pub enum SchemeName {
    /// npm: Semantic Versioning 2.0.
    Npm,
    /// PyPI: PEP 440.
    Pypi,
    /// Maven.
    Maven,
    /// RubyGems.
    Gem,
    /// Debian.
    Deb,
    /// RPM.
    Rpm,
    /// NuGet.
    Nuget,
    /// Cargo.
    Cargo,
}

impl SchemeName {
    /// The name in package URLs and in VERS texts, in lower case.
    pub fn name_text(self) -> &'static str
        ensures { result.now ≡ text_of self }
    {
        match self {
            SchemeName::Npm => "npm",
            SchemeName::Pypi => "pypi",
            SchemeName::Maven => "maven",
            SchemeName::Gem => "gem",
            SchemeName::Deb => "deb",
            SchemeName::Rpm => "rpm",
            SchemeName::Nuget => "nuget",
            SchemeName::Cargo => "cargo",
        }
    }
    /// The scheme of this name, in lower case. `None` comes exactly where the text is none of the eight. It takes no
    /// memory.
    pub fn named(text: &str) -> Option<SchemeName>
        ensures named { result ≡ scheme_named text.now }
        ensures by_name { MatchOption result ((name : SchemeName) → text_of name ≢ text.now) (λ name. text_of name ≡ text.now) }
    {
        match text {
            "npm" => Some(SchemeName::Npm),
            "pypi" => Some(SchemeName::Pypi),
            "maven" => Some(SchemeName::Maven),
            "gem" => Some(SchemeName::Gem),
            "deb" => Some(SchemeName::Deb),
            "rpm" => Some(SchemeName::Rpm),
            "nuget" => Some(SchemeName::Nuget),
            "cargo" => Some(SchemeName::Cargo),
            _ => None,
        }
    }
}
