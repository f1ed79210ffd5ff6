ghost use Rattle.std.specs.Prelude.{◌≡◌, ◌↔◌, ◌++◌, ℕ, List, IsTrue, IfOk, IfErr, OnOk, OnErr, ⊤};
ghost use Rattle.std.specs.Cmp.{IsTotalOrder};
ghost use Rattle.std.specs.declared.cmp.Ordering.{Ordering};
ghost use Rattle.vx_scheme.specs.Scheme.{Refuses, TextLaws};

use crate::memory::NoMemory;
use crate::name::SchemeName;
use crate::text::Text;
use crate::version_fault::VersionFault;
use std::alloc::Global;
use std::cmp::Ordering;

/// A version scheme: its versions, their order and their texts.
pub trait Scheme {
    ghost use Rattle.vx_scheme.specs.declared.name.SchemeName.{SchemeName};

    /// A version: some text spells its fields.
    type Version: Drop;

    /// The scheme's name.
    ghost name: { SchemeName };

    /// The fields are those of a version: some text spells it, with numerals of any length.
    ghost IsVersion: { Self.Version → Type 0 };

    /// The numerals are within their limits.
    ghost IsWithin: { Self.Version → Type 0 };

    /// The scheme's order.
    ghost order: { Self.Version → Self.Version → Ordering };

    /// The version is in the domain of all.
    ghost InAll: { Self.Version → Type 0 } = { λ _. ⊤ };

    /// The version is in the domain of releases.
    ghost IsRelease: { Self.Version → Type 0 };

    /// The text spells the version, with numerals of any length.
    ghost Spells: { List ℕ → Self.Version → Type 0 };

    /// The normal text of a version.
    ghost normal: { Self.Version → List ℕ };

    /// The scheme's name.
    fn scheme() -> SchemeName
        ensures { result ≡ name };

    /// The version that the text spells. `NotAVersion` comes exactly where it spells none, with numerals of any
    /// length, and `Numeral` exactly where it spells one with a numeral past its limit.
    fn read(alloc: Global, text: &str) -> Result<Self::Version, VersionFault>
        ensures ok { IfOk result (λ v. Spells text.now v × IsWithin v) }
        ensures err { IfErr result (Refuses Spells IsWithin text.now) };

    /// Appends the normal text. A refused call leaves the text as it was.
    fn write(version: &Self::Version, out: &mut Text) -> Result<(), NoMemory>
        ensures ok { OnOk result (out.new ≡ out.old ++ normal version.now) }
        ensures err { OnErr result (out.new ≡ out.old) }
        ensures version { IsVersion version.now × IsWithin version.now };

    /// How two versions compare in the scheme's order. It takes no memory.
    fn compare(a: &Self::Version, b: &Self::Version) -> Ordering
        ensures order { result ≡ order a.now b.now }
        ensures left { IsVersion a.now × IsWithin a.now }
        ensures right { IsVersion b.now × IsWithin b.now };

    /// Whether the version is in the domain of releases. It takes no memory.
    fn is_release(version: &Self::Version) -> bool
        ensures release { IsTrue result ↔ IsRelease version.now }
        ensures version { IsVersion version.now × IsWithin version.now };

    /// The same version once more.
    fn copy(alloc: Global, version: &Self::Version) -> Result<Self::Version, NoMemory>
        ensures same { IfOk result (λ copied. copied ≡ version.now) }
        ensures version { IsVersion version.now × IsWithin version.now };

    /// The order is total and transitive, and versions that compare equal compare alike with every third one.
    ghost total: { IsTotalOrder order };

    /// What texts spell, and which.
    ghost texts: { TextLaws order IsVersion IsWithin Spells normal };
}
