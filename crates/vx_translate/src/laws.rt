//! Laws of the definitions, each as the contract of a function that does nothing: what a text is answered is one answer.
//! Want of memory is no refusal of a text.

ghost use Rattle.std.specs.Prelude.{◌≡◌, ◌≢◌, ℕ, Bool, List, Option};
ghost use Rattle.std.specs.Str.{IsUtf8};
ghost use Rattle.vx_scheme.specs.declared.name.SchemeName.{SchemeName};
ghost use Rattle.vx_scheme.specs.declared.domain.Domain.{Domain};
ghost use Rattle.vx_vers.specs.Again.{IsWritable};
ghost use Rattle.vx_translate.specs.Backward.{TranslatesBack, RefusesBack};
ghost use Rattle.vx_translate.specs.Canonical.{PrintsSimplified, MeansSame, RefusesCanonical};
ghost use Rattle.vx_translate.specs.Checking.{TellsCheck, RefusesCheck};
ghost use Rattle.vx_translate.specs.Forward.{Translates, RefusesForward};
ghost use Rattle.vx_translate.specs.Having.{TellsMembership, RefusesMembership};
ghost use Rattle.vx_translate.specs.Names.{IsTranslated, IsRefused, IsFromVers, IsFromVersRefused, IsCanon, IsCanonRefused, IsHas, IsHasRefused, IsCheck, IsCheckRefused};
ghost use Rattle.vx_translate.specs.Steps.Rows.{IsRowBack, IsRowBackRefused, IsRowCanon, IsRowCanonRefused, IsRowCheck, IsRowCheckRefused, IsRowHas, IsRowHasRefused};
ghost use Rattle.vx_translate.specs.declared.check_refusal.CheckRefusal.{CheckRefusal};
ghost use Rattle.vx_translate.specs.declared.check_refusal.CheckRefusal.TheVariants as check_refusal_of;
ghost use Rattle.vx_translate.specs.declared.refusal.Refusal.{Refusal};
ghost use Rattle.vx_translate.specs.declared.refusal.Refusal.TheVariants as refusal_of;

use crate::table::of_scheme;
use vx_scheme::{Native, Scheme, SchemeName};

// ---- over any range language

/// In a domain a range text has one translation or one refusal, and never both.
pub fn one_translation<N: Native>()
    ensures text { (domain : Domain) (range a b : List ℕ) →
        Translates N.Scheme N.Native.own domain range a → Translates N.Scheme N.Native.own domain range b → a ≡ b }
    ensures refusal { (domain : Domain) (range : List ℕ) (a b : Refusal) → a ≢ refusal_of.NoMemory → b ≢ refusal_of.NoMemory →
        RefusesForward N.Scheme N.Native.own domain range a → RefusesForward N.Scheme N.Native.own domain range b → a ≡ b }
    ensures apart { (domain : Domain) (range text : List ℕ) (refusal : Refusal) → refusal ≢ refusal_of.NoMemory →
        Translates N.Scheme N.Native.own domain range text → ¬ (RefusesForward N.Scheme N.Native.own domain range refusal) }
{}

/// In a domain a VERS text has one range text or one refusal, and never both.
pub fn one_translation_back<N: Native>()
    ensures text { (domain : Domain) (vers a b : List ℕ) →
        TranslatesBack N.Scheme N.Native.own domain vers a → TranslatesBack N.Scheme N.Native.own domain vers b → a ≡ b }
    ensures refusal { (domain : Domain) (vers : List ℕ) (a b : Refusal) → a ≢ refusal_of.NoMemory → b ≢ refusal_of.NoMemory →
        RefusesBack N.Scheme N.Native.own domain vers a → RefusesBack N.Scheme N.Native.own domain vers b → a ≡ b }
    ensures apart { (domain : Domain) (vers text : List ℕ) (refusal : Refusal) → refusal ≢ refusal_of.NoMemory →
        TranslatesBack N.Scheme N.Native.own domain vers text → ¬ (RefusesBack N.Scheme N.Native.own domain vers refusal) }
{}

/// A VERS text has one canonical text or one refusal, and never both.
pub fn one_canonical<S: Scheme>()
    ensures text { (vers a b : List ℕ) → PrintsSimplified S.Scheme.own vers a → PrintsSimplified S.Scheme.own vers b → a ≡ b }
    ensures refusal { (vers : List ℕ) (a b : Refusal) → a ≢ refusal_of.NoMemory → b ≢ refusal_of.NoMemory →
        RefusesCanonical S.Scheme.own vers a → RefusesCanonical S.Scheme.own vers b → a ≡ b }
    ensures apart { (vers text : List ℕ) (refusal : Refusal) → refusal ≢ refusal_of.NoMemory →
        PrintsSimplified S.Scheme.own vers text → ¬ (RefusesCanonical S.Scheme.own vers refusal) }
{}

/// Whether a VERS text holds a version has one answer or one refusal, and never both.
pub fn one_membership<S: Scheme>()
    ensures decision { (vers version : List ℕ) (a b : Bool) →
        TellsMembership S.Scheme.own vers version a → TellsMembership S.Scheme.own vers version b → a ≡ b }
    ensures refusal { (vers version : List ℕ) (a b : Refusal) → a ≢ refusal_of.NoMemory → b ≢ refusal_of.NoMemory →
        RefusesMembership S.Scheme.own vers version a → RefusesMembership S.Scheme.own vers version b → a ≡ b }
    ensures apart { (vers version : List ℕ) (decision : Bool) (refusal : Refusal) → refusal ≢ refusal_of.NoMemory →
        TellsMembership S.Scheme.own vers version decision → ¬ (RefusesMembership S.Scheme.own vers version refusal) }
{}

/// Whether a VERS text holds the version of a package URL has one answer or one refusal, and never both.
pub fn one_checking<S: Scheme>()
    ensures decision { (purl vers : List ℕ) (a b : Bool) →
        TellsCheck S.Scheme.own purl vers a → TellsCheck S.Scheme.own purl vers b → a ≡ b }
    ensures refusal { (purl vers : List ℕ) (a b : CheckRefusal) → a ≢ check_refusal_of.NoMemory → b ≢ check_refusal_of.NoMemory →
        RefusesCheck S.Scheme.own purl vers a → RefusesCheck S.Scheme.own purl vers b → a ≡ b }
    ensures apart { (purl vers : List ℕ) (decision : Bool) (refusal : CheckRefusal) → refusal ≢ check_refusal_of.NoMemory →
        TellsCheck S.Scheme.own purl vers decision → ¬ (RefusesCheck S.Scheme.own purl vers refusal) }
{}

/// Where each version that a text spells within the limits can be written, the canonical text of a canonical text is that
/// text, and means the same.
pub fn canonical_again<S: Scheme>()
    ensures text { ((text : List ℕ) (v : S.Version) → IsUtf8 text → S.Spells text v → S.IsWithin v → IsWritable S.IsVersion S.IsWithin S.normal v) →
        (vers text : List ℕ) → PrintsSimplified S.Scheme.own vers text → PrintsSimplified S.Scheme.own text text }
    ensures same { ((text : List ℕ) (v : S.Version) → IsUtf8 text → S.Spells text v → S.IsWithin v → IsWritable S.IsVersion S.IsWithin S.normal v) →
        (vers text : List ℕ) → PrintsSimplified S.Scheme.own vers text → MeansSame S.Scheme.own text text }
{}

// ---- by the row of a scheme

fn one_to_vers_of(name: SchemeName)
    ensures text { (domain : Domain) (range a b : List ℕ) → IsTranslated name domain range a → IsTranslated name domain range b → a ≡ b }
    ensures refusal { (domain : Domain) (range : List ℕ) (a b : Refusal) → a ≢ refusal_of.NoMemory → b ≢ refusal_of.NoMemory →
        IsRefused name domain range a → IsRefused name domain range b → a ≡ b }
    ensures apart { (domain : Domain) (range text : List ℕ) (refusal : Refusal) → refusal ≢ refusal_of.NoMemory →
        IsTranslated name domain range text → ¬ (IsRefused name domain range refusal) }
{
    of_scheme!(name, one_translation())
}

fn one_from_vers_of(name: SchemeName)
    ensures text { (domain : Domain) (vers a b : List ℕ) → IsRowBack domain vers a name → IsRowBack domain vers b name → a ≡ b }
    ensures refusal { (domain : Domain) (vers : List ℕ) (a b : Refusal) → a ≢ refusal_of.NoMemory → b ≢ refusal_of.NoMemory →
        IsRowBackRefused domain vers a name → IsRowBackRefused domain vers b name → a ≡ b }
    ensures apart { (domain : Domain) (vers text : List ℕ) (refusal : Refusal) → refusal ≢ refusal_of.NoMemory →
        IsRowBack domain vers text name → ¬ (IsRowBackRefused domain vers refusal name) }
{
    of_scheme!(name, one_translation_back())
}

fn one_canon_of(name: SchemeName)
    ensures text { (vers a b : List ℕ) → IsRowCanon vers a name → IsRowCanon vers b name → a ≡ b }
    ensures refusal { (vers : List ℕ) (a b : Refusal) → a ≢ refusal_of.NoMemory → b ≢ refusal_of.NoMemory →
        IsRowCanonRefused vers a name → IsRowCanonRefused vers b name → a ≡ b }
    ensures apart { (vers text : List ℕ) (refusal : Refusal) → refusal ≢ refusal_of.NoMemory →
        IsRowCanon vers text name → ¬ (IsRowCanonRefused vers refusal name) }
{
    of_scheme!(name, one_canonical())
}

fn one_has_of(name: SchemeName)
    ensures decision { (vers version : List ℕ) (a b : Bool) → IsRowHas vers version a name → IsRowHas vers version b name → a ≡ b }
    ensures refusal { (vers version : List ℕ) (a b : Refusal) → a ≢ refusal_of.NoMemory → b ≢ refusal_of.NoMemory →
        IsRowHasRefused vers version a name → IsRowHasRefused vers version b name → a ≡ b }
    ensures apart { (vers version : List ℕ) (decision : Bool) (refusal : Refusal) → refusal ≢ refusal_of.NoMemory →
        IsRowHas vers version decision name → ¬ (IsRowHasRefused vers version refusal name) }
{
    of_scheme!(name, one_membership())
}

fn one_check_of(name: SchemeName)
    ensures decision { (purl vers : List ℕ) (a b : Bool) → IsRowCheck purl vers a name → IsRowCheck purl vers b name → a ≡ b }
    ensures refusal { (purl vers : List ℕ) (a b : CheckRefusal) → a ≢ check_refusal_of.NoMemory → b ≢ check_refusal_of.NoMemory →
        IsRowCheckRefused purl vers a name → IsRowCheckRefused purl vers b name → a ≡ b }
    ensures apart { (purl vers : List ℕ) (decision : Bool) (refusal : CheckRefusal) → refusal ≢ check_refusal_of.NoMemory →
        IsRowCheck purl vers decision name → ¬ (IsRowCheckRefused purl vers refusal name) }
{
    of_scheme!(name, one_checking())
}

// The law of the row of each scheme.
macro_rules! of_each_scheme {
    ($law:ident) => {
        $law(SchemeName::Npm);
        $law(SchemeName::Pypi);
        $law(SchemeName::Maven);
        $law(SchemeName::Gem);
        $law(SchemeName::Deb);
        $law(SchemeName::Rpm);
        $law(SchemeName::Nuget);
        $law(SchemeName::Cargo)
    };
}

// ---- by name

/// In a domain a range text of the named scheme has one translation or one refusal, and never both.
pub fn one_to_vers()
    ensures text { (name : SchemeName) (domain : Domain) (range a b : List ℕ) →
        IsTranslated name domain range a → IsTranslated name domain range b → a ≡ b }
    ensures refusal { (name : SchemeName) (domain : Domain) (range : List ℕ) (a b : Refusal) → a ≢ refusal_of.NoMemory → b ≢ refusal_of.NoMemory →
        IsRefused name domain range a → IsRefused name domain range b → a ≡ b }
    ensures apart { (name : SchemeName) (domain : Domain) (range text : List ℕ) (refusal : Refusal) → refusal ≢ refusal_of.NoMemory →
        IsTranslated name domain range text → ¬ (IsRefused name domain range refusal) }
{
    of_each_scheme!(one_to_vers_of);
}

/// In a domain, or in the default of its scheme, a VERS text has one range text or one refusal, and never both.
pub fn one_from_vers()
    ensures text { (domain : Option Domain) (vers a b : List ℕ) → IsFromVers domain vers a → IsFromVers domain vers b → a ≡ b }
    ensures refusal { (domain : Option Domain) (vers : List ℕ) (a b : Refusal) → a ≢ refusal_of.NoMemory → b ≢ refusal_of.NoMemory →
        IsFromVersRefused domain vers a → IsFromVersRefused domain vers b → a ≡ b }
    ensures apart { (domain : Option Domain) (vers text : List ℕ) (refusal : Refusal) → refusal ≢ refusal_of.NoMemory →
        IsFromVers domain vers text → ¬ (IsFromVersRefused domain vers refusal) }
{
    of_each_scheme!(one_from_vers_of);
}

/// A VERS text has one canonical text or one refusal, and never both.
pub fn one_canon()
    ensures text { (vers a b : List ℕ) → IsCanon vers a → IsCanon vers b → a ≡ b }
    ensures refusal { (vers : List ℕ) (a b : Refusal) → a ≢ refusal_of.NoMemory → b ≢ refusal_of.NoMemory →
        IsCanonRefused vers a → IsCanonRefused vers b → a ≡ b }
    ensures apart { (vers text : List ℕ) (refusal : Refusal) → refusal ≢ refusal_of.NoMemory → IsCanon vers text → ¬ (IsCanonRefused vers refusal) }
{
    of_each_scheme!(one_canon_of);
}

/// Whether a VERS text holds a version has one answer or one refusal, and never both.
pub fn one_has()
    ensures decision { (vers version : List ℕ) (a b : Bool) → IsHas vers version a → IsHas vers version b → a ≡ b }
    ensures refusal { (vers version : List ℕ) (a b : Refusal) → a ≢ refusal_of.NoMemory → b ≢ refusal_of.NoMemory →
        IsHasRefused vers version a → IsHasRefused vers version b → a ≡ b }
    ensures apart { (vers version : List ℕ) (decision : Bool) (refusal : Refusal) → refusal ≢ refusal_of.NoMemory →
        IsHas vers version decision → ¬ (IsHasRefused vers version refusal) }
{
    of_each_scheme!(one_has_of);
}

/// Whether a VERS text holds the version of a package URL has one answer or one refusal, and never both.
pub fn one_check()
    ensures decision { (purl vers : List ℕ) (a b : Bool) → IsCheck purl vers a → IsCheck purl vers b → a ≡ b }
    ensures refusal { (purl vers : List ℕ) (a b : CheckRefusal) → a ≢ check_refusal_of.NoMemory → b ≢ check_refusal_of.NoMemory →
        IsCheckRefused purl vers a → IsCheckRefused purl vers b → a ≡ b }
    ensures apart { (purl vers : List ℕ) (decision : Bool) (refusal : CheckRefusal) → refusal ≢ check_refusal_of.NoMemory →
        IsCheck purl vers decision → ¬ (IsCheckRefused purl vers refusal) }
{
    of_each_scheme!(one_check_of);
}
