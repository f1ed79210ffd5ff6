ghost use Rattle.std.specs.Prelude.{◌≡◌, IfOk, IfErr};
ghost use Rattle.vx_vers.specs.Heads.{HeadIs, NoHead};
ghost use Rattle.vx_translate.specs.Names.{IsCanon, IsSameList, IsCanonRefused, IsFromVers, IsSameSet, IsFromVersRefused, IsHas, IsHasRefused, IsCheck, IsCheckRefused};
ghost use Rattle.vx_translate.specs.declared.refusal.Refusal.TheVariants as refusal_of;
ghost use Rattle.vx_translate.specs.declared.refusal.VersPart.TheVariants.{Head};

use crate::backward::translate_back;
use crate::canonical::canonical;
use crate::check_refusal::CheckRefusal;
use crate::checking::check_candidate;
use crate::domains::chosen_domain;
use crate::having::has_version;
use crate::refusal::{Refusal, VersPart};
use crate::table::of_scheme;
use std::alloc::Global;
use vx_scheme::{Domain, SchemeName, Text};
use vx_vers::head;

/// The scheme that the head of a VERS text names.
fn head_scheme(text: &str) -> Result<SchemeName, Refusal>
    ensures ok { IfOk result (HeadIs text.now) }
    ensures err { IfErr result (λ refusal. NoHead text.now × (refusal ≡ refusal_of.BadVers Head 0)) }
{
    match head(text) {
        Some(name) => Ok(name),
        None => Err(Refusal::BadVers(VersPart::Head, 0)),
    }
}

/// The range text of a VERS text, in a domain: the default of the scheme that the head names where none is named.
/// `BadVers` of the head comes first, exactly where it names no scheme. The other refusals are those of the first that
/// stands in the text: `DomainNotOffered`, the other `BadVers`, `NoNative`.
pub fn from_vers(alloc: Global, domain: Option<Domain>, text: &str) -> Result<Text, Refusal>
    ensures ok { IfOk result (IsFromVers domain text.now) }
    ensures members { IfOk result (IsSameSet domain text.now) }
    ensures err { IfErr result (IsFromVersRefused domain text.now) }
{
    let name = head_scheme(text)?;
    let domain = chosen_domain(domain, name);
    of_scheme!(name, translate_back(alloc, domain, text))
}

/// The canonical text of a VERS text: its simplified list, printed. `BadVers` of the head comes first, exactly where it
/// names no scheme, then the other `BadVers`.
pub fn canon(alloc: Global, text: &str) -> Result<Text, Refusal>
    ensures ok { IfOk result (IsCanon text.now) }
    ensures same { IfOk result (IsSameList text.now) }
    ensures err { IfErr result (IsCanonRefused text.now) }
{
    let name = head_scheme(text)?;
    of_scheme!(name, canonical(alloc, text))
}

/// Whether a VERS text holds a version of its scheme: what the list means there, as it is read. `BadVers` of the head
/// comes first, exactly where it names no scheme, then the other `BadVers`, then `BadVersion` where the scheme does not
/// read the version.
pub fn has(alloc: Global, text: &str, version: &str) -> Result<bool, Refusal>
    ensures ok { IfOk result (IsHas text.now version.now) }
    ensures err { IfErr result (IsHasRefused text.now version.now) }
{
    let name = head_scheme(text)?;
    of_scheme!(name, has_version(alloc, text, version))
}

/// Whether a VERS text holds the version of a package URL: what the list means, as it is read, at the version that the
/// candidate spells by the scheme that both name. `Vers` of a `BadVers` comes first, as in `has`; then
/// `BadPurl`, then `NoVersion` where the package URL has none, then `NoScheme` where its type is not the scheme's name,
/// then `Vers` of `BadVersion` where the scheme does not read the candidate.
pub fn check(alloc: Global, purl: &str, vers: &str) -> Result<bool, CheckRefusal>
    ensures ok { IfOk result (IsCheck purl.now vers.now) }
    ensures err { IfErr result (IsCheckRefused purl.now vers.now) }
{
    let name = match head_scheme(vers) {
        Ok(name) => name,
        Err(refusal) => return Err(CheckRefusal::from(refusal)),
    };
    of_scheme!(name, check_candidate(alloc, purl, vers))
}
