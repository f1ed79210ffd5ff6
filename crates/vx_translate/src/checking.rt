ghost use Rattle.std.specs.Prelude.{◌≡◌, ◌≢◌, ◌↔◌, IsTrue, IfOk, IfErr};
ghost use Rattle.vx_scheme.specs.Names.{text_of};
ghost use Rattle.vx_translate.specs.declared.check_refusal.CheckRefusal.TheVariants as refusal_of;
ghost use Rattle.vx_translate.specs.Checking.{HasCandidate, LacksCandidate, TellsCheck, RefusesCheck};

use crate::check_refusal::CheckRefusal;
use crate::having::is_held;
use crate::vers_texts::read_list;
use purl_core::{Purl, read};
use purl_types::candidate;
use std::alloc::Global;
use vx_scheme::{Scheme, SchemeName, Text};

/// Whether a VERS text of the scheme holds the version of a package URL.
pub(crate) fn check_candidate<S: Scheme>(
    alloc: Global,
    purl: &str,
    vers: &str,
) -> Result<bool, CheckRefusal>
    ensures ok { IfOk result (TellsCheck S.Scheme.own purl.now vers.now) }
    ensures err { IfErr result (λ refusal. refusal ≢ refusal_of.NoMemory → RefusesCheck S.Scheme.own purl.now vers.now refusal) }
{
    let list = match read_list::<S>(alloc, vers) {
        Ok(list) => list,
        Err(refusal) => return Err(CheckRefusal::from(refusal)),
    };
    let version = candidate_for(alloc, purl, S::scheme())?;
    match is_held::<S>(alloc, &list, version.as_str()) {
        Ok(held) => Ok(held),
        Err(refusal) => Err(CheckRefusal::from(refusal)),
    }
}

/// The candidate that the text of a package URL gives for a scheme.
fn candidate_for(alloc: Global, purl: &str, name: SchemeName) -> Result<Text, CheckRefusal>
    ensures ok { IfOk result (HasCandidate name purl.now) }
    ensures err { IfErr result (λ refusal. refusal ≢ refusal_of.NoMemory → LacksCandidate name purl.now refusal) }
{
    let purl = match read(alloc, purl) {
        Ok(purl) => purl,
        Err(fault) => return Err(CheckRefusal::from(fault)),
    };
    let is_typed = is_of_type(&purl, name);
    let Some(version) = candidate(alloc, purl)? else {
        return Err(CheckRefusal::NoVersion);
    };
    if is_typed {
        Ok(version)
    } else {
        Err(CheckRefusal::NoScheme)
    }
}

fn is_of_type(purl: &Purl, name: SchemeName) -> bool
    ensures { IsTrue result ↔ (purl.now.kind ≡ text_of name) }
{
    purl.kind.as_str() == name.name_text()
}
