ghost use Rattle.std.specs.Prelude.{◌≡◌, ◌≢◌, ℕ, List, IfOk, IfErr};
ghost use Rattle.vx_translate.specs.declared.refusal.Refusal.TheVariants as refusal_of;
ghost use Rattle.vx_translate.specs.Having.{IsBadVersion, TellsMembership, RefusesMembership};
ghost use Rattle.vx_translate.specs.VersTexts.{SpellsVers};

use crate::refusal::Refusal;
use crate::vers_texts::read_list;
use std::alloc::Global;
use vx_scheme::{Scheme, VersionFault};
use vx_vers::Constraints;

/// Whether a VERS text holds a version of the scheme.
pub(crate) fn has_version<S: Scheme>(
    alloc: Global,
    text: &str,
    version: &str,
) -> Result<bool, Refusal>
    ensures ok { IfOk result (TellsMembership S.Scheme.own text.now version.now) }
    ensures err { IfErr result (λ refusal. refusal ≢ refusal_of.NoMemory → RefusesMembership S.Scheme.own text.now version.now refusal) }
{
    let list = read_list::<S>(alloc, text)?;
    is_held::<S>(alloc, &list, version)
}

/// Whether a list holds the version that a text spells.
pub(crate) fn is_held<S: Scheme>(
    alloc: Global,
    list: &Constraints<S>,
    version: &str,
) -> Result<bool, Refusal>
    ensures ok { IfOk result (λ held. (text : List ℕ) → SpellsVers S.Scheme.own text list.now
        → TellsMembership S.Scheme.own text version.now held) }
    ensures err { IfErr result (λ refusal. refusal ≢ refusal_of.NoMemory → (refusal ≡ refusal_of.BadVersion)
        × ((text : List ℕ) → SpellsVers S.Scheme.own text list.now → IsBadVersion S.Scheme.own text version.now)) }
{
    match S::read(alloc, version) {
        Ok(version) => Ok(list.contains(&version)),
        Err(VersionFault::NotAVersion | VersionFault::Numeral) => Err(Refusal::BadVersion),
        Err(VersionFault::NoMemory) => Err(Refusal::NoMemory),
    }
}
