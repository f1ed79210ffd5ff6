ghost use Rattle.std.specs.Prelude.{◌≢◌, IfOk, IfErr};
ghost use Rattle.vx_translate.specs.declared.refusal.Refusal.TheVariants as refusal_of;
ghost use Rattle.vx_translate.specs.VersTexts.{SpellsVers, IsBadVers};

use crate::refusal::Refusal;
use std::alloc::Global;
use vx_scheme::Scheme;
use vx_vers::{Constraints, read};

/// The list that a VERS text of the scheme spells.
pub(crate) fn read_list<S: Scheme>(alloc: Global, text: &str) -> Result<Constraints<S>, Refusal>
    ensures ok { IfOk result (SpellsVers S.Scheme.own text.now) }
    ensures err { IfErr result (λ refusal. refusal ≢ refusal_of.NoMemory → IsBadVers S.Scheme.own text.now refusal) }
{
    match read::<S>(alloc, text) {
        Ok(list) => Ok(list),
        Err(fault) => Err(Refusal::from(fault)),
    }
}
