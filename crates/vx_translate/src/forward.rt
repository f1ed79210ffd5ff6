ghost use Rattle.std.specs.Prelude.{◌≡◌, ◌≢◌, IfOk, IfErr};
ghost use Rattle.vx_translate.specs.declared.refusal.Refusal.TheVariants as refusal_of;
ghost use Rattle.vx_translate.specs.Forward.{Translates, HoldsSame, HoldsNothing, RefusesForward};
ghost use Rattle.vx_translate.specs.Sizes.{HasNoMore};

use crate::refusal::Refusal;
use std::alloc::Global;
use vx_interval::Set;
use vx_scheme::{Domain, Native, Text};
use vx_simplify::{FromSet, from_set};
use vx_vers::write;

/// The VERS text of a range text in a domain.
pub(crate) fn translate<N: Native>(
    alloc: Global,
    domain: Domain,
    text: &str,
) -> Result<Text, Refusal>
    ensures ok { IfOk result (Translates N.Scheme N.Native.own domain text.now) }
    ensures members { IfOk result (HoldsSame N.Scheme N.Native.own domain text.now) }
    ensures err { IfErr result (λ refusal. refusal ≢ refusal_of.NoMemory → RefusesForward N.Scheme N.Native.own domain text.now refusal) }
    ensures empty { result ≡ Err Refusal.Empty → HoldsNothing N.Scheme N.Native.own domain text.now }
    ensures short { IfOk result (HasNoMore N.Scheme N.Native.own domain text.now) }
{
    if !N::offers(domain) {
        return Err(Refusal::DomainNotOffered);
    }
    let bounds = match N::bounds(alloc, text, domain) {
        Ok(bounds) => bounds,
        Err(fault) => return Err(Refusal::from(fault)),
    };
    let set = Set::<N>::from_bounds(alloc, bounds)?;
    let list = match from_set::<N>(alloc, set) {
        Ok(list) => list,
        Err(FromSet::Empty) => return Err(Refusal::Empty),
        Err(FromSet::NoMemory) => return Err(Refusal::NoMemory),
    };
    let mut out = Text::with_room(alloc, text.len() + 32)?;
    write::<N>(&list, &mut out)?;
    Ok(out)
}
