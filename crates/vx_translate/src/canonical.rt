ghost use Rattle.std.specs.Prelude.{◌≢◌, IfOk, IfErr};
ghost use Rattle.vx_translate.specs.declared.refusal.Refusal.TheVariants as refusal_of;
ghost use Rattle.vx_translate.specs.Canonical.{PrintsSimplified, MeansSame, RefusesCanonical};

use crate::refusal::Refusal;
use crate::vers_texts::read_list;
use std::alloc::Global;
use vx_scheme::{Scheme, Text};
use vx_simplify::into_simple;
use vx_vers::write;

/// The canonical text of a VERS text of the scheme.
pub(crate) fn canonical<S: Scheme>(alloc: Global, text: &str) -> Result<Text, Refusal>
    ensures ok { IfOk result (PrintsSimplified S.Scheme.own text.now) }
    ensures same { IfOk result (MeansSame S.Scheme.own text.now) }
    ensures err { IfErr result (λ refusal. refusal ≢ refusal_of.NoMemory → RefusesCanonical S.Scheme.own text.now refusal) }
{
    let list = read_list::<S>(alloc, text)?;
    let simple = into_simple::<S>(list);
    let mut out = Text::with_room(alloc, text.len() + 32)?;
    write::<S>(&simple, &mut out)?;
    Ok(out)
}
