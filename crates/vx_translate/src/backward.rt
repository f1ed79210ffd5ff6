ghost use Rattle.std.specs.Prelude.{◌≢◌, IfOk, IfErr};
ghost use Rattle.vx_translate.specs.declared.refusal.Refusal.TheVariants as refusal_of;
ghost use Rattle.vx_translate.specs.Backward.{TranslatesBack, KeepsMembers, RefusesBack};

use crate::refusal::Refusal;
use crate::vers_texts::read_list;
use std::alloc::Global;
use vx_scheme::{Domain, Native, Text};
use vx_simplify::{into_set, into_simple};

/// The range text of a VERS text of the scheme, in a domain.
pub(crate) fn translate_back<N: Native>(
    alloc: Global,
    domain: Domain,
    text: &str,
) -> Result<Text, Refusal>
    ensures ok { IfOk result (TranslatesBack N.Scheme N.Native.own domain text.now) }
    ensures members { IfOk result (KeepsMembers N.Scheme N.Native.own domain text.now) }
    ensures err { IfErr result (λ refusal. refusal ≢ refusal_of.NoMemory → RefusesBack N.Scheme N.Native.own domain text.now refusal) }
{
    if !N::offers(domain) {
        return Err(Refusal::DomainNotOffered);
    }
    let list = read_list::<N>(alloc, text)?;
    let simple = into_simple::<N>(list);
    let set = into_set::<N>(simple)?;
    let spans = set.into_spans()?;
    match N::unbounds(alloc, &spans, domain) {
        Ok(out) => Ok(out),
        Err(fault) => Err(Refusal::from(fault)),
    }
}
