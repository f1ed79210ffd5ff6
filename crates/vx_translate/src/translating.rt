ghost use Rattle.std.specs.Prelude.{◌≡◌, ℕ, IfOk, IfErr, Err};
ghost use Rattle.vx_scheme.specs.declared.range_fault.EndKind.{EndKind};
ghost use Rattle.vx_translate.specs.Names.{IsTranslated, IsSameRange, IsRefused, HoldsNone, ProvesNoEnd};
ghost use Rattle.vx_translate.specs.Sizes.{IsShortRange, HasNoMoreThanCuts};

use crate::forward::translate;
use crate::refusal::Refusal;
use crate::table::of_scheme;
use std::alloc::Global;
use vx_scheme::{Domain, SchemeName, Text};

/// The VERS text of a range text of the named scheme, in a domain. The refusal is that of the first
/// that stands in the text.
pub fn to_vers(alloc: Global, name: SchemeName, domain: Domain, text: &str) -> Result<Text, Refusal>
    ensures ok { IfOk result (IsTranslated name domain text.now) }
    ensures members { IfOk result (IsSameRange name domain text.now) }
    ensures err { IfErr result (IsRefused name domain text.now) }
    // An empty range has no version of the domain.
    ensures empty { result ≡ Err Refusal.Empty → HoldsNone name domain text.now }
    // Its list has at most twice as many constraints as the range text has constructs.
    ensures short { IfOk result (IsShortRange name text.now) }
    // What a construct without an end holds of, no list holds; of `===T` where T is a version's normal text.
    ensures no_end { (kind : EndKind) (at : ℕ) → result ≡ Err (Refusal.NoEndpoint kind at) →
        ProvesNoEnd name domain text.now kind at }
{
    translate_named(alloc, name, domain, text)
}

fn translate_named(
    alloc: Global,
    name: SchemeName,
    domain: Domain,
    text: &str,
) -> Result<Text, Refusal>
    ensures ok { IfOk result (IsTranslated name domain text.now) }
    ensures members { IfOk result (IsSameRange name domain text.now) }
    ensures err { IfErr result (IsRefused name domain text.now) }
    ensures empty { result ≡ Err Refusal.Empty → HoldsNone name domain text.now }
    ensures short { IfOk result (HasNoMoreThanCuts name domain text.now) }
{
    of_scheme!(name, translate(alloc, domain, text))
}
