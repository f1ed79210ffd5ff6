ghost use Rattle.std.specs.Prelude.{◌≡◌, IfOk};
ghost use Rattle.purl_core.specs.Printed.{purl_text};
ghost use Rattle.purl_types.specs.Folding.{folded_purl};
ghost use Rattle.purl_types.specs.Canonical.{CanonicalAgain, EqualCanonicalsMeanSame, IsCanonicalAs, OneForSame};

use crate::folding::fold;
use purl_core::{Purl, PurlFault, read, to_text};
use std::alloc::Global;
use vx_scheme::{NoMemory, Text};

/// The canonical text of a package URL: read, folded as its type says, and written. The refusals are those of `read`.
pub fn canonical(alloc: Global, text: &str) -> Result<Text, PurlFault>
    ensures { IsCanonicalAs text.now result }
{
    match read(alloc, text) {
        Ok(purl) => Ok(folded_text(alloc, purl)?),
        Err(fault) => Err(fault),
    }
}

/// The text of a package URL that is folded first.
fn folded_text(alloc: Global, purl: Purl) -> Result<Text, NoMemory>
    ensures { IfOk result (λ text. text ≡ purl_text (folded_purl purl)) }
{
    to_text(alloc, &fold(alloc, purl)?)
}

/// The law that the canonical text of a canonical text is that text.
pub fn canonical_again()
    ensures { CanonicalAgain }
{}

/// The law that two package URLs, and two texts that spell such, have one canonical text exactly where they mean the
/// same package.
pub fn one_canonical()
    ensures values { OneForSame }
    ensures texts { EqualCanonicalsMeanSame }
{}
