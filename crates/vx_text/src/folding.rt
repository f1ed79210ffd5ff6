ghost use Rattle.std.specs.Prelude.{◌≡◌, ◌↔◌, IfOk, IsTrue};
ghost use Rattle.vx_text.specs.Folding.{lowered};

use std::alloc::Global;
use vx_scheme::{NoMemory, Text};

/// The text with its ASCII letters in lower case; all else stays.
pub fn lower(alloc: Global, text: &str) -> Result<Text, NoMemory>
    ensures { IfOk result (λ low. low ≡ lowered text.now) }
{
    let low = text.to_ascii_lowercase(alloc)?;
    Ok(Text::from_string(low))
}

/// Whether the texts are equal once their ASCII letters are in lower case. It takes no memory.
pub fn same_folded(a: &str, b: &str) -> bool
    ensures { IsTrue result ↔ (lowered a.now ≡ lowered b.now) }
{
    a.eq_ignore_ascii_case(b)
}
