ghost use Rattle.std.specs.Prelude.{◌≡◌, ◌+◌, ◌<◌, ◌^◌, length};
ghost use Rattle.vx_order.specs.Dotted.{dotted};
ghost use Rattle.vx_order.specs.PastParts.{first_past_part, is_past_numeral};

use vx_text::{cut_bytes, is_numeral, is_past};

/// Where among the parts between dots, the first of which begins at this place, the first numeral begins that passes
/// 2^128-1. It takes no memory.
pub fn first_past_part(text: &[u8], at: usize) -> Option<usize>
    requires { at + length text.now < 2 ^ 64 }
    ensures { result ≡ first_past_part at (dotted text.now) }
{
    let mut from = at;
    let mut rest = text;
    'parts: loop {
        let (part, behind) = cut_bytes(rest, b'.');
        if is_past_numeral(part) {
            return Some(from);
        }
        let Some(more) = behind else {
            return None;
        };
        from += part.len() + 1;
        rest = more;
    }
}

/// Whether the part is a numeral that passes 2^128-1. It takes no memory.
pub fn is_past_numeral(part: &[u8]) -> bool
    ensures { result ≡ is_past_numeral part.now }
{
    is_numeral(part) && is_past(part)
}
