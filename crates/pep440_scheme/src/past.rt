ghost use Rattle.std.specs.Prelude.{◌≡◌, ◌↔◌, ◌<◌, ◌+◌, ◌^◌, ℕ, List, None, length};
ghost use Rattle.std.specs.List.{slice_split};
ghost use Rattle.std.specs.Option.{option_copied};
ghost use Rattle.vx_spec.specs.Marks.{marked};
ghost use Rattle.pep440_scheme.specs.Version.{Fields, IsWithin};
ghost use Rattle.vx_spec.specs.Signs.{plus};
ghost use Rattle.pep440_scheme.specs.Spelling.{Spells, is_separator};
ghost use Rattle.pep440_scheme.specs.Past.{first_past_local, first_past_part, past_numeral_of};

use crate::spelling::{NoSeparators, cut_part};
use vx_order::is_past_numeral;
use vx_text::{Blanks, cut_bytes, first_past, without_end};

/// Where in the text of a version that begins at this place the first numeral begins that passes 2^128-1: before the local version
/// label each run of digits is a numeral, and in the label each part that is digits alone. It takes no memory.
pub fn past_numeral(text: &[u8], at: usize) -> Option<usize>
    requires { at + length text.now < 2 ^ 64 }
    ensures { result ≡ past_numeral_of at text.now }
{
    let (public, label) = cut_bytes(text, b'+');
    match first_past(public, at) {
        Some(place) => Some(place),
        None => past_local(label, at + public.len()),
    }
}

// The same in a label whose '+' stands at this place, where there is one.
fn past_local(label: Option<&[u8]>, at: usize) -> Option<usize>
    requires { at + length (marked plus (option_copied label)) < 2 ^ 64 }
    ensures { result ≡ first_past_local at (option_copied label.entry) }
{
    past_part(without_end::<Blanks>(label?), at)
}

// The same among parts, the first of which stands behind a sign at this place.
fn past_part(label: &[u8], at: usize) -> Option<usize>
    requires { at + length label.now + 1 < 2 ^ 64 }
    ensures { result ≡ first_past_part at (slice_split is_separator label.now) }
{
    let mut from = at;
    let mut rest = Some(label);
    'parts: while let Some(more) = rest {
        let (part, behind) = cut_part::<NoSeparators>(more);
        if is_past_numeral(part) {
            return Some(from + 1);
        }
        from += part.len() + 1;
        rest = behind;
    }
    None
}

/// A version is within the limit exactly where no numeral of its text passes it.
pub fn limits_agree()
    ensures { (text : List ℕ) (v : Fields) (at : ℕ) → Spells text v → IsWithin v ↔ (past_numeral_of at text ≡ None) }
{}
