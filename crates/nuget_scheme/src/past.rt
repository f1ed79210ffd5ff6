ghost use Rattle.std.specs.Prelude.{◌≡◌, ◌↔◌, ◌+◌, ◌<◌, ◌^◌, ℕ, List, None, length};
ghost use Rattle.std.specs.Option.{option_copied};
ghost use Rattle.vx_spec.specs.Marks.{marked};
ghost use Rattle.vx_spec.specs.Signs.{hyphen};
ghost use Rattle.vx_order.specs.Dotted.{pieces};
ghost use Rattle.vx_order.specs.PastParts.{first_past_part};
ghost use Rattle.nuget_scheme.specs.Version.{Fields, IsWithin};
ghost use Rattle.nuget_scheme.specs.Spelling.{Spells};
ghost use Rattle.nuget_scheme.specs.Past.{first_past_front, past_numeral_of};

use vx_order::first_past_part;
use vx_text::cut_bytes;

/// Where in the text of a version that begins at this place the first numeral begins that passes 2^128-1: among the numbers
/// and the labels that are digits alone, since the build has no numbers. It takes no memory.
pub fn past_numeral(text: &[u8], at: usize) -> Option<usize>
    requires { at + length text.now < 2 ^ 64 }
    ensures { result ≡ past_numeral_of at text.now }
{
    let (front, _build) = cut_bytes(text, b'+');
    past_front(front, at)
}

// The same in what stands before the build.
fn past_front(front: &[u8], at: usize) -> Option<usize>
    requires { at + length front.now < 2 ^ 64 }
    ensures { result ≡ first_past_front at front.now }
{
    let (numbers, labels) = cut_bytes(front, b'-');
    match first_past_part(numbers, at) {
        Some(place) => Some(place),
        None => past_label(labels, at + numbers.len()),
    }
}

// The same among the labels behind their '-', which stands at this place where there are any.
fn past_label(labels: Option<&[u8]>, at: usize) -> Option<usize>
    requires { at + length (marked hyphen (option_copied labels)) < 2 ^ 64 }
    ensures { result ≡ first_past_part (at + 1) (pieces (option_copied labels.entry)) }
{
    first_past_part(labels?, at + 1)
}

/// A version is within the limit exactly where no numeral of its text passes it.
pub fn limits_agree()
    ensures { (text : List ℕ) (v : Fields) (at : ℕ) → Spells text v → IsWithin v ↔ (past_numeral_of at text ≡ None) }
{}
