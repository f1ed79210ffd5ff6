ghost use Rattle.std.specs.List.{AllByRecursion};
ghost use Rattle.std.specs.Prelude.{[], ◌++◌, ◌∷◌, ◌≡◌, OnOk};
ghost use Rattle.vx_scheme.specs.declared.ident.Ident.TheVariants.{Word};
ghost use Rattle.vx_scheme.specs.Values.{Gives};
ghost use Rattle.gem_scheme.specs.Spelling.{segments_of};
ghost use Rattle.gem_scheme.specs.Version.{SegmentIsWithin};

use crate::version::{Segment, Segments};
use std::alloc::Global;
use vx_order::{Tokens, scan_tokens};
use vx_scheme::{NoMemory, Text, VersionFault};

// The segments of tokens.
struct TokenSegments;

impl Tokens for TokenSegments {
    ghost use Rattle.vx_scheme.specs.declared.ident.Ident.TheVariants.{Number, Word};
    ghost use Rattle.gem_scheme.specs.Laws.Scanning.{sign_within};
    ghost use Rattle.gem_scheme.specs.Steps.Tokens.{sign_segments};
    ghost use Rattle.gem_scheme.specs.Version.{SegmentIsWithin};

    type Entry = Segment;

    ghost number = { Number };

    ghost word = { Word };

    ghost other = { sign_segments };

    ghost IsWithin = { SegmentIsWithin };

    ghost number_within = { λ _ small. small };

    ghost within_number = { λ _ small. small };

    ghost word_within = { λ _. tt };

    ghost other_within = { sign_within };

    fn push_number(segments: &mut Segments, value: u128) -> Result<(), NoMemory> {
        segments.push(Segment::Number(value))
    }

    fn push_word(segments: &mut Segments, word: &str) -> Result<(), NoMemory> {
        push_segment(segments, word)
    }

    // `-` stands for `.pre.`; any other byte only parts segments.
    fn push_other(segments: &mut Segments, byte: u8) -> Result<(), NoMemory> {
        match byte {
            b'-' => push_segment(segments, "pre"),
            _ => Ok(()),
        }
    }
}

/// The segments of a version's text, in a list that does not grow. `Numeral` comes exactly where a run of digits passes
/// 2^128-1, unless memory ends before.
pub(crate) fn segments(alloc: Global, text: &[u8]) -> Result<Segments, VersionFault>
    ensures { Gives (AllByRecursion SegmentIsWithin) result (segments_of text.now) }
{
    scan_tokens::<TokenSegments>(alloc, text)
}

fn push_segment(segments: &mut Segments, word: &str) -> Result<(), NoMemory>
    ensures { OnOk result (segments.new ≡ segments.old ++ Word word.now ∷ []) }
{
    let text = Text::copy_of(segments.alloc(), word)?;
    segments.push(Segment::Word(text))
}
