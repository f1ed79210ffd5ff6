ghost use Rattle.std.specs.Prelude.{MatchOption};
ghost use Rattle.relation_ranges.specs.Gem.Operators.{HasSigns};

use crate::comparison::{Comparison, Strict, comparison_of};
use vx_text::ByteClass;

/// An operator of RubyGems' requirements.
#[derive(Debug, Clone, Copy, PartialEq, Eq)]
pub enum Operator {
    /// `<`, `<=`, `=`, `>=`, `>`, or none, which is `=`.
    Compares(Comparison),
    /// `!=`
    NotEqual,
    /// `~>`
    Twiddle,
}

/// The bytes `!`, `<`, `=`, `>` and `~`, of which operators are written.
pub struct RequirementSigns;

impl ByteClass for RequirementSigns {
    ghost use Rattle.relation_ranges.specs.Gem.Operators.{is_sign};

    ghost holds = { is_sign };

    fn is_one(byte: u8) -> bool {
        byte == b'!' || byte == b'<' || byte == b'=' || byte == b'>' || byte == b'~'
    }
}

/// The operator that is written so; `None` exactly where none is.
pub(crate) fn operator_of(signs: &[u8]) -> Option<Operator>
    ensures { MatchOption result
        ((operator : Operator) → ¬ (HasSigns operator signs.now))
        (λ operator. HasSigns operator signs.now) }
{
    match signs {
        b"" => Some(Operator::Compares(Comparison::Equal)),
        b"!=" => Some(Operator::NotEqual),
        b"~>" => Some(Operator::Twiddle),
        _ => match comparison_of(Strict::Single, signs) {
            Some(comparison) => Some(Operator::Compares(comparison)),
            None => None,
        },
    }
}
