ghost use Rattle.std.specs.Prelude.{◌≡◌, false};
ghost use Rattle.std.specs.Char.{is_ascii_digit};
ghost use Rattle.vx_spec.specs.Runs.{begins};
ghost use Rattle.maven_scheme.specs.Tokens.{behind_front, front_token, is_dot, is_separator, is_word_byte, past_separator};
ghost use Rattle.maven_scheme.specs.Letters.{letter_of};
ghost use Rattle.maven_scheme.specs.Steps.Tokens.{IsToken, token_letter};

use vx_text::{ByteClass, Digits, cut_run};

// The bytes of words.
struct WordBytes;

impl ByteClass for WordBytes {
    ghost use Rattle.maven_scheme.specs.Tokens.{is_word_byte};

    ghost holds = { is_word_byte };

    fn is_one(byte: u8) -> bool {
        is_word_byte(byte)
    }
}

/// A token of a version's text, after the POM reference, "Version Order Specification".
#[derive(Clone, Copy)]
pub(crate) enum Token<'a> {
    /// Digits, or none at all; and whether `.` stands before them.
    Number(&'a [u8], bool),
    /// A word, and whether a digit follows it directly.
    Qualifier(&'a [u8], bool),
}

fn is_word_byte(byte: u8) -> bool
    ensures { result ≡ is_word_byte byte }
{
    byte.is_ascii_alphabetic() || byte == b'_' || byte == b'+'
}

fn is_separator(byte: u8) -> bool
    ensures { result ≡ is_separator byte }
{
    !(byte.is_ascii_digit() || is_word_byte(byte))
}

fn begins_with_digit(text: &[u8]) -> bool
    ensures { result ≡ begins is_ascii_digit text.now }
{
    match text {
        [first, ..] => first.is_ascii_digit(),
        [] => false,
    }
}

/// The token at the front of a text, and what stands behind it. It takes no memory.
pub(crate) fn cut_token(text: &[u8], is_dotted: bool) -> (Token<'_>, &[u8])
    ensures letter { token_letter result.0 ≡ letter_of (front_token is_dotted text.now) }
    ensures token { IsToken result.0 }
    ensures rest { result.1.now ≡ behind_front text.now }
{
    if begins_with_digit(text) {
        let (digits, behind) = cut_run::<Digits>(text);
        (Token::Number(digits, is_dotted), behind)
    } else {
        cut_other(text, is_dotted)
    }
}

// The token at the front of a text that begins with no digit.
fn cut_other(text: &[u8], is_dotted: bool) -> (Token<'_>, &[u8])
    requires { begins is_ascii_digit text.now ≡ false }
    ensures letter { token_letter result.0 ≡ letter_of (front_token is_dotted text.now) }
    ensures token { IsToken result.0 }
    ensures rest { result.1.now ≡ behind_front text.now }
{
    let (word, behind) = cut_run::<WordBytes>(text);
    if word.is_empty() {
        (Token::Number(word, is_dotted), behind)
    } else {
        (Token::Qualifier(word, begins_with_digit(behind)), behind)
    }
}

/// Whether `.` stands before the token that comes next, and the text that the token begins. A change between digit and
/// other byte counts as `-`. It takes no memory.
pub(crate) fn cut_separator(rest: &[u8]) -> (bool, &[u8])
    ensures dotted { result.0 ≡ begins is_dot rest.now }
    ensures text { result.1.now ≡ past_separator rest.now }
{
    match rest {
        [first, text @ ..] if is_separator(*first) => (*first == b'.', text),
        _ => (false, rest),
    }
}

/// How many tokens the text has.
pub(crate) fn token_count(text: &[u8]) -> usize {
    let (_, mut rest) = cut_token(text, true);
    let mut count = 1usize;
    'tokens: while !rest.is_empty() {
        let (is_dotted, text) = cut_separator(rest);
        let (_, behind) = cut_token(text, is_dotted);
        count = count.saturating_add(1);
        rest = behind;
    }
    count
}
