ghost use Rattle.std.specs.Prelude.{◌≡◌, ◌==◌, ◌||◌, ◌++◌, ◌<◌, ◌↔◌, IfOk, IfErr, IsTrue, OnOk, OnErr, IfSome, IfNone, length};
ghost use Rattle.std.specs.Char.{is_ascii_alphabetic};
ghost use Rattle.std.specs.List.{list_all};
ghost use Rattle.vx_text.specs.Escapes.{is_left, EscapesAreUndone, IsBroken, IsFirstBroken, IsFollowed, IsUnescapedAs, IsWhole, escaped};

use percent_encoding::{
    AsciiSet, DecodeError, NON_ALPHANUMERIC, ascii_set, percent_decode_str, utf8_percent_encode,
};
use std::alloc::{AllocError, Global};
use thiserror::Error;
use vx_scheme::{NoMemory, Text};

const ESCAPED: AsciiSet = ascii_set!(
    NON_ALPHANUMERIC
        .remove(b'.')
        .remove(b'-')
        .remove(b'_')
        .remove(b'~')
        .remove(b':')
);

/// Why the escapes of a text are not read.
#[derive(Clone, Copy, Debug, PartialEq, Eq, Error)]
pub enum EscapeFault {
    /// Two hexadecimal digits do not follow the `%` at this place.
    #[error("BadEscape")]
    BadEscape(usize),
    /// The bytes that the text stands for are not UTF-8.
    #[error("NotText")]
    NotText,
    /// No memory was found.
    #[error("NoMemory")]
    NoMemory,
}

impl From<NoMemory> for EscapeFault {
    ghost use Rattle.std.specs.Prelude.{◌≡◌};
    ghost use Rattle.vx_text.specs.declared.escapes.EscapeFault.TheVariants as fault_of;

    ghost from_gives = { λ _ fault. fault ≡ fault_of.NoMemory };

    fn from(_error: NoMemory) -> Self {
        EscapeFault::NoMemory
    }
}

impl From<AllocError> for EscapeFault {
    ghost use Rattle.std.specs.Prelude.{◌≡◌};
    ghost use Rattle.vx_text.specs.declared.escapes.EscapeFault.TheVariants as fault_of;

    ghost from_gives = { λ _ fault. fault ≡ fault_of.NoMemory };

    fn from(_error: AllocError) -> Self {
        EscapeFault::NoMemory
    }
}

/// Whether each byte is an ASCII letter, a digit or one of `. - _ ~ :`, so that the text stands for itself. It takes no
/// memory.
pub fn is_left(text: &[u8]) -> bool
    ensures { result ≡ list_all is_left text.now }
{
    text.iter().all(|byte| is_left_byte(*byte))
}

/// Whether the byte stands for itself. Digits and dots come first, since most bytes of versions are such.
fn is_left_byte(byte: u8) -> bool
    ensures { result ≡ is_left byte }
{
    byte.is_ascii_digit() || byte == b'.' || is_rare_left(byte)
}

fn is_rare_left(byte: u8) -> bool
    ensures { result ≡ (is_ascii_alphabetic byte || byte == 45 || byte == 95 || byte == 126 || byte == 58) }
{
    byte.is_ascii_alphabetic() || byte == b'-' || byte == b'_' || byte == b'~' || byte == b':'
}

/// Appends the text with every byte but ASCII letters, digits and `. - _ ~ :` escaped. A refused call leaves `out` as
/// it was.
pub fn escape(text: &str, out: &mut Text) -> Result<(), NoMemory>
    ensures ok { OnOk result (out.new ≡ out.old ++ escaped text.now) }
    ensures err { OnErr result (out.new ≡ out.old) }
{
    let written = utf8_percent_encode(text, ESCAPED).into_cow(out.alloc())?;
    out.push_str(written.as_str())
}

/// Whether two hexadecimal digits follow the byte at `at`.
fn is_followed(bytes: &[u8], at: usize) -> bool
    requires { at < length bytes.now }
    ensures { IsTrue result ↔ IsFollowed bytes.now at }
{
    match &bytes[at..] {
        [_, high, low, ..] => char::from(*high).is_digit(16) && char::from(*low).is_digit(16),
        _ => false,
    }
}

/// Whether a `%` stands at `at` that two hexadecimal digits do not follow.
fn is_broken(bytes: &[u8], at: usize) -> bool
    requires { at < length bytes.now }
    ensures { IsTrue result ↔ IsBroken bytes.now at }
{
    bytes[at] == b'%' && !is_followed(bytes, at)
}

/// Where the first `%` stands that two hexadecimal digits do not follow. It takes no memory.
pub fn first_broken(bytes: &[u8]) -> Option<usize>
    ensures some { IfSome result (λ at. IsFirstBroken bytes.now at) }
    ensures none { IfNone result (IsWhole bytes.now) }
{
    'bytes: for i in 0..bytes.len() {
        if is_broken(bytes, i) {
            return Some(i);
        }
    }
    None
}

/// The text that the escapes stand for. `BadEscape` comes exactly where a `%` is not followed by two hexadecimal
/// digits, and names the first such; `NotText` exactly where there is none and the bytes are not UTF-8.
pub fn unescape(alloc: Global, text: &str) -> Result<Text, EscapeFault>
    ensures { IsUnescapedAs text.now result }
{
    if let Some(at) = first_broken(text.as_bytes()) {
        return Err(EscapeFault::BadEscape(at));
    }
    match percent_decode_str(text).decode_utf8(alloc) {
        Ok(plain) => match plain.into_owned(alloc) {
            Ok(owned) => Ok(Text::from_string(owned)),
            Err(_) => Err(EscapeFault::NoMemory),
        },
        Err(DecodeError::Utf8(_)) => Err(EscapeFault::NotText),
        Err(DecodeError::OutOfMemory) => Err(EscapeFault::NoMemory),
    }
}

/// Escapes a text and reads the escapes again, which gives the text.
pub fn round_trip(alloc: Global, text: &str) -> Result<Text, EscapeFault>
    ensures ok { IfOk result (λ back. back ≡ text.now) }
    ensures err { IfErr result (λ fault. fault ≡ EscapeFault.NoMemory) }
{
    let mut out = Text::new(alloc);
    match escape(text, &mut out) {
        Ok(()) => unescape(alloc, out.as_str()),
        Err(_) => Err(EscapeFault::NoMemory),
    }
}

/// The law that the escapes of each text are read as that text again.
pub fn escapes_are_undone()
    ensures { EscapesAreUndone }
{}
