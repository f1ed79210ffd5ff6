//! Texts of parts between dots, a pre-release behind a `-`, and a build behind a `+`.

ghost use Rattle.std.specs.Prelude.{◌≡◌, ◌==◌, ◌↔◌, ℕ, Bool, List, map};
ghost use Rattle.std.specs.Option.{option_copied};
ghost use Rattle.std.specs.List.{AllByRecursion, list_all};
ghost use Rattle.vx_scheme.specs.Values.{Gives};
ghost use Rattle.vx_order.specs.Dotted.{dotted, pieces};
ghost use Rattle.vx_order.specs.Identifiers.{IdentIsWithin, identifier_of, is_identifier};
ghost use Rattle.vx_order.specs.Cuts.{IsCutApart};
ghost use Rattle.vx_order.specs.Steps.Apart.{is_core_byte};

use std::alloc::Global;
use std::marker::PhantomData;
use vx_scheme::{Ident, Idents, Text, VersionFault};
use vx_text::{ByteClass, NumeralFault, cut, is_made_of, numeral};

/// What stands before the marks, behind the first `-` before the first `+`, and behind that `+`. It takes no memory.
pub fn cut_apart(text: &str) -> (&str, Option<&str>, Option<&str>)
    ensures { IsCutApart text.now result.0.now (option_copied result.1) (option_copied result.2) }
{
    if is_core(text) {
        return (text, None, None);
    }
    let (front, build) = cut(text, '+');
    let (core, pre) = cut(front, '-');
    (core, pre, build)
}

// Most texts have neither mark, which one pass tells.
fn is_core(text: &str) -> bool
    ensures { result ≡ list_all is_core_byte text.now }
{
    text.as_bytes()
        .iter()
        .all(|byte| *byte != b'+' && *byte != b'-')
}

/// A form that the parts between dots can have.
pub trait PartForm {
    /// The part has the form.
    ghost holds: { List ℕ → Bool };

    /// Whether the part has the form. It takes no memory.
    fn is_one(part: &str) -> bool
        ensures { result ≡ holds part.now };
}

/// The form of one byte of a class or more.
pub struct MadeOf<C> {
    class: PhantomData<C>,
}

impl<C: ByteClass> PartForm for MadeOf<C> {
    ghost use Rattle.vx_spec.specs.Runs.{is_made_of};

    ghost holds = { is_made_of C.holds };

    fn is_one(part: &str) -> bool {
        is_made_of::<C>(part.as_bytes())
    }
}

/// The ASCII letters, the digits and `-`.
pub struct IdentifierBytes;

impl ByteClass for IdentifierBytes {
    ghost use Rattle.vx_order.specs.Identifiers.{is_identifier_byte};

    ghost holds = { is_identifier_byte };

    fn is_one(byte: u8) -> bool {
        byte.is_ascii_alphanumeric() || byte == b'-'
    }
}

/// The form of identifiers: one ASCII letter, digit or `-`, or more.
pub type Identifiers = MadeOf<IdentifierBytes>;

/// Whether the text is an identifier. It takes no memory.
pub fn is_identifier(text: &str) -> bool
    ensures { result ≡ is_identifier text.now }
{
    is_made_of::<IdentifierBytes>(text.as_bytes())
}

/// Whether each part between the dots has the form; a text that is left out has none. It takes no memory.
pub fn all_parts<F: PartForm>(text: Option<&str>) -> bool
    ensures { result ≡ list_all F.holds (pieces (option_copied text.entry)) }
{
    match text {
        Some(text) => all_dotted::<F>(text),
        None => true,
    }
}

fn all_dotted<F: PartForm>(text: &str) -> bool
    ensures { result ≡ list_all F.holds (dotted text.now) }
{
    text.split('.').all(|part| F::is_one(part))
}

/// The identifiers between the dots; a text that is left out has none. `Numeral` comes exactly where one of their
/// numerals passes 2^128-1, unless memory ends before.
pub fn read_idents(alloc: Global, text: Option<&str>) -> Result<Idents, VersionFault>
    ensures { Gives (AllByRecursion IdentIsWithin) result (map identifier_of (pieces (option_copied text.entry))) }
{
    match text {
        Some(text) => read_dotted(alloc, text),
        None => Ok(Idents::new(alloc)),
    }
}

// In a list with room for no more. Out of line, so that a text that is left out costs nothing.
#[inline(never)]
fn read_dotted(alloc: Global, text: &str) -> Result<Idents, VersionFault>
    ensures { Gives (AllByRecursion IdentIsWithin) result (map identifier_of (dotted text.now)) }
{
    let mut all = Idents::with_room(alloc, text.split('.').count())?;
    let mut rest = Some(text);
    'pieces: while let Some(more) = rest {
        let (piece, behind) = cut(more, '.');
        let next = read_ident(alloc, piece)?;
        all.push(next)?;
        rest = behind;
    }
    Ok(all)
}

fn read_ident(alloc: Global, text: &str) -> Result<Ident, VersionFault>
    ensures { Gives IdentIsWithin result (identifier_of text.now) }
{
    match numeral(text) {
        Ok(number) => Ok(Ident::Number(number)),
        Err(NumeralFault::TooLarge) => Err(VersionFault::Numeral),
        Err(NumeralFault::NotDigits) => {
            let word = Text::copy_of(alloc, text)?;
            Ok(Ident::Word(word))
        }
    }
}
