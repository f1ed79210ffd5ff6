ghost use Rattle.std.specs.Prelude.{◌≡◌, ◌&&◌, ◌+◌, true, IsTrue, IfOk, IfErr, map, length};
ghost use Rattle.std.specs.Char.{is_ascii_digit};
ghost use Rattle.std.specs.List.{AllByRecursion, list_all, slice_split};
ghost use Rattle.std.specs.Option.{option_copied, option_map};
ghost use Rattle.vx_spec.specs.Numerals.{is_numeral, value};
ghost use Rattle.vx_spec.specs.Runs.{past, run};
ghost use Rattle.vx_scheme.specs.Scheme.{Refuses};
ghost use Rattle.vx_scheme.specs.Values.{Gives};
ghost use Rattle.pep440_scheme.specs.Version.{IsSmall, IsSmallLocal, IsSmallOption, IsSmallPre, IsWithin};
ghost use Rattle.vx_text.specs.EpochParts.{epoch_value};
ghost use Rattle.pep440_scheme.specs.Spelling.{Spells, is_local_text, is_separator, local_of};
ghost use Rattle.pep440_scheme.specs.Steps.Apart.{AreTaken, after_release, after_v, apart, are_digits, behind_first, option_length, are_pre_digits, dev_step, epoch_step, fields_of, from_release, is_dashed, is_dot, is_label, label_parts, post_step, pre_part_of, pre_step, release_at, release_parts};
ghost use Rattle.pep440_scheme.specs.Steps.Written.{parts, pre_taken};

use crate::version::{Locals, Numbers, Pep440Version, PreKind, PrePart};
use crate::words::{Mark, Suffix, is_separator, suffix_at};
use std::alloc::Global;
use std::str;
use vx_scheme::{Ident, Idents, VersionFault};
use vx_text::{
    Alphanumeric, ByteClass, Digits, cut_run, is_made_of, is_numeral, lower, number_of, trimmed,
    without_end,
};

/// A pre-release of a version's text.
#[derive(Clone, Copy)]
pub(crate) struct WrittenPre<'a> {
    /// The kind that its word stands for.
    pub(crate) kind: PreKind,
    /// Its digits; none where they are left out.
    pub(crate) digits: &'a [u8],
}

/// The parts of a version's text, as they are written.
#[derive(Clone, Copy)]
pub(crate) struct Written<'a> {
    /// What stands before the `!`, where there is one.
    pub(crate) epoch: Option<&'a [u8]>,
    /// The numerals of the release, with a `.` between each two.
    pub(crate) release: &'a [u8],
    /// The pre-release, where there is one.
    pub(crate) pre: Option<WrittenPre<'a>>,
    /// The digits of the post-release, where there is one.
    pub(crate) post: Option<&'a [u8]>,
    /// The digits of the developmental release, where there is one.
    pub(crate) dev: Option<&'a [u8]>,
    /// All that stands behind: the local version label with its `+`, or nothing.
    pub(crate) label: &'a [u8],
}

// Digits and '.'.
struct ReleaseBytes;

impl ByteClass for ReleaseBytes {
    ghost use Rattle.pep440_scheme.specs.Steps.Apart.{is_release_byte};

    ghost holds = { is_release_byte };

    fn is_one(byte: u8) -> bool {
        byte.is_ascii_digit() || byte == b'.'
    }
}

// The '.'.
struct Dots;

impl ByteClass for Dots {
    ghost use Rattle.pep440_scheme.specs.Steps.Apart.{is_dot};

    ghost holds = { is_dot };

    fn is_one(byte: u8) -> bool {
        byte == b'.'
    }
}

/// Every byte but `.`.
pub(crate) struct NoDots;

impl ByteClass for NoDots {
    ghost use Rattle.pep440_scheme.specs.Steps.Apart.{is_no_dot};

    ghost holds = { is_no_dot };

    fn is_one(byte: u8) -> bool {
        byte != b'.'
    }
}

/// Every byte but '.', '-' and '_'.
pub(crate) struct NoSeparators;

impl ByteClass for NoSeparators {
    ghost use Rattle.pep440_scheme.specs.Steps.Apart.{is_no_separator};

    ghost holds = { is_no_separator };

    fn is_one(byte: u8) -> bool {
        !is_separator(byte)
    }
}

/// The version that the text spells. The forms of the parts are tested before a value is made, so that `NotAVersion`
/// comes before `Numeral`.
pub(crate) fn read(alloc: Global, text: &str) -> Result<Pep440Version, VersionFault>
    ensures ok { IfOk result (λ v. Spells text.now v × IsWithin v) }
    ensures err { IfErr result (Refuses Spells IsWithin text.now) }
{
    let written = cut_apart(text.as_bytes());
    if !has_form(&written) {
        return Err(VersionFault::NotAVersion);
    }
    version_of_parts(alloc, &written)
}

/// The parts of the text, read from the left, if it is a version's. It takes no memory.
#[tactic(auto, unfolding(crate::specs::Steps::Apart::apart))]
pub(crate) fn cut_apart(text: &[u8]) -> Written<'_>
    ensures { parts result ≡ apart text.now }
{
    let (epoch, rest) = take_epoch(after_v(trimmed(text)));
    cut_release(epoch, rest)
}

fn after_v(text: &[u8]) -> &[u8]
    ensures { result.now ≡ after_v text.now }
{
    match text {
        [first, rest @ ..] if first.eq_ignore_ascii_case(&b'v') => rest,
        _ => text,
    }
}

fn take_epoch(text: &[u8]) -> (Option<&[u8]>, &[u8])
    ensures digits { option_copied result.0 ≡ (epoch_step text.now).digits }
    ensures rest { result.1.now ≡ (epoch_step text.now).rest }
{
    let (digits, behind) = cut_run::<Digits>(text);
    match behind {
        [b'!', rest @ ..] if !digits.is_empty() => (Some(digits), rest),
        _ => (None, text),
    }
}

fn cut_release<'a>(epoch: Option<&'a [u8]>, text: &'a [u8]) -> Written<'a>
    ensures { parts result ≡ from_release (option_copied epoch.entry) text.now }
{
    let (release, rest) = take_release(text);
    let (pre, rest) = take_pre(rest);
    let (post, rest) = take_post(rest);
    let (dev, label) = take_dev(rest);
    Written {
        epoch,
        release,
        pre,
        post,
        dev,
        label,
    }
}

fn take_release(text: &[u8]) -> (&[u8], &[u8])
    ensures release { result.0.now ≡ release_at text.now }
    ensures rest { result.1.now ≡ after_release text.now }
{
    let (front, _) = cut_run::<ReleaseBytes>(text);
    text.split_at(without_end::<Dots>(front).len())
}

fn take_pre(text: &[u8]) -> (Option<WrittenPre<'_>>, &[u8])
    ensures pre { pre_taken result.0 ≡ (pre_step text.now).pre }
    ensures rest { result.1.now ≡ (pre_step text.now).rest }
{
    match suffix_at(text) {
        Some(
            Suffix {
                mark: Mark::Pre(kind),
                digits,
                rest,
            },
        ) => (Some(WrittenPre { kind, digits }), rest),
        _ => (None, text),
    }
}

fn take_post(text: &[u8]) -> (Option<&[u8]>, &[u8])
    ensures digits { option_copied result.0 ≡ (post_step text.now).digits }
    ensures rest { result.1.now ≡ (post_step text.now).rest }
{
    if is_dashed(text) {
        let (digits, rest) = cut_run::<Digits>(&text[1..]);
        return (Some(digits), rest);
    }
    match suffix_at(text) {
        Some(
            Suffix {
                mark: Mark::Post,
                digits,
                rest,
            },
        ) => (Some(digits), rest),
        _ => (None, text),
    }
}

fn is_dashed(text: &[u8]) -> bool
    ensures { result ≡ is_dashed text.now }
{
    match text {
        [b'-', digit, ..] => digit.is_ascii_digit(),
        _ => false,
    }
}

fn take_dev(text: &[u8]) -> (Option<&[u8]>, &[u8])
    ensures digits { option_copied result.0 ≡ (dev_step text.now).digits }
    ensures rest { result.1.now ≡ (dev_step text.now).rest }
{
    match suffix_at(text) {
        Some(
            Suffix {
                mark: Mark::Dev,
                digits,
                rest,
            },
        ) => (Some(digits), rest),
        _ => (None, text),
    }
}

/// Whether the parts have the form that their bytes do not give them. It takes no memory.
fn has_form(written: &Written) -> bool
    ensures { result ≡ (list_all is_numeral (release_parts written.now.release.now) && is_label written.now.label.now) }
{
    is_release(written.release) && is_label(written.label)
}

fn is_release(text: &[u8]) -> bool
    ensures { result ≡ list_all is_numeral (release_parts text.now) }
{
    text.split(|byte| *byte == b'.')
        .all(|part| is_numeral(part))
}

fn is_label(text: &[u8]) -> bool
    ensures { result ≡ is_label text.now }
{
    match text {
        [sign, label @ ..] => *sign == b'+' && all_local_texts(label),
        [] => true,
    }
}

fn all_local_texts(label: &[u8]) -> bool
    ensures { result ≡ list_all is_local_text (slice_split is_separator label.now) }
{
    label
        .split(|byte| is_separator(*byte))
        .all(|part| is_local_text(part))
}

fn is_local_text(part: &[u8]) -> bool
    ensures { result ≡ is_local_text part.now }
{
    is_made_of::<Alphanumeric>(part)
}

/// The version that the parts stand for. `Numeral` comes exactly where one of their numerals passes 2^128-1, unless
/// memory ends before.
fn version_of_parts(alloc: Global, written: &Written) -> Result<Pep440Version, VersionFault>
    requires { AreTaken (parts written.now) }
    ensures { Gives IsWithin result (fields_of (parts written.now)) }
{
    let epoch = epoch_number(written.epoch)?;
    let release = release_numbers(alloc, written.release)?;
    let pre = pre_part(written.pre)?;
    let post = option_number(written.post)?;
    let dev = option_number(written.dev)?;
    let local = locals(alloc, written.label)?;
    Ok(Pep440Version {
        epoch,
        release,
        pre,
        post,
        dev,
        local,
    })
}

fn epoch_number(digits: Option<&[u8]>) -> Result<u128, VersionFault>
    requires { IsTrue (are_digits (option_copied digits)) }
    ensures { Gives IsSmall result (epoch_value (option_copied digits.entry)) }
{
    match digits {
        Some(digits) => number_of(digits),
        None => Ok(0),
    }
}

// The numbers between the dots, in a list with room for no more.
fn release_numbers(alloc: Global, text: &[u8]) -> Result<Numbers, VersionFault>
    requires { IsTrue (list_all is_numeral (release_parts text.now)) }
    ensures { Gives (AllByRecursion IsSmall) result (map value (release_parts text.now)) }
{
    let count = text.split(|byte| *byte == b'.').count();
    let mut numbers = Numbers::with_room(alloc, count)?;
    let mut rest = Some(text);
    'parts: while let Some(more) = rest {
        let (part, behind) = cut_part::<NoDots>(more);
        let number = number_of(part)?;
        numbers.push(number)?;
        rest = behind;
    }
    Ok(numbers)
}

/// The part at the front of a text, which is as long as bytes of the class follow each other, and what stands behind the byte
/// that ends it, where one does. It takes no memory.
pub(crate) fn cut_part<C: ByteClass>(text: &[u8]) -> (&[u8], Option<&[u8]>)
    ensures part { result.0.now ≡ run C.holds text.now }
    ensures behind { option_copied result.1 ≡ behind_first (past C.holds text.now) }
    ensures within { length result.0.now + option_length (option_copied result.1) ≡ length text.now }
{
    let (part, rest) = cut_run::<C>(text);
    match rest {
        [_, behind @ ..] => (part, Some(behind)),
        [] => (part, None),
    }
}

fn pre_part(pre: Option<WrittenPre<'_>>) -> Result<Option<PrePart>, VersionFault>
    requires { IsTrue (are_pre_digits (pre_taken pre)) }
    ensures { Gives IsSmallPre result (pre_part_of (pre_taken pre.entry)) }
{
    match pre {
        Some(pre) => {
            let number = number_of(pre.digits)?;
            let kind = pre.kind;
            Ok(Some(PrePart { kind, number }))
        }
        None => Ok(None),
    }
}

fn option_number(digits: Option<&[u8]>) -> Result<Option<u128>, VersionFault>
    requires { IsTrue (are_digits (option_copied digits)) }
    ensures { Gives IsSmallOption result (option_map value (option_copied digits.entry)) }
{
    match digits {
        Some(digits) => {
            let number = number_of(digits)?;
            Ok(Some(number))
        }
        None => Ok(None),
    }
}

fn locals(alloc: Global, text: &[u8]) -> Result<Locals, VersionFault>
    requires { IsTrue (is_label text.now) }
    ensures { Gives (AllByRecursion IsSmallLocal) result (map local_of (label_parts text.now)) }
{
    match text {
        [_, label @ ..] => locals_of(alloc, label),
        [] => Ok(Idents::new(alloc)),
    }
}

// The parts between the separators, in a list with room for no more.
fn locals_of(alloc: Global, label: &[u8]) -> Result<Locals, VersionFault>
    requires { IsTrue (list_all is_local_text (slice_split is_separator label.now)) }
    ensures { Gives (AllByRecursion IsSmallLocal) result (map local_of (slice_split is_separator label.now)) }
{
    let count = label.split(|byte| is_separator(*byte)).count();
    let mut all = Idents::with_room(alloc, count)?;
    let mut rest = Some(label);
    'parts: while let Some(more) = rest {
        let (part, behind) = cut_part::<NoSeparators>(more);
        let next = local(alloc, part)?;
        all.push(next)?;
        rest = behind;
    }
    Ok(all)
}

fn local(alloc: Global, part: &[u8]) -> Result<Ident, VersionFault>
    requires { IsTrue (is_local_text part.now) }
    ensures { Gives IsSmallLocal result (local_of part.now) }
{
    if is_numeral(part) {
        let number = number_of(part)?;
        return Ok(Ident::Number(number));
    }
    match str::from_utf8(part) {
        Ok(text) => {
            let word = lower(alloc, text)?;
            Ok(Ident::Word(word))
        }
        Err(_) => unreachable!(),
    }
}
