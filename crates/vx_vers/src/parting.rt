ghost use Rattle.std.specs.Prelude.{◌≡◌, ◌≢◌, ◌==◌, ◌<◌, ◌++◌, ℕ, List, not, filter, count_by, IfOk, OnOk, MatchOption};
ghost use Rattle.std.specs.List.{list_all, list_any};
ghost use Rattle.vx_spec.specs.Runs.{is_solid};
ghost use Rattle.vx_vers.specs.Heads.{solid};
ghost use Rattle.vx_vers.specs.Grammar.{IsSigned};
ghost use Rattle.vx_vers.specs.Steps.Reading.{HasNoLongSign, is_plain, is_some_part, is_star, parts_of};

use crate::constraints::Comparator;
use std::alloc::Global;
use vx_scheme::{NoMemory, Text};
use vx_text::{ByteClass, Solids, cut};

/// Whether the text has no blank, `%` or `*`. It takes no memory.
pub(crate) fn is_plain(text: &str) -> bool
    ensures { result ≡ list_all is_plain text.now }
{
    text.as_bytes().iter().all(|byte| Solids::is_one(*byte) && *byte != b'%' && *byte != b'*')
}

/// Whether the text has no blank. It takes no memory.
pub(crate) fn is_solid(text: &str) -> bool
    ensures { result ≡ list_all is_solid text.now }
{
    text.as_bytes().iter().all(|byte| Solids::is_one(*byte))
}

/// The text without its blanks.
pub(crate) fn without_blanks(alloc: Global, text: &str) -> Result<Text, NoMemory>
    ensures { IfOk result (λ plain. plain ≡ solid text.now) }
{
    let mut out = Text::with_room(alloc, text.len())?;
    let mut rest = Some(text);
    'parts: while let Some(more) = rest {
        let (front, behind) = cut(more, ' ');
        push_untabbed(&mut out, front)?;
        rest = behind;
    }
    Ok(out)
}

/// Appends the text without its tabs.
fn push_untabbed(out: &mut Text, text: &str) -> Result<(), NoMemory>
    ensures { OnOk result (out.new ≡ out.old ++ filter (λ b. not (b == 9)) text.now) }
{
    let mut rest = Some(text);
    'parts: while let Some(more) = rest {
        let (front, behind) = cut(more, '\t');
        out.push_str(front)?;
        rest = behind;
    }
    Ok(())
}

/// How many parts between the bars are not empty. It takes no memory.
pub(crate) fn count_parts(text: &str) -> usize
    ensures { result ≡ count_by is_some_part (parts_of text.now) }
{
    text.split('|').filter(|part| !part.is_empty()).count()
}

/// How many bars there are. It takes no memory.
pub(crate) fn count_bars(text: &str) -> usize
    ensures { result ≡ count_by (λ b. b == 124) text.now }
{
    text.as_bytes().iter().filter(|byte| **byte == b'|').count()
}

/// Whether one of the parts between the bars is `*`. It takes no memory.
pub(crate) fn has_star(text: &str) -> bool
    ensures { result ≡ list_any is_star (parts_of text.now) }
{
    text.split('|').any(|part| part == "*")
}

/// What stands behind the front, where the text begins with it.
pub(crate) fn behind<'a>(text: &'a str, front: &str) -> Option<&'a str>
    ensures { MatchOption result ((rest : List ℕ) → text.now ≢ front.now ++ rest) (λ rest. text.now ≡ front.now ++ rest.now) }
{
    text.strip_prefix(front)
}

/// The longest comparator that the text begins with, and what stands behind it.
pub(crate) fn cut_sign(text: &str) -> (Comparator, &str)
    ensures { IsSigned text.now result.0 result.1.now }
{
    if let Some(rest) = behind(text, "<=") {
        return (Comparator::LessEqual, rest);
    }
    if let Some(rest) = behind(text, ">=") {
        return (Comparator::GreaterEqual, rest);
    }
    if let Some(rest) = behind(text, "!=") {
        return (Comparator::NotEqual, rest);
    }
    cut_short_sign(text)
}

/// The same of a text that begins with no comparator of two characters.
fn cut_short_sign(text: &str) -> (Comparator, &str)
    requires { HasNoLongSign text.now }
    ensures { IsSigned text.now result.0 result.1.now }
{
    if let Some(rest) = behind(text, "<") {
        return (Comparator::Less, rest);
    }
    if let Some(rest) = behind(text, ">") {
        return (Comparator::Greater, rest);
    }
    if let Some(rest) = behind(text, "=") {
        return (Comparator::Equal, rest);
    }
    (Comparator::Equal, text)
}
