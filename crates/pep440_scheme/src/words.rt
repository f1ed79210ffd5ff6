ghost use Rattle.std.specs.Prelude.{◌≡◌};
ghost use Rattle.std.specs.Option.{option_copied};
ghost use Rattle.pep440_scheme.specs.Words.{mark_words, pre_words, later_words};
ghost use Rattle.pep440_scheme.specs.Spelling.{is_separator};
ghost use Rattle.pep440_scheme.specs.Steps.Apart.{after_gap, after_word, first_word, suffix_at};
ghost use Rattle.pep440_scheme.specs.Steps.Written.{begun, taken};

use crate::version::PreKind;
use vx_text::{Digits, cut_run};

/// What a word of a version's text begins, PEP 440, "Normalization".
#[derive(Clone, Copy, Debug, PartialEq, Eq)]
pub enum Mark {
    /// A pre-release of this kind.
    Pre(PreKind),
    /// A post-release.
    Post,
    /// A developmental release.
    Dev,
}

const ALPHA: Mark = Mark::Pre(PreKind::A);

const BETA: Mark = Mark::Pre(PreKind::B);

const CANDIDATE: Mark = Mark::Pre(PreKind::Rc);

/// A word at the front of a text: its mark, and what stands behind it.
#[derive(Clone, Copy)]
pub(crate) struct BegunWord<'a> {
    /// What the word begins.
    pub(crate) mark: Mark,
    /// What stands behind it.
    pub(crate) rest: &'a [u8],
}

/// A pre-, post- or dev-release at the front of a text: its digits, none where they are left out, and what stands behind it.
#[derive(Clone, Copy)]
pub(crate) struct Suffix<'a> {
    /// What its word stands for.
    pub(crate) mark: Mark,
    /// Its digits.
    pub(crate) digits: &'a [u8],
    /// What stands behind it.
    pub(crate) rest: &'a [u8],
}

/// Whether the byte is '.', '-' or '_'. It takes no memory.
pub(crate) fn is_separator(byte: u8) -> bool
    ensures { result ≡ is_separator byte }
{
    byte == b'.' || byte == b'-' || byte == b'_'
}

fn after_gap(text: &[u8]) -> &[u8]
    ensures { result.now ≡ after_gap text.now }
{
    match text {
        [first, rest @ ..] if is_separator(*first) => rest,
        _ => text,
    }
}

/// What stands behind the word, where the text begins with it in any case of its letters. It takes no memory.
#[tactic(auto, unfolding(crate::specs::Steps::Apart::after_word))]
fn after_word<'a>(text: &'a [u8], word: &[u8]) -> Option<&'a [u8]>
    ensures { option_copied result ≡ after_word word.now text.now }
{
    let mut rest = text;
    for letter in word {
        let [first, more @ ..] = rest else {
            return None;
        };
        if first.to_ascii_lowercase() != *letter {
            return None;
        }
        rest = more;
    }
    Some(rest)
}

/// The first word of PEP 440's with which the text begins: a word is looked for before those that begin it. It takes no
/// memory.
fn first_word(text: &[u8]) -> Option<BegunWord<'_>>
    ensures { begun result ≡ first_word mark_words text.now }
{
    match pre_word(text) {
        Some(word) => Some(word),
        None => later_word(text),
    }
}

fn pre_word(text: &[u8]) -> Option<BegunWord<'_>>
    ensures { begun result ≡ first_word pre_words text.now }
{
    if let Some(rest) = after_word(text, b"alpha") {
        return Some(BegunWord { mark: ALPHA, rest });
    }
    if let Some(rest) = after_word(text, b"a") {
        return Some(BegunWord { mark: ALPHA, rest });
    }
    if let Some(rest) = after_word(text, b"beta") {
        return Some(BegunWord { mark: BETA, rest });
    }
    if let Some(rest) = after_word(text, b"b") {
        return Some(BegunWord { mark: BETA, rest });
    }
    if let Some(rest) = after_word(text, b"preview") {
        return Some(BegunWord {
            mark: CANDIDATE,
            rest,
        });
    }
    if let Some(rest) = after_word(text, b"pre") {
        return Some(BegunWord {
            mark: CANDIDATE,
            rest,
        });
    }
    if let Some(rest) = after_word(text, b"rc") {
        return Some(BegunWord {
            mark: CANDIDATE,
            rest,
        });
    }
    if let Some(rest) = after_word(text, b"c") {
        return Some(BegunWord {
            mark: CANDIDATE,
            rest,
        });
    }
    None
}

fn later_word(text: &[u8]) -> Option<BegunWord<'_>>
    ensures { begun result ≡ first_word later_words text.now }
{
    if let Some(rest) = after_word(text, b"post") {
        return Some(BegunWord {
            mark: Mark::Post,
            rest,
        });
    }
    if let Some(rest) = after_word(text, b"rev") {
        return Some(BegunWord {
            mark: Mark::Post,
            rest,
        });
    }
    if let Some(rest) = after_word(text, b"r") {
        return Some(BegunWord {
            mark: Mark::Post,
            rest,
        });
    }
    if let Some(rest) = after_word(text, b"dev") {
        return Some(BegunWord {
            mark: Mark::Dev,
            rest,
        });
    }
    None
}

/// The pre-, post- or dev-release at the front of the text. It takes no memory.
#[tactic(auto, unfolding(crate::specs::Steps::Apart::suffix_at))]
pub(crate) fn suffix_at(text: &[u8]) -> Option<Suffix<'_>>
    ensures { taken result ≡ suffix_at text.now }
{
    let word = first_word(after_gap(text))?;
    let (digits, rest) = cut_run::<Digits>(after_gap(word.rest));
    Some(Suffix {
        mark: word.mark,
        digits,
        rest,
    })
}
