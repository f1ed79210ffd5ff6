ghost use Rattle.std.specs.Prelude.{◌≡◌, ◌≢◌, ◌↔◌, ℕ, Bool, true, IfSome, IsTrue, MatchOption};
ghost use Rattle.std.specs.List.{list_all};
ghost use Rattle.vx_scheme.specs.declared.name.SchemeName.{SchemeName};
ghost use Rattle.vx_scheme.specs.Names.{text_of};
ghost use Rattle.vx_text.specs.Folding.{lowered};
ghost use Rattle.vx_vers.specs.Heads.{HasHead, HeadIs, IsNamed, NoHead, solid};

use crate::parting::behind;
use vx_scheme::SchemeName;
use vx_text::{ByteClass, Solids, cut};

/// The scheme of the head of the text: `vers:`, the scheme's name and `/`, in any case of ASCII letters and with blanks
/// anywhere. `None` comes exactly where the text has no head. It takes no memory.
pub fn head(text: &str) -> Option<SchemeName>
    ensures { MatchOption result (NoHead text.now) (HeadIs text.now) }
{
    match cut_head(text) {
        Some((name, _)) => Some(name),
        None => None,
    }
}

/// The scheme of the head, and what stands behind it.
pub(crate) fn cut_head(text: &str) -> Option<(SchemeName, &str)>
    ensures head { MatchOption result (NoHead text.now) (λ p. HasHead (solid text.now) p.0 (solid p.1.now)) }
    ensures behind { IfSome result (λ p. (test : ℕ → Bool) → list_all test text.now ≡ true → list_all test p.1.now ≡ true) }
{
    match cut_usual_head(text) {
        Some(found) => Some(found),
        None => cut_any_head(text),
    }
}

/// The same of a head in lower case and without blanks, which is told by comparison alone.
fn cut_usual_head(text: &str) -> Option<(SchemeName, &str)>
    ensures head { IfSome result (λ p. HasHead (solid text.now) p.0 (solid p.1.now)) }
    ensures behind { IfSome result (λ p. (test : ℕ → Bool) → list_all test text.now ≡ true → list_all test p.1.now ≡ true) }
{
    let Some(named) = behind(text, "vers:") else {
        return None;
    };
    let (front, behind) = cut(named, '/');
    let Some(rest) = behind else {
        return None;
    };
    match SchemeName::named(front) {
        Some(name) => Some((name, rest)),
        None => None,
    }
}

/// The same of any head.
fn cut_any_head(text: &str) -> Option<(SchemeName, &str)>
    ensures head { MatchOption result (NoHead text.now) (λ p. HasHead (solid text.now) p.0 (solid p.1.now)) }
    ensures behind { IfSome result (λ p. (test : ℕ → Bool) → list_all test text.now ≡ true → list_all test p.1.now ≡ true) }
{
    let (front, behind) = cut(text, '/');
    let Some(rest) = behind else {
        return None;
    };
    match name_in_front(front) {
        Some(name) => Some((name, rest)),
        None => None,
    }
}

/// The scheme that the text before the `/` names.
fn name_in_front(front: &str) -> Option<SchemeName>
    ensures { MatchOption result ((name : SchemeName) → ¬ (IsNamed (solid front.now) name)) (λ name. IsNamed (solid front.now) name) }
{
    let (word, behind) = cut(front, ':');
    let Some(name) = behind else {
        return None;
    };
    if spells_word(word.as_bytes(), b"vers") {
        scheme_named(name.as_bytes())
    } else {
        None
    }
}

/// The scheme of this name.
fn scheme_named(text: &[u8]) -> Option<SchemeName>
    ensures { MatchOption result ((name : SchemeName) → lowered (solid text.now) ≢ text_of name) (λ name. lowered (solid text.now) ≡ text_of name) }
{
    for name in [
        SchemeName::Npm,
        SchemeName::Pypi,
        SchemeName::Maven,
        SchemeName::Gem,
        SchemeName::Deb,
        SchemeName::Rpm,
        SchemeName::Nuget,
        SchemeName::Cargo,
    ] {
        if spells_word(text, name.name_text().as_bytes()) {
            return Some(name);
        }
    }
    None
}

/// Whether the text is the word, in any case of ASCII letters and with blanks anywhere.
fn spells_word(text: &[u8], word: &[u8]) -> bool
    ensures { IsTrue result ↔ (lowered (solid text.now) ≡ word.now) }
{
    let mut rest = word;
    for byte in text {
        if !Solids::is_one(*byte) {
            continue;
        }
        let [first, more @ ..] = rest else {
            return false;
        };
        if *first != byte.to_ascii_lowercase() {
            return false;
        }
        rest = more;
    }
    rest.is_empty()
}
