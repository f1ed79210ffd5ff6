ghost use Rattle.std.specs.Prelude.{◌≡◌, ◌++◌, ℕ, List, None, map, codes, IfOk, IfNone, IfSome, MatchOption};
ghost use Rattle.purl_core.specs.Spelling.{Member};
ghost use Rattle.purl_core.specs.Value.{pair_view};
ghost use Rattle.purl_types.specs.Candidate.{HasEpoch, IsCandidate};

use purl_core::{Pair, Purl};
use std::alloc::Global;
use vx_scheme::{NoMemory, Text};

/// The version text that a package URL gives for the scheme of its type: its version, and in front of it the value of
/// the qualifier `epoch` and `:` where the type is `rpm` and there is one (ECMA-427, the type definitions). `None` comes
/// exactly where it has no version.
pub fn candidate(alloc: Global, purl: Purl) -> Result<Option<Text>, NoMemory>
    ensures { IfOk result (λ found. MatchOption found (purl.version ≡ None) (IsCandidate purl)) }
{
    match (epoch_of(&purl), &purl.version) {
        (Some(epoch), Some(version)) => {
            let text = behind_epoch(alloc, epoch, version.as_str())?;
            Ok(Some(text))
        }
        _ => Ok(purl.version),
    }
}

// The value of the qualifier `epoch` of a package URL of the type `rpm`.
fn epoch_of(purl: &Purl) -> Option<&str>
    ensures { MatchOption result ((epoch : List ℕ) → ¬ (HasEpoch purl.now epoch)) (λ epoch. HasEpoch purl.now epoch.now) }
{
    if purl.kind.as_str() == "rpm" {
        value_of(purl.qualifiers.as_slice(), "epoch")
    } else {
        None
    }
}

// The value of a key.
fn value_of<'a>(pairs: &'a [Pair], key: &str) -> Option<&'a str>
    ensures some { IfSome result (λ value. Member (key.now, value.now) (map pair_view pairs.now)) }
    ensures none { IfNone result ((value : List ℕ) → ¬ (Member (key.now, value) (map pair_view pairs.now))) }
{
    'pairs: for pair in pairs {
        if pair.key.as_str() == key {
            return Some(pair.value.as_str());
        }
    }
    None
}

fn behind_epoch(alloc: Global, epoch: &str, version: &str) -> Result<Text, NoMemory>
    ensures { IfOk result (λ text. text ≡ epoch.now ++ codes ":" ++ version.now) }
{
    let room = epoch.len().saturating_add(version.len()).saturating_add(1);
    let mut text = Text::with_room(alloc, room)?;
    text.push_str(epoch)?;
    text.push_str(":")?;
    text.push_str(version)?;
    Ok(text)
}
