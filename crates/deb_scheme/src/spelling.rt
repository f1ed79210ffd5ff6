ghost use Rattle.std.specs.Prelude.{◌↔◌, IfErr, IfOk, IsTrue};
ghost use Rattle.std.specs.Option.{option_copied};
ghost use Rattle.std.specs.List.{AllByRecursion};
ghost use Rattle.vx_scheme.specs.Scheme.{Refuses};
ghost use Rattle.vx_scheme.specs.Values.{Gives};
ghost use Rattle.vx_order.specs.Letters.{LetterIsWithin};
ghost use Rattle.deb_scheme.specs.Version.{IsWithin, letters_of};
ghost use Rattle.deb_scheme.specs.Spelling.{IsVersionText, Spells, revision_text};

use crate::letters::letters;
use crate::version::DebVersion;
use std::alloc::Global;
use vx_order::Letters;
use vx_scheme::{Text, VersionFault};
use vx_text::{
    ByteClass, EpochParts, EpochVersions, epoch_number, epoch_version, is_epoch_version, is_made_of,
};

// The bytes of an upstream part.
struct UpstreamBytes;

impl ByteClass for UpstreamBytes {
    ghost use Rattle.deb_scheme.specs.Spelling.{is_upstream_byte};

    ghost holds = { is_upstream_byte };

    fn is_one(byte: u8) -> bool {
        RevisionBytes::is_one(byte) || byte == b'-'
    }
}

// The bytes of a revision.
struct RevisionBytes;

impl ByteClass for RevisionBytes {
    ghost use Rattle.deb_scheme.specs.Spelling.{is_revision_byte};

    ghost holds = { is_revision_byte };

    fn is_one(byte: u8) -> bool {
        byte.is_ascii_alphanumeric() || byte == b'.' || byte == b'+' || byte == b'~'
    }
}

// Versions by their parts: the upstream part is the main one, and the revision the last.
struct ByParts;

impl EpochVersions for ByParts {
    ghost use Rattle.deb_scheme.specs.Version.{IsWithin};
    ghost use Rattle.deb_scheme.specs.Spelling.{is_revision, is_upstream, version_of};
    ghost use Rattle.deb_scheme.specs.Laws.Unique.{revision_lacks, upstream_lacks};

    type Version = DebVersion;

    ghost main_form = { is_upstream };

    ghost last_form = { is_revision };

    ghost version_of = { version_of };

    ghost IsWithin = { IsWithin };

    ghost main_lacks = { upstream_lacks };

    ghost last_lacks = { revision_lacks };

    fn is_main(part: &[u8]) -> bool {
        is_made_of::<UpstreamBytes>(part)
    }

    fn is_last(part: &[u8]) -> bool {
        is_made_of::<RevisionBytes>(part)
    }

    fn of_parts(alloc: Global, text: &str, found: &EpochParts) -> Result<DebVersion, VersionFault> {
        let epoch = epoch_number(found.epoch)?;
        let upstream = letters(alloc, found.main)?;
        let revision = revision_letters(alloc, found.last)?;
        let text = Text::copy_of(alloc, text)?;
        Ok(DebVersion {
            text,
            epoch,
            upstream,
            revision,
        })
    }
}

/// The version that the text spells.
pub(crate) fn read(alloc: Global, text: &str) -> Result<DebVersion, VersionFault>
    ensures ok { IfOk result (λ v. Spells text.now v × IsWithin v) }
    ensures err { IfErr result (Refuses Spells IsWithin text.now) }
{
    epoch_version::<ByParts>(alloc, text)
}

/// Whether the text spells a version, with numerals of any length. It takes no memory.
pub fn is_version(text: &str) -> bool
    ensures { IsTrue result ↔ IsVersionText text.now }
{
    is_epoch_version::<ByParts>(text)
}

fn revision_letters(alloc: Global, part: Option<&[u8]>) -> Result<Letters, VersionFault>
    ensures { Gives (AllByRecursion LetterIsWithin) result (letters_of (revision_text (option_copied part.entry))) }
{
    match part {
        Some(part) => letters(alloc, part),
        None => letters(alloc, b"0"),
    }
}
