ghost use Rattle.std.specs.Prelude.{◌↔◌, ◌≡◌, IfErr, IfOk, IsTrue};
ghost use Rattle.std.specs.Char.{is_ascii_alphanumeric};
ghost use Rattle.std.specs.List.{list_all};
ghost use Rattle.std.specs.Option.{option_copied};
ghost use Rattle.vx_spec.specs.Runs.{begins};
ghost use Rattle.vx_scheme.specs.Scheme.{Refuses};
ghost use Rattle.vx_scheme.specs.Values.{Gives};
ghost use Rattle.rpm_scheme.specs.Version.{IsWithin, ReleaseIsWithin};
ghost use Rattle.rpm_scheme.specs.Spelling.{IsVersionText, Spells, is_part, is_part_byte, release_letters};

use crate::letters::letters;
use crate::version::RpmVersion;
use std::alloc::Global;
use vx_order::Letters;
use vx_scheme::{Text, VersionFault};
use vx_text::{EpochParts, EpochVersions, epoch_number, epoch_version, is_epoch_version};

// Versions by their parts: the version is the main part, and the release the last.
struct ByParts;

impl EpochVersions for ByParts {
    ghost use Rattle.rpm_scheme.specs.Version.{IsWithin};
    ghost use Rattle.rpm_scheme.specs.Spelling.{is_part, version_of};
    ghost use Rattle.rpm_scheme.specs.Laws.Unique.{release_lacks, version_lacks};

    type Version = RpmVersion;

    ghost main_form = { is_part };

    ghost last_form = { is_part };

    ghost version_of = { version_of };

    ghost IsWithin = { IsWithin };

    ghost main_lacks = { version_lacks };

    ghost last_lacks = { release_lacks };

    fn is_main(part: &[u8]) -> bool {
        is_part(part)
    }

    fn is_last(part: &[u8]) -> bool {
        is_part(part)
    }

    fn of_parts(alloc: Global, text: &str, found: &EpochParts) -> Result<RpmVersion, VersionFault> {
        let epoch = epoch_number(found.epoch)?;
        let version = letters(alloc, found.main)?;
        let release = release_letters(alloc, found.last)?;
        let text = Text::copy_of(alloc, text)?;
        Ok(RpmVersion {
            text,
            epoch,
            version,
            release,
        })
    }
}

/// The version that the text spells.
pub(crate) fn read(alloc: Global, text: &str) -> Result<RpmVersion, VersionFault>
    ensures ok { IfOk result (λ v. Spells text.now v × IsWithin v) }
    ensures err { IfErr result (Refuses Spells IsWithin text.now) }
{
    epoch_version::<ByParts>(alloc, text)
}

/// Whether the text spells a version, with numerals of any length. It takes no memory.
pub fn is_version(text: &str) -> bool
    ensures { IsTrue result ↔ IsVersionText text.now }
{
    is_epoch_version::<ByParts>(text)
}

fn is_part(part: &[u8]) -> bool
    ensures { result ≡ is_part part.now }
{
    begins_alphanumeric(part) && has_part_bytes(part)
}

fn begins_alphanumeric(part: &[u8]) -> bool
    ensures { result ≡ begins is_ascii_alphanumeric part.now }
{
    match part {
        [first, ..] => first.is_ascii_alphanumeric(),
        [] => false,
    }
}

fn has_part_bytes(part: &[u8]) -> bool
    ensures { result ≡ list_all is_part_byte part.now }
{
    part.iter().all(|byte| is_part_byte(*byte))
}

fn is_part_byte(byte: u8) -> bool
    ensures { result ≡ is_part_byte byte }
{
    byte.is_ascii_alphanumeric() || matches!(byte, b'.' | b'_' | b'+' | b'~' | b'^')
}

fn release_letters(alloc: Global, part: Option<&[u8]>) -> Result<Option<Letters>, VersionFault>
    ensures { Gives ReleaseIsWithin result (release_letters (option_copied part.entry)) }
{
    match part {
        Some(part) => Ok(Some(letters(alloc, part)?)),
        None => Ok(None),
    }
}
