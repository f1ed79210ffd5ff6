ghost use Rattle.std.specs.Prelude.{◌≡◌, IfOk};
ghost use Rattle.rpm_scheme.specs.Version.{front_text, without_release};

use std::alloc::Global;
use std::marker::Model;
use vx_order::{Letters, copy_letters};
use vx_scheme::{NoMemory, Text, copy_text};
use vx_text::cut;

/// A version of RPM: its text spells the other fields, and its numerals are within 2^128-1.
#[derive(Debug, Drop)]
pub struct RpmVersion {
    /// The text, as it was written.
    pub text: Text,
    /// The epoch, 0 where it is left out.
    pub epoch: u128,
    /// The letters of the version.
    pub version: Letters,
    /// The letters of the release, where there is one.
    pub release: Option<Letters>,
}

impl Model for RpmVersion {
    ghost use Rattle.rpm_scheme.specs.Version.{Fields, IsWithin};
    ghost use Rattle.rpm_scheme.specs.Spelling.{IsVersion};

    ghost Value = { Fields };

    ghost view = { λ v. record { text = v.text; epoch = v.epoch; version = v.version; release = v.release } };

    ghost invariant = { λ v. IsVersion (record { text = v.text; epoch = v.epoch; version = v.version; release = v.release }) × IsWithin (record { text = v.text; epoch = v.epoch; version = v.version; release = v.release }) };
}

/// The same version once more.
pub(crate) fn copy(alloc: Global, version: &RpmVersion) -> Result<RpmVersion, NoMemory>
    ensures { IfOk result (λ copied. copied ≡ version.now) }
{
    let text = copy_text(alloc, &version.text)?;
    let letters = copy_letters(alloc, &version.version)?;
    let release = copy_release(alloc, &version.release)?;
    Ok(RpmVersion {
        text,
        epoch: version.epoch,
        version: letters,
        release,
    })
}

fn copy_release(alloc: Global, release: &Option<Letters>) -> Result<Option<Letters>, NoMemory>
    ensures { IfOk result (λ copied. copied ≡ release.now) }
{
    match release {
        Some(letters) => Ok(Some(copy_letters(alloc, letters)?)),
        None => Ok(None),
    }
}

/// The version without its release: that of the text before the `-`. It takes no memory.
pub fn without_release(version: RpmVersion) -> RpmVersion
    ensures { result ≡ without_release version }
{
    let RpmVersion {
        text,
        epoch,
        version,
        release: _,
    } = version;
    let text = front_of(text);
    RpmVersion {
        text,
        epoch,
        version,
        release: None,
    }
}

// What stands before the first `-`, or the whole text where there is none.
fn front_of(text: Text) -> Text
    ensures { result ≡ front_text text }
{
    let (front, _) = cut(text.as_str(), '-');
    let len = front.len();
    let mut text = text;
    text.cut(len);
    text
}
