ghost use Rattle.std.specs.Prelude.{◌≡◌, IfOk};

use std::alloc::Global;
use std::marker::Model;
use vx_order::{Letters, copy_letters};
use vx_scheme::{NoMemory, Text, copy_text};

/// A version of Debian: its text spells the other fields, and its numerals are within 2^128-1.
#[derive(Debug, Drop)]
pub struct DebVersion {
    /// The text, as it was written.
    pub text: Text,
    /// The epoch, 0 where it is left out.
    pub epoch: u128,
    /// The letters of the upstream part.
    pub upstream: Letters,
    /// The letters of the revision, those of `0` where it is left out.
    pub revision: Letters,
}

impl Model for DebVersion {
    ghost use Rattle.deb_scheme.specs.Version.{Fields, IsWithin};
    ghost use Rattle.deb_scheme.specs.Spelling.{IsVersion};

    ghost Value = { Fields };

    ghost view = { λ v. record { text = v.text; epoch = v.epoch; upstream = v.upstream; revision = v.revision } };

    ghost invariant = { λ v. IsVersion (record { text = v.text; epoch = v.epoch; upstream = v.upstream; revision = v.revision }) × IsWithin (record { text = v.text; epoch = v.epoch; upstream = v.upstream; revision = v.revision }) };
}

/// The same version once more.
pub(crate) fn copy(alloc: Global, version: &DebVersion) -> Result<DebVersion, NoMemory>
    ensures { IfOk result (λ copied. copied ≡ version.now) }
{
    let text = copy_text(alloc, &version.text)?;
    let upstream = copy_letters(alloc, &version.upstream)?;
    let revision = copy_letters(alloc, &version.revision)?;
    Ok(DebVersion {
        text,
        epoch: version.epoch,
        upstream,
        revision,
    })
}
