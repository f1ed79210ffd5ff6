ghost use Rattle.std.specs.Prelude.{◌≡◌, IfOk};

use std::alloc::Global;
use std::marker::Model;
use vx_scheme::{Idents, List, NoMemory, copy_idents};

/// The kind of a pre-release, PEP 440, "Pre-releases".
#[derive(Clone, Copy, Debug, PartialEq, Eq)]
pub enum PreKind {
    /// An alpha release.
    A,
    /// A beta release.
    B,
    /// A release candidate.
    Rc,
}

/// A pre-release: its kind, and its number.
#[derive(Clone, Copy, Debug, PartialEq, Eq)]
pub struct PrePart {
    /// The kind.
    pub kind: PreKind,
    /// The number.
    pub number: u128,
}

/// The numbers of a release.
pub type Numbers = List<u128>;

/// The parts of a local version label.
pub type Locals = Idents;

/// A version of PyPI: some text spells its fields, and its numbers are within 2^128-1.
#[derive(Debug, Drop)]
pub struct Pep440Version {
    /// The epoch, 0 where it is left out.
    pub epoch: u128,
    /// The numbers of the release, one or more.
    pub release: Numbers,
    /// The pre-release, where it is one.
    pub pre: Option<PrePart>,
    /// The number of the post-release, where it is one.
    pub post: Option<u128>,
    /// The number of the developmental release, where it is one.
    pub dev: Option<u128>,
    /// The local version label; empty where the version is public.
    pub local: Locals,
}

impl Model for Pep440Version {
    ghost use Rattle.pep440_scheme.specs.Version.{Fields, IsVersion, IsWithin};

    ghost Value = { Fields };

    ghost view = { λ v. record { epoch = v.epoch; release = v.release; pre = v.pre; post = v.post; dev = v.dev; local = v.local } };

    ghost invariant = { λ v. IsVersion (record { epoch = v.epoch; release = v.release; pre = v.pre; post = v.post; dev = v.dev; local = v.local }) × IsWithin (record { epoch = v.epoch; release = v.release; pre = v.pre; post = v.post; dev = v.dev; local = v.local }) };
}

/// The same version once more.
pub(crate) fn copy(alloc: Global, version: &Pep440Version) -> Result<Pep440Version, NoMemory>
    ensures { IfOk result (λ copied. copied ≡ version.now) }
{
    let release = copy_numbers(alloc, version.release.as_slice())?;
    let local = copy_idents(alloc, &version.local)?;
    Ok(Pep440Version {
        epoch: version.epoch,
        release,
        pre: version.pre,
        post: version.post,
        dev: version.dev,
        local,
    })
}

/// The same numbers once more.
pub fn copy_numbers(alloc: Global, numbers: &[u128]) -> Result<Numbers, NoMemory>
    ensures { IfOk result (λ copied. copied ≡ numbers.now) }
{
    let mut copied = Numbers::with_room(alloc, numbers.len())?;
    for number in numbers {
        copied.push(*number)?;
    }
    Ok(copied)
}
