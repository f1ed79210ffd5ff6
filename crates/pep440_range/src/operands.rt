ghost use Rattle.std.specs.Prelude.{◌≡◌};
ghost use Rattle.pep440_scheme.specs.Version.{Fields};
ghost use Rattle.pep440_scheme.specs.Shape.{HasShape};
ghost use Rattle.pep440_range.specs.Steps.Operands.{asked_by, construct_of, is_asked};

use crate::construct::{Comparison, Construct};
use pep440_scheme::{Pep440Version, Shape};

/// What an operator asks of a version.
#[derive(Clone, Copy)]
pub(crate) enum Asked {
    /// Nothing.
    Any,
    /// That it is public.
    Public,
    /// That it is public, and that its release has two numbers or more.
    Compatible,
    /// That it is an epoch and a release alone.
    Release,
}

/// Whether a version of this shape is as it is asked for. It takes no memory.
pub(crate) fn is_met(asked: Asked, shape: Shape) -> bool
    ensures { (v : Fields) → HasShape shape v → result ≡ is_asked asked v }
{
    match asked {
        Asked::Any => true,
        Asked::Public => shape.is_public,
        Asked::Compatible => shape.is_public && shape.has_two_numbers,
        Asked::Release => shape.is_public && shape.is_bare,
    }
}

/// Which construct is made of a version.
#[derive(Clone, Copy)]
pub(crate) enum Form {
    /// One of an operator that takes a public version.
    Compares(Comparison),
    /// `==V`
    Equal,
    /// `!=V`
    NotEqual,
    /// `==R.*`
    Within,
    /// `!=R.*`
    NotWithin,
}

/// The construct of this form. It takes no memory.
pub(crate) fn construct_of(form: Form, version: Pep440Version) -> Construct
    ensures { result ≡ construct_of form version }
{
    match form {
        Form::Compares(how) => Construct::Compares(how, version),
        Form::Equal => Construct::Equal(version),
        Form::NotEqual => Construct::NotEqual(version),
        Form::Within => Construct::Within(version),
        Form::NotWithin => Construct::NotWithin(version),
    }
}

/// What an operator asks of its public version. It takes no memory.
pub(crate) fn asked_by(how: Comparison) -> Asked
    ensures { result ≡ asked_by how }
{
    match how {
        Comparison::Compatible => Asked::Compatible,
        Comparison::LessOrEqual
        | Comparison::GreaterOrEqual
        | Comparison::Less
        | Comparison::Greater => Asked::Public,
    }
}
