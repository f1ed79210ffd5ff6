ghost use Rattle.std.specs.Prelude.{◌≡◌, ◌++◌, ◌∷◌, OnOk};
ghost use Rattle.vx_spec.specs.Numerals.{numeral_text};
ghost use Rattle.vx_text.specs.Begun.{IsBegunBy};
ghost use Rattle.vx_spec.specs.Signs.{dot};
ghost use Rattle.nuget_scheme.specs.Writing.{numbers_text};
ghost use Rattle.nuget_scheme.specs.Steps.Fourth.{fourth_text};

use crate::version::NugetVersion;
use vx_order::push_pre_release;
use vx_scheme::{NoMemory, Text};
use vx_text::Pushes;

impl Pushes for NugetVersion {
    ghost use Rattle.nuget_scheme.specs.Writing.{normal};

    ghost text = { normal };

    /// Appends the normal text.
    fn push(&self, out: &mut Text) -> Result<(), NoMemory> {
        push_numbers(out, self)?;
        push_pre_release(out, self.labels.as_slice())
    }
}

// The three numbers, and the fourth where it is not 0.
fn push_numbers(out: &mut Text, version: &NugetVersion) -> Result<(), NoMemory>
    ensures ok { OnOk result (out.new ≡ out.old ++ numbers_text version.now) }
    ensures begun { IsBegunBy out.old out.new }
{
    out.push_number(version.major)?;
    push_number_behind(out, version.minor)?;
    push_number_behind(out, version.patch)?;
    push_fourth(out, version.fourth)
}

fn push_fourth(out: &mut Text, fourth: u128) -> Result<(), NoMemory>
    ensures ok { OnOk result (out.new ≡ out.old ++ fourth_text fourth) }
    ensures begun { IsBegunBy out.old out.new }
{
    if fourth == 0 {
        return Ok(());
    }
    push_number_behind(out, fourth)
}

fn push_number_behind(out: &mut Text, number: u128) -> Result<(), NoMemory>
    ensures ok { OnOk result (out.new ≡ out.old ++ (dot ∷ numeral_text number)) }
    ensures begun { IsBegunBy out.old out.new }
{
    out.push_str(".")?;
    out.push_number(number)
}
