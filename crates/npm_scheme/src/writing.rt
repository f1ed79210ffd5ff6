ghost use Rattle.std.specs.Prelude.{◌≡◌, ◌++◌, ◌∷◌, [], OnOk};
ghost use Rattle.vx_spec.specs.Numerals.{numeral_text};
ghost use Rattle.vx_text.specs.Begun.{IsBegunBy};
ghost use Rattle.vx_spec.specs.Signs.{dot};
ghost use Rattle.npm_scheme.specs.Writing.{numbers_text};

use crate::version::NpmVersion;
use vx_order::push_pre_release;
use vx_scheme::{NoMemory, Text};
use vx_text::Pushes;

impl Pushes for NpmVersion {
    ghost use Rattle.npm_scheme.specs.Writing.{normal};

    ghost text = { normal };

    /// Appends the normal text.
    fn push(&self, out: &mut Text) -> Result<(), NoMemory> {
        push_core(out, self)?;
        push_pre_release(out, self.pre.as_slice())
    }
}

// The three numbers.
fn push_core(out: &mut Text, version: &NpmVersion) -> Result<(), NoMemory>
    ensures ok { OnOk result (out.new ≡ out.old ++ numbers_text version.now) }
    ensures begun { IsBegunBy out.old out.new }
{
    push_dotted(out, version.major)?;
    push_dotted(out, version.minor)?;
    out.push_number(version.patch)
}

fn push_dotted(out: &mut Text, number: u128) -> Result<(), NoMemory>
    ensures ok { OnOk result (out.new ≡ out.old ++ (numeral_text number ++ dot ∷ [])) }
    ensures begun { IsBegunBy out.old out.new }
{
    out.push_number(number)?;
    out.push_str(".")
}
