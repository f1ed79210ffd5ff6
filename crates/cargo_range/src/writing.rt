ghost use Rattle.std.specs.Prelude.{◌≡◌, ◌<◌, ◌^◌, ◌++◌, ◌∷◌, [], List, ℕ, codes, OnOk};
ghost use Rattle.std.specs.Fmt.{decimal};
ghost use Rattle.semver.specs.Identifiers.{marked, pre_text};
ghost use Rattle.vx_text.specs.Begun.{IsBegunBy};

use crate::version::CargoVersion;
use semver::Prerelease;
use vx_scheme::{NoMemory, Text};
use vx_text::Pushes;

impl Pushes for CargoVersion {
    ghost use Rattle.cargo_range.specs.Writing.{normal};

    ghost text = { normal };

    /// Appends the normal text.
    fn push(&self, out: &mut Text) -> Result<(), NoMemory> {
        let version = &self.inner;
        push_dotted(out, version.major)?;
        push_dotted(out, version.minor)?;
        push_number(out, version.patch)?;
        push_pre(out, &version.pre)
    }
}

fn push_dotted(out: &mut Text, number: u64) -> Result<(), NoMemory>
    ensures ok { OnOk result (out.new ≡ out.old ++ (decimal number ++ codes ".")) }
    ensures begun { IsBegunBy out.old out.new }
{
    push_number(out, number)?;
    out.push_str(".")
}

fn push_number(out: &mut Text, number: u64) -> Result<(), NoMemory>
    ensures ok { OnOk result (out.new ≡ out.old ++ decimal number) }
    ensures begun { IsBegunBy out.old out.new }
{
    out.push_number(u128::from(number))
}

// The pre-release behind its sign, where there is one.
fn push_pre(out: &mut Text, pre: &Prerelease) -> Result<(), NoMemory>
    ensures ok { OnOk result (out.new ≡ out.old ++ marked 45 (pre_text pre.now)) }
    ensures begun { IsBegunBy out.old out.new }
{
    if pre.is_empty() {
        return Ok(());
    }
    out.push_str("-")?;
    out.push_str(pre.as_str())
}
