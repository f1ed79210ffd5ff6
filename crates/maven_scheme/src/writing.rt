ghost use Rattle.std.specs.Prelude.{◌≡◌, ◌++◌, OnOk, OnErr};
ghost use Rattle.maven_scheme.specs.Writing.{normal};

use crate::version::MavenVersion;
use vx_scheme::{NoMemory, Text};

/// Appends the normal text, which is the text as it was written. A refused call leaves the text as it was.
pub(crate) fn write(version: &MavenVersion, out: &mut Text) -> Result<(), NoMemory>
    ensures ok { OnOk result (out.new ≡ out.old ++ normal version.now) }
    ensures err { OnErr result (out.new ≡ out.old) }
{
    out.push_str(version.text.as_str())
}
