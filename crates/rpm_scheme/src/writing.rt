ghost use Rattle.std.specs.Prelude.{◌++◌, ◌≡◌, OnErr, OnOk};
ghost use Rattle.rpm_scheme.specs.Writing.{normal};

use crate::version::RpmVersion;
use vx_scheme::{NoMemory, Text};

/// Appends the normal text, which is the text as it was written. A refused call leaves the text as it was.
pub(crate) fn write(version: &RpmVersion, out: &mut Text) -> Result<(), NoMemory>
    ensures ok { OnOk result (out.new ≡ out.old ++ normal version.now) }
    ensures err { OnErr result (out.new ≡ out.old) }
{
    out.push_str(version.text.as_str())
}
