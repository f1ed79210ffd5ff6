use crate::version::GemVersion;
use vx_order::push_dotted;
use vx_scheme::{NoMemory, Text};
use vx_text::Pushes;

impl Pushes for GemVersion {
    ghost use Rattle.gem_scheme.specs.Writing.{normal};

    ghost text = { normal };

    /// Appends the normal text: the segments joined by `.`, numbers without leading zeros.
    fn push(&self, out: &mut Text) -> Result<(), NoMemory> {
        push_dotted(out, self.segments.as_slice())
    }
}
