ghost use Rattle.std.specs.Prelude.{◌≡◌, ◌++◌, ℕ, List, OnOk, OnErr};
ghost use Rattle.vx_text.specs.Begun.{IsBegunBy};

use vx_scheme::{NoMemory, Text};

/// What appends its own text.
pub trait Pushes {
    /// The text that is appended.
    ghost text: { Self → List ℕ };

    /// Appends the text. A refused call may leave a part of it.
    fn push(&self, out: &mut Text) -> Result<(), NoMemory>
        ensures ok { OnOk result (out.new ≡ out.old ++ text self.now) }
        ensures begun { IsBegunBy out.old out.new };
}

/// Appends the whole text of the value. A refused call leaves the text as it was.
pub fn push_whole<P: Pushes>(value: &P, out: &mut Text) -> Result<(), NoMemory>
    ensures ok { OnOk result (out.new ≡ out.old ++ P.text value.now) }
    ensures err { OnErr result (out.new ≡ out.old) }
{
    let start = out.as_str().len();
    let pushed = value.push(out);
    if pushed.is_err() {
        out.cut(start);
    }
    pushed
}
