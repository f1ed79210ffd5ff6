ghost use Rattle.std.specs.Prelude.{◌≡◌, ◌≢◌, ◌≤◌, ◌++◌, ◌∷◌, [], ℕ, List, IfErr, IfOk, OnOk, length};
ghost use Rattle.std.specs.List.{AllByRecursion};
ghost use Rattle.vx_scheme.specs.Values.{Faults, Gives};
ghost use Rattle.vx_order.specs.Scanning.{scanned};

use std::alloc::Global;
use vx_scheme::{List, VersionFault};

/// How a text is read from left to right as the entries of a list: those of what stands first, and then those of what
/// stands behind it.
pub trait Scan {
    /// An entry.
    type Entry: Drop;

    /// The entries of what stands at the front of a text.
    ghost first: { List ℕ → List Self.Entry };

    /// What stands behind that.
    ghost behind: { List ℕ → List ℕ };

    /// The entry is within its limit.
    ghost IsWithin: { Self.Entry → Type 0 };

    /// For how many entries room is made for a text of so many bytes. It takes no memory.
    fn most(len: usize) -> usize;

    /// Appends the entries of what stands at the front of the text, and answers what stands behind it. `Numeral` comes only
    /// where one of them is past its limit.
    fn push_first<'a>(
        entries: &mut List<Self::Entry>,
        text: &'a [u8],
    ) -> Result<&'a [u8], VersionFault>
        requires { text.now ≢ [] }
        ensures ok { OnOk result (entries.new ≡ entries.old ++ first text.now) }
        ensures within { OnOk result (AllByRecursion IsWithin (first text.now)) }
        ensures rest { IfOk result (λ rest. rest.now ≡ behind text.now) }
        ensures err { IfErr result (Faults (AllByRecursion IsWithin (first text.now))) };

    /// What stands first has a byte at least.
    ghost takes_a_byte: { (b : ℕ) (text : List ℕ) → length (behind (b ∷ text)) ≤ length text };
}

/// The entries of a text, in a list that is made with the room that the scan tells. `Numeral` comes exactly where one of them is past its limit, unless
/// memory ends before.
pub fn scan_text<S: Scan>(alloc: Global, text: &[u8]) -> Result<List<S::Entry>, VersionFault>
    ensures { Gives (AllByRecursion S.IsWithin) result (scanned S.first S.behind text.now) }
{
    let mut entries = List::with_room(alloc, S::most(text.len()))?;
    let mut rest = text;
    'entries: while !rest.is_empty() {
        rest = S::push_first(&mut entries, rest)?;
    }
    Ok(entries)
}
