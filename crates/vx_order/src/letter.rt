ghost use Rattle.std.specs.Prelude.{◌≡◌, [], ◌∷◌, ◌++◌, OnOk, OnErr, IfOk, take};

use std::alloc::Global;
use vx_scheme::{List, NoMemory, Text, copy_text};

/// A letter of a version's key. The fields stand by their size, so that it takes 48 bytes.
#[derive(Debug, Drop)]
pub struct Letter {
    /// What counts among letters of one rank.
    pub number: u128,
    /// What counts last, byte by byte.
    pub text: Text,
    /// What counts first.
    pub rank: u32,
}

/// A list of letters.
pub type Letters = List<Letter>;

/// The same letters once more, in a list with room for no more.
pub fn copy_letters(alloc: Global, letters: &Letters) -> Result<Letters, NoMemory>
    ensures { IfOk result (λ copied. copied ≡ letters.now) }
{
    let mut copied = Letters::with_room(alloc, letters.len())?;
    for letter in letters.as_slice() {
        copied.push(copy_letter(alloc, letter)?)?;
    }
    Ok(copied)
}

fn copy_letter(alloc: Global, letter: &Letter) -> Result<Letter, NoMemory>
    ensures { IfOk result (λ copied. copied ≡ letter.now) }
{
    let text = copy_text(alloc, &letter.text)?;
    Ok(Letter {
        rank: letter.rank,
        number: letter.number,
        text,
    })
}
