ghost use Rattle.std.specs.Prelude.{◌≡◌, [], ◌∷◌, ◌++◌, OnOk, OnErr, IfOk, length, take};

use crate::list::List;
use crate::memory::NoMemory;
use crate::text::Text;
use std::alloc::Global;

/// An identifier: a number, or a word.
#[derive(Debug, Drop)]
pub enum Ident {
    /// Digits alone, by their value.
    Number(u128),
    /// Any other identifier, as it stands.
    Word(Text),
}

/// A list of identifiers.
pub type Idents = List<Ident>;

/// The same text once more.
pub fn copy_text(alloc: Global, text: &Text) -> Result<Text, NoMemory>
    ensures { IfOk result (λ copied. copied ≡ text.now) }
{
    Text::copy_of(alloc, text.as_str())
}

/// The same identifier once more.
pub fn copy_ident(alloc: Global, ident: &Ident) -> Result<Ident, NoMemory>
    ensures { IfOk result (λ copied. copied ≡ ident.now) }
{
    match ident {
        Ident::Number(number) => Ok(Ident::Number(*number)),
        Ident::Word(text) => Ok(Ident::Word(copy_text(alloc, text)?)),
    }
}

/// The same identifiers once more.
pub fn copy_idents(alloc: Global, idents: &Idents) -> Result<Idents, NoMemory>
    ensures { IfOk result (λ copied. copied ≡ idents.now) }
{
    let mut copied = Idents::with_room(alloc, idents.len())?;
    for ident in idents.as_slice() {
        copied.push(copy_ident(alloc, ident)?)?;
    }
    Ok(copied)
}
