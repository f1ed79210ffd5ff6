ghost use Rattle.std.specs.Prelude.{◌≡◌, ◌+◌, ◌<◌, [], ◌∷◌, ◌++◌, OnOk, OnErr, IfOk, length, take, ◌≤◌, IsUtf8, string_bytes, IsTrue, ◌↔◌};
ghost use Rattle.vx_spec.specs.Numerals.{numeral_text};

use crate::memory::NoMemory;
use itoa::Buffer;
use std::alloc::Global;
use std::marker::Model;

/// A text in UTF-8, which contracts see as its bytes.
#[derive(Debug, Drop)]
pub struct Text {
    inner: String,
}

impl Model for Text {
    ghost use Rattle.std.specs.Prelude.{List, ℕ, string_bytes};

    ghost Value = { List ℕ };

    ghost view = { λ text. string_bytes text.inner };
}

impl Text {
    /// The empty text. It takes no memory.
    pub fn new(alloc: Global) -> Text
        ensures { result ≡ [] }
    {
        Text {
            inner: String::new(alloc),
        }
    }

    /// The text of a string. It takes no memory.
    pub fn from_string(inner: String) -> Text
        ensures { result ≡ string_bytes inner }
    {
        Text { inner }
    }

    /// The empty text, with room for so many bytes.
    pub fn with_room(alloc: Global, len: usize) -> Result<Text, NoMemory>
        ensures { IfOk result (λ text. text ≡ []) }
    {
        match String::with_capacity(alloc, len) {
            Ok(inner) => Ok(Text { inner }),
            Err(_) => Err(NoMemory),
        }
    }

    /// A copy of a piece, with room for no more.
    pub fn copy_of(alloc: Global, piece: &str) -> Result<Text, NoMemory>
        ensures { IfOk result (λ text. text ≡ piece.now) }
    {
        let mut text = Text::with_room(alloc, piece.len())?;
        text.push_str(piece)?;
        Ok(text)
    }

    /// Its length in bytes.
    pub fn len(&self) -> usize
        ensures { result ≡ length self.now }
    {
        self.inner.len()
    }

    /// Whether there is no byte.
    pub fn is_empty(&self) -> bool
        ensures { IsTrue result ↔ (self.now ≡ []) }
    {
        self.inner.is_empty()
    }

    /// The text, as a `str`.
    pub fn as_str(&self) -> &str
        ensures { result.now ≡ self.now }
    {
        self.inner.as_str()
    }

    /// Appends a piece. A refused push leaves the text as it was.
    pub fn push_str(&mut self, piece: &str) -> Result<(), NoMemory>
        ensures ok { OnOk result (self.new ≡ self.old ++ piece.now) }
        ensures err { OnErr result (self.new ≡ self.old) }
    {
        match self.inner.push_str(piece) {
            Ok(()) => Ok(()),
            Err(_) => Err(NoMemory),
        }
    }

    /// Puts a piece in front. A refused call leaves the text as it was.
    pub fn push_front(&mut self, piece: &str) -> Result<(), NoMemory>
        ensures ok { OnOk result (self.new ≡ piece.now ++ self.old) }
        ensures err { OnErr result (self.new ≡ self.old) }
    {
        match self.inner.insert_str(0, piece) {
            Ok(()) => Ok(()),
            Err(_) => Err(NoMemory),
        }
    }

    /// Appends the decimal numeral, without leading zeros. A refused push leaves the text as it was.
    pub fn push_number(&mut self, number: u128) -> Result<(), NoMemory>
        ensures ok { OnOk result (self.new ≡ self.old ++ numeral_text number) }
        ensures err { OnErr result (self.new ≡ self.old) }
    {
        if number < 10 {
            self.push_digit(number as u8)
        } else {
            let mut digits = Buffer::new();
            self.push_str(digits.format(number))
        }
    }

    /// Appends one digit. A refused push leaves the text as it was.
    fn push_digit(&mut self, digit: u8) -> Result<(), NoMemory>
        requires { digit < 10 }
        ensures ok { OnOk result (self.new ≡ self.old ++ (48 + digit) ∷ []) }
        ensures err { OnErr result (self.new ≡ self.old) }
    {
        match self.inner.push(char::from(b'0' + digit)) {
            Ok(()) => Ok(()),
            Err(_) => Err(NoMemory),
        }
    }

    /// The allocator that the text was made with.
    pub fn alloc(&self) -> Global {
        *self.inner.allocator()
    }

    /// Keeps the first `len` bytes.
    pub fn cut(&mut self, len: usize)
        requires within { len ≤ length self.old }
        requires text { IsUtf8 (take len self.old) }
        ensures { self.new ≡ take len self.old }
    {
        let _whole = self.inner.as_str();
        self.inner.truncate(len);
    }
}
