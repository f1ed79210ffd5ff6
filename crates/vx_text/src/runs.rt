ghost use Rattle.std.specs.Prelude.{◌≡◌, ◌≤◌, ◌<◌, ◌+◌, ℕ, Bool, length};
ghost use Rattle.std.specs.List.{list_all, prefix_len, suffix_len};
ghost use Rattle.vx_spec.specs.Runs.{is_made_of, run, past, without_end, trimmed};

/// A class of bytes, of which a text can have a run.
pub trait ByteClass {
    /// The byte is one of the class.
    ghost holds: { ℕ → Bool };

    /// Whether the byte is one of the class. It takes no memory.
    fn is_one(byte: u8) -> bool
        ensures { result ≡ holds byte };
}

/// The space and the tab.
pub struct Blanks;

impl ByteClass for Blanks {
    ghost use Rattle.vx_spec.specs.Runs.{is_blank};

    ghost holds = { is_blank };

    fn is_one(byte: u8) -> bool {
        byte == b' ' || byte == b'\t'
    }
}

/// Every byte but the space and the tab.
pub struct Solids;

impl ByteClass for Solids {
    ghost use Rattle.vx_spec.specs.Runs.{is_solid};

    ghost holds = { is_solid };

    fn is_one(byte: u8) -> bool {
        !(byte == b' ' || byte == b'\t')
    }
}

/// The ASCII digits.
pub struct Digits;

impl ByteClass for Digits {
    ghost use Rattle.std.specs.Char.{is_ascii_digit};

    ghost holds = { is_ascii_digit };

    fn is_one(byte: u8) -> bool {
        byte.is_ascii_digit()
    }
}

/// The ASCII letters.
pub struct Alphabetic;

impl ByteClass for Alphabetic {
    ghost use Rattle.std.specs.Char.{is_ascii_alphabetic};

    ghost holds = { is_ascii_alphabetic };

    fn is_one(byte: u8) -> bool {
        byte.is_ascii_alphabetic()
    }
}

/// The ASCII letters and digits.
pub struct Alphanumeric;

impl ByteClass for Alphanumeric {
    ghost use Rattle.std.specs.Char.{is_ascii_alphanumeric};

    ghost holds = { is_ascii_alphanumeric };

    fn is_one(byte: u8) -> bool {
        byte.is_ascii_alphanumeric()
    }
}

/// Whether the text is one byte of the class or more, and nothing else. It takes no memory.
pub fn is_made_of<C: ByteClass>(text: &[u8]) -> bool
    ensures { result ≡ is_made_of C.holds text.now }
{
    !text.is_empty() && all_of::<C>(text)
}

fn all_of<C: ByteClass>(text: &[u8]) -> bool
    ensures { result ≡ list_all C.holds text.now }
{
    text.iter().all(|byte| C::is_one(*byte))
}

fn leading<C: ByteClass>(text: &[u8]) -> usize
    ensures count { result ≡ prefix_len C.holds text.now }
    ensures within { result ≤ length text.now }
{
    text.iter().take_while(|byte| C::is_one(**byte)).count()
}

fn trailing<C: ByteClass>(text: &[u8]) -> usize
    ensures count { result ≡ suffix_len C.holds text.now }
    ensures within { result ≤ length text.now }
{
    text.iter()
        .rev()
        .take_while(|byte| C::is_one(**byte))
        .count()
}

/// The longest run of bytes of the class at the front of the text, and what stands behind it. It takes no memory.
pub fn cut_run<C: ByteClass>(text: &[u8]) -> (&[u8], &[u8])
    ensures run { result.0.now ≡ run C.holds text.now }
    ensures past { result.1.now ≡ past C.holds text.now }
    ensures within { length result.0.now + length result.1.now ≡ length text.now }
{
    text.split_at(leading::<C>(text))
}

/// What stands behind the bytes of the class at the front of the text. It takes no memory.
pub fn past_run<C: ByteClass>(text: &[u8]) -> &[u8]
    ensures past { result.now ≡ past C.holds text.now }
    ensures count { length result.now + prefix_len C.holds text.now ≡ length text.now }
{
    &text[leading::<C>(text)..]
}

/// The text without the bytes of the class at its end. It takes no memory.
pub fn without_end<C: ByteClass>(text: &[u8]) -> &[u8]
    ensures without { result.now ≡ without_end C.holds text.now }
    ensures count { length result.now + suffix_len C.holds text.now ≡ length text.now }
{
    &text[..text.len() - trailing::<C>(text)]
}

/// The text without the blanks at its ends. It takes no memory.
pub fn trimmed(text: &[u8]) -> &[u8]
    ensures trimmed { result.now ≡ trimmed text.now }
    ensures within { length result.now ≤ length text.now }
{
    without_end::<Blanks>(past_run::<Blanks>(text))
}
