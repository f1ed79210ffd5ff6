ghost use Rattle.std.specs.Prelude.{◌≡◌, List, ℕ, map};
ghost use Rattle.std.specs.List.{slice_split};
ghost use Rattle.vx_batch.specs.Fields.{fields_of_line, texts};
ghost use Rattle.vx_batch.specs.Rows.{IsRow};

use vx_scheme::Text;
use vx_text::cut;

/// The fields of a line, as many as a command and its fields can be.
#[derive(Debug, Clone, Copy, PartialEq, Eq)]
pub enum Row<'a> {
    /// One field.
    One(&'a str),
    /// Two fields.
    Two(&'a str, &'a str),
    /// Three fields.
    Three(&'a str, &'a str, &'a str),
    /// Four fields.
    Four(&'a str, &'a str, &'a str, &'a str),
    /// None, or more than four.
    Other,
}

impl<'a> Row<'a> {
    /// The row of words. It takes no memory.
    pub fn of_words(words: &'a [String]) -> Row<'a>
        ensures { IsRow (texts words.now) result }
    {
        match words {
            [a] => Row::One(a.as_str()),
            [a, b] => Row::Two(a.as_str(), b.as_str()),
            [a, b, c] => Row::Three(a.as_str(), b.as_str(), c.as_str()),
            [a, b, c, d] => Row::Four(a.as_str(), b.as_str(), c.as_str(), d.as_str()),
            _ => Row::Other,
        }
    }

    /// The row of fields. It takes no memory.
    pub fn of_fields(fields: &'a [Text]) -> Row<'a>
        ensures { IsRow fields.now result }
    {
        match fields {
            [a] => Row::One(a.as_str()),
            [a, b] => Row::Two(a.as_str(), b.as_str()),
            [a, b, c] => Row::Three(a.as_str(), b.as_str(), c.as_str()),
            [a, b, c, d] => Row::Four(a.as_str(), b.as_str(), c.as_str(), d.as_str()),
            _ => Row::Other,
        }
    }

    /// The row of a line, which is cut at its tabs. It takes no memory.
    pub fn of_line(line: &'a str) -> Row<'a>
        ensures { IsRow (fields_of_line line.now) result }
    {
        let (a, behind) = cut(line, '\t');
        let Some(rest) = behind else {
            return Row::One(a);
        };
        let (b, behind) = cut(rest, '\t');
        let Some(rest) = behind else {
            return Row::Two(a, b);
        };
        let (c, behind) = cut(rest, '\t');
        let Some(rest) = behind else {
            return Row::Three(a, b, c);
        };
        match cut(rest, '\t') {
            (d, None) => Row::Four(a, b, c, d),
            (_, Some(_)) => Row::Other,
        }
    }
}
