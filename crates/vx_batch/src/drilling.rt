ghost use Rattle.std.specs.Prelude.{◌≡◌, ◌<◌, ◌≤◌, ◌^◌, IfOk, length};
ghost use Rattle.vx_batch.specs.Drill.{IsDrill, IsDrillAnswer, sums_text};
ghost use Rattle.vx_batch.specs.Steps.Drill.{AreSmall, with_answer};

use crate::answering::answer_to_line;
use crate::drill_lines::{MOST_LINES, drill_line};
use crate::reply::Answer;
use std::alloc::Global;
use vx_scheme::{NoMemory, Text};

// Room for the four lines.
const MOST_OF_THE_SUMS: usize = 100;

/// The sums of the answers to the lines of a drill.
#[derive(Debug, Clone, Copy, PartialEq, Eq)]
pub struct Sums {
    /// How many lines were answered.
    pub lines: u128,
    /// How many answers are accepted lines'.
    pub ok: u128,
    /// How many answers are refused lines'.
    pub no: u128,
    /// How many bytes the answer lines have, each with its line feed.
    pub bytes: u128,
}

impl Sums {
    // The sums with one answer more.
    fn with_answer(self, answer: &Answer) -> Sums
        requires few { self.lines < MOST_LINES }
        requires small { AreSmall self }
        ensures sums { result ≡ with_answer self answer.now.ok answer.now.text }
        ensures small { AreSmall result }
    {
        let (ok, no) = if answer.ok {
            (self.ok + 1, self.no)
        } else {
            (self.ok, self.no + 1)
        };
        Sums {
            lines: self.lines + 1,
            ok,
            no,
            bytes: self.bytes + (answer.text.len() as u128 + 1),
        }
    }

    /// The four lines of the sums, without the last line feed.
    pub fn to_text(&self, alloc: Global) -> Result<Text, NoMemory>
        ensures { IfOk result (λ text. text ≡ sums_text self.now) }
    {
        let mut text = Text::with_room(alloc, MOST_OF_THE_SUMS)?;
        text.push_str("lines ")?;
        text.push_number(self.lines)?;
        text.push_str("\nok ")?;
        text.push_number(self.ok)?;
        text.push_str("\nno ")?;
        text.push_number(self.no)?;
        text.push_str("\nbytes ")?;
        text.push_number(self.bytes)?;
        Ok(text)
    }
}

/// The sums of the answers to the lines from 1 to this number, which lies from 1 to 1,000,000: what `batch` answers them.
/// One line and its answer are held at a time.
pub fn drill(alloc: Global, lines: u64) -> Result<Sums, NoMemory>
    requires some { 0 < lines }
    requires most { lines ≤ MOST_LINES }
    ensures { IfOk result (IsDrill lines) }
{
    let mut sums = Sums {
        lines: 0,
        ok: 0,
        no: 0,
        bytes: 0,
    };
    for i in 0..lines {
        let line = drill_line(alloc, i + 1)?;
        let answer = answer_to_line(alloc, line.as_str().as_bytes())?;
        sums = sums.with_answer(&answer);
    }
    Ok(sums)
}

/// The answer to a drill over so many lines, from 1 to 1,000,000: its sums, and whether each answer is an accepted
/// line's.
pub fn answer_to_drill(alloc: Global, lines: u64) -> Result<Answer, NoMemory>
    requires some { 0 < lines }
    requires most { lines ≤ MOST_LINES }
    ensures { IfOk result (λ a. IsDrillAnswer lines a.ok a.text) }
{
    let sums = drill(alloc, lines)?;
    let text = sums.to_text(alloc)?;
    Ok(Answer {
        ok: sums.no == 0,
        text,
    })
}
