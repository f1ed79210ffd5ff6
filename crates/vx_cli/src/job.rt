ghost use Rattle.std.specs.Prelude.{◌≢◌, ◌∷◌, [], List, ℕ, IfNone, IfSome, codes};
ghost use Rattle.vx_batch.specs.Fields.{texts};
ghost use Rattle.vx_batch.specs.Rows.{IsRow};
ghost use Rattle.vx_cli.specs.Jobs.{Asks, IsLineCount, job_texts};

use vx_batch::{MOST_LINES, Request, Row, request_of};
use vx_text::numeral;

/// What the words of the program ask.
#[derive(Debug, Clone, Copy, PartialEq, Eq)]
pub enum Job<T> {
    /// The answer to one line.
    Line(Request<T>),
    /// The answers to the lines of the source.
    Batch,
    /// The sums of the answers to so many lines, from 1 to 1,000,000.
    Drill(u64),
}

/// What the words ask. `None` comes exactly where they are a usage fault: the first word is missing or no command, or the
/// number of words is not the command's, or the word behind `drill` is no numeral from 1 to 1,000,000. It takes no memory.
pub fn job_of(words: &[String]) -> Option<Job<&str>>
    ensures { Asks (texts words.now) (job_texts (λ field. field.now) result) }
{
    match Row::of_words(words) {
        Row::One(name) => job_of_one(name),
        Row::Two(name, field) => job_of_two(name, field),
        row => job_of_line(&row),
    }
}

// What one word asks.
fn job_of_one(name: &str) -> Option<Job<&str>>
    ensures { Asks (name.now ∷ []) (job_texts (λ field. field.now) result) }
{
    match name {
        "batch" => Some(Job::Batch),
        _ => None,
    }
}

// What two words ask.
fn job_of_two<'a>(name: &'a str, field: &'a str) -> Option<Job<&'a str>>
    ensures { Asks (name.now ∷ field.now ∷ []) (job_texts (λ field. field.now) result) }
{
    match name {
        "drill" => job_of_drill(field),
        _ => job_of_line(&Row::Two(name, field)),
    }
}

// What `drill` and a word ask.
fn job_of_drill(count: &str) -> Option<Job<&str>>
    ensures { Asks (codes "drill" ∷ count.now ∷ []) (job_texts (λ field. field.now) result) }
{
    match line_count(count) {
        Some(lines) => Some(Job::Drill(lines)),
        None => None,
    }
}

// What a row asks that is neither `batch` nor begins with `drill`.
fn job_of_line<'a>(row: &Row<'a>) -> Option<Job<&'a str>>
    ensures { (words : List (List ℕ)) → IsRow words row.now → words ≢ codes "batch" ∷ [] → ((text : List ℕ) → words ≢ codes "drill" ∷ text ∷ [])
        → Asks words (job_texts (λ field. field.now) result) }
{
    match request_of(row) {
        Some(request) => Some(Job::Line(request)),
        None => None,
    }
}

// How many lines a drill is to have, by its word.
fn line_count(text: &str) -> Option<u64>
    ensures some { IfSome result (λ count. IsLineCount text.now count) }
    ensures none { IfNone result ((count : ℕ) → ¬ (IsLineCount text.now count)) }
{
    match numeral(text) {
        Ok(number) if 0 < number && number <= MOST_LINES as u128 => Some(number as u64),
        _ => None,
    }
}
