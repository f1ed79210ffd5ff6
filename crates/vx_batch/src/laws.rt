ghost use Rattle.std.specs.Prelude.{◌≡◌, ◌==◌, ◌+◌, List, ℕ, Bool, Option, true, length};
ghost use Rattle.vx_scheme.specs.declared.domain.Domain.{Domain};
ghost use Rattle.vx_scheme.specs.declared.name.SchemeName.{SchemeName};
ghost use Rattle.vx_batch.specs.Requests.{IsAsked};
ghost use Rattle.vx_batch.specs.Answers.{AnswersBack, AnswersCanon, AnswersCheck, AnswersHas, AnswersPurl, AnswersRange, AnswersSame, IsAnswer, IsLineAnswer};
ghost use Rattle.vx_batch.specs.Requests.{fields_of};
ghost use Rattle.vx_lines.specs.Output.{IsOutput, lines};
ghost use Rattle.vx_batch.specs.Drill.{IsDrill, drill_input, drill_lines};
ghost use Rattle.vx_batch.specs.declared.drilling.Sums.{Sums};
ghost use Rattle.vx_batch.specs.Steps.OneLine.{HasOneLine};
ghost use Rattle.vx_batch.specs.Translations.{Says};
ghost use Rattle.vx_batch.specs.declared.request.Request.{Request};

use purl_types::{one_canonical_answer, one_comparison};
use vx_translate::{one_canon, one_check, one_from_vers, one_has, one_to_vers};

/// The fields of a line make one request, or none.
pub fn one_request()
    ensures { (fields : List (List ℕ)) (a b : Option (Request (List ℕ))) → IsAsked fields a → IsAsked fields b → a ≡ b }
{}

/// The accepted line of a request says what the request's command promises: a translated range and its printed text hold
/// the same versions, a canonical text means the same and simplifies no further, and so on.
pub fn accepted_lines_say()
    ensures { (request : Request (List ℕ)) (line : List ℕ) → IsAnswer (fields_of request) true line → Says request line }
{}

/// A line has one answer: fields are accepted or refused, never both, with one answer line; and so is a line of bytes.
pub fn one_answer()
    ensures fields { (fields : List (List ℕ)) (a b : Bool) (line other : List ℕ) →
        IsAnswer fields a line → IsAnswer fields b other → (a ≡ b) × (line ≡ other) }
    ensures lines { (most : ℕ) (bytes : List ℕ) (a b : Bool) (line other : List ℕ) →
        IsLineAnswer most bytes a line → IsLineAnswer most bytes b other → (a ≡ b) × (line ≡ other) }
{
    one_line_to_vers();
    one_line_from_vers();
    one_line_of_canon();
    one_line_of_has();
    one_line_of_purl();
    one_line_of_same();
    one_line_of_check();
}

/// A drill is a run of `batch`: the lines of its bytes are the drill's lines, and the sums are those of the output that
/// `batch` gives to them. So a drill has one answer.
pub fn drill_is_batch()
    ensures lines { (n : ℕ) → lines (drill_input n) ≡ drill_lines n }
    ensures bytes { (n : ℕ) (sums : Sums) (ok : Bool) (out : List ℕ) → IsDrill n sums →
        IsOutput (IsLineAnswer 65536) (drill_input n) ok out →
        sums.bytes ≡ length out }
    ensures ok { (n : ℕ) (sums : Sums) (ok : Bool) (out : List ℕ) → IsDrill n sums →
        IsOutput (IsLineAnswer 65536) (drill_input n) ok out →
        ok ≡ (sums.no == 0) }
    ensures all { (n : ℕ) (sums : Sums) → IsDrill n sums → (sums.lines ≡ n) × (sums.ok + sums.no ≡ n) }
    ensures one { (n : ℕ) (a b : Sums) → IsDrill n a → IsDrill n b → a ≡ b }
{
    one_answer();
}

fn one_line_to_vers()
    ensures { (name : SchemeName) (domain : Domain) (range : List ℕ) → HasOneLine (AnswersRange name domain range) }
{
    one_to_vers();
}

fn one_line_from_vers()
    ensures { (domain : Option (Option Domain)) (vers : List ℕ) → HasOneLine (AnswersBack domain vers) }
{
    one_from_vers();
}

fn one_line_of_canon()
    ensures { (vers : List ℕ) → HasOneLine (AnswersCanon vers) }
{
    one_canon();
}

fn one_line_of_has()
    ensures { (vers version : List ℕ) → HasOneLine (AnswersHas vers version) }
{
    one_has();
}

fn one_line_of_purl()
    ensures { (purl : List ℕ) → HasOneLine (AnswersPurl purl) }
{
    one_canonical_answer();
}

fn one_line_of_same()
    ensures { (first second : List ℕ) → HasOneLine (AnswersSame first second) }
{
    one_comparison();
}

fn one_line_of_check()
    ensures { (purl vers : List ℕ) → HasOneLine (AnswersCheck purl vers) }
{
    one_check();
}
