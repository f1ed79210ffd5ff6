ghost use Rattle.std.specs.Prelude.{◌≡◌, ◌≢◌, ◌↔◌, ◌⊎◌, ◌∷◌, [], ◌^◌, ℕ, Bool, List, true, codes, IfOk};
ghost use Rattle.vx_lines.specs.Output.{Ran};
ghost use Rattle.vx_lines.specs.declared.loop_end.LoopEnd.{LoopEnd};
ghost use Rattle.vx_batch.specs.Answers.{IsLineAnswer};
ghost use Rattle.vx_batch.specs.Drill.{IsDrillAnswer};
ghost use Rattle.vx_batch.specs.Fields.{fields_of_line, texts};
ghost use Rattle.vx_batch.specs.Requests.{fields_of, with_texts};
ghost use Rattle.vx_batch.specs.Translations.{Says};
ghost use Rattle.vx_batch.specs.declared.request.Request.{Request};
ghost use Rattle.vx_cli.specs.Jobs.{IsJob, IsUsageFault};
ghost use Rattle.vx_lines.specs.Outside.{FailsAtLast, Rose, Succeeds};
ghost use Rattle.vx_cli.specs.Runs.{AppendsSuch, AppendsSuchFront, IsWordsAnswer, ended_with, status_of};
ghost use Rattle.vx_cli.specs.Steps.Puts.{Puts, PutsFront};
ghost use Rattle.vx_cli.specs.declared.job.Job.TheVariants as job_of;
ghost use Rattle.vx_cli.specs.declared.status.Status.TheVariants as Status;

use crate::job::{Job, job_of};
use crate::status::Status;
use crate::words::joined_length;
use crate::writing::put_line;
use std::alloc::Global;
use vx_batch::{Answer, Request, answer_to_drill, answer_to_request, batch, too_long};
use vx_lines::{MOST_BYTES, MOST_INPUT, Sink, Source};
use vx_scheme::NoMemory;

/// Does what the words say.
#[tactic(auto, using(crate::proofs::Said::line_says))]
pub fn run<R: Source, W: Sink>(
    alloc: Global,
    words: &Vec<String>,
    source: &mut R,
    sink: &mut W,
) -> Status
    // A usage fault is answered exactly where the words are one, and then nothing is read or written.
    ensures usage { (result ≡ Status.Usage) ↔ IsUsageFault (texts words.now.items) }
    ensures untouched { result ≡ Status.Usage → (source.new ≡ source.old) × (sink.new ≡ sink.old) }

    // The words of one line: after Done and Refused the sink got the whole answer line, which says which of the two it is.
    // Whatever it ends with, the sink is as it was, or it got a front of that line. The source is not read.
    ensures line { (request : Request (List ℕ)) → IsJob (texts words.now.items) (job_of.Line request) → (ok : Bool) → result ≡ ended_with ok
        → AppendsSuch (IsWordsAnswer (texts words.now.items) ok) (W.held sink.old) (W.held sink.new) }
    ensures line_front { (request : Request (List ℕ)) → IsJob (texts words.now.items) (job_of.Line request)
        → (sink.new ≡ sink.old) ⊎ ((ok : Bool)
        × AppendsSuchFront (IsWordsAnswer (texts words.now.items) ok) (W.held sink.old) (W.held sink.new)) }
    ensures line_unread { (request : Request (List ℕ)) → IsJob (texts words.now.items) (job_of.Line request) → source.new ≡ source.old }

    // What is accepted says what its command promises: a translated range and its printed text hold exactly the same
    // versions of the domain, either way; simplified constraints keep their set and simplify no further; `yes` comes
    // exactly where the list holds the version; two package URLs get equal canonical texts exactly where they mean the
    // same package.
    ensures says { (request : Request (List ℕ)) → IsJob (texts words.now.items) (job_of.Line request) → result ≡ Status.Done
        → AppendsSuch (Says request) (W.held sink.old) (W.held sink.new) }

    // `batch`: after Done and Refused the source was read to its end, and the sink got the answers to its lines, in order
    // and nothing else; after every other end a front of them.
    ensures batch { IsJob (texts words.now.items) job_of.Batch → (end : LoopEnd) × (result ≡ status_of end)
        × Ran (IsLineAnswer 65536) 4096 (2 ^ 30) end (R.left source.old) (R.left source.new) (W.held sink.old) (W.held sink.new) }

    // Each line of `batch` that is accepted says what its command promises, as the words of the same command do.
    ensures batch_says { (line text : List ℕ) (request : Request (List ℕ)) → IsLineAnswer 65536 line true text
        → fields_of request ≡ fields_of_line line → Says request text }

    // `drill`: the same for the four lines of the sums of the answers that `batch` gives to the lines 1 to n. The status
    // says whether each of these answers is an accepted line's.
    ensures drill { (count : ℕ) → IsJob (texts words.now.items) (job_of.Drill count) → (ok : Bool) → result ≡ ended_with ok
        → AppendsSuch (IsDrillAnswer count ok) (W.held sink.old) (W.held sink.new) }
    ensures drill_front { (count : ℕ) → IsJob (texts words.now.items) (job_of.Drill count)
        → (sink.new ≡ sink.old) ⊎ ((ok : Bool)
        × AppendsSuchFront (IsDrillAnswer count ok) (W.held sink.old) (W.held sink.new)) }
    ensures drill_unread { (count : ℕ) → IsJob (texts words.now.items) (job_of.Drill count) → source.new ≡ source.old }

    // A fault has its cause, and no other status hides one.
    ensures read_fault { result ≡ Status.ReadFault
        → IsJob (texts words.now.items) job_of.Batch × Rose (R.faults source.old) (R.faults source.new) }
    ensures no_read_fault { result ≢ Status.ReadFault → R.faults source.new ≡ R.faults source.old }
    ensures write_fault { result ≡ Status.WriteFault → Rose (W.faults sink.old) (W.faults sink.new) }
    ensures no_write_fault { result ≢ Status.WriteFault → W.faults sink.new ≡ W.faults sink.old }

    // The first write that fails is the last.
    ensures write_fails { result ≡ Status.WriteFault → FailsAtLast W.write_gives sink.old sink.new }
    ensures writes { result ≢ Status.WriteFault → Succeeds W.write_gives sink.old sink.new }

    ensures limit { result ≡ Status.InputLimit → IsJob (texts words.now.items) job_of.Batch }
{
    match job_of(words.as_slice()) {
        Some(Job::Line(request)) => {
            put_answer(words_answer(alloc, words.as_slice(), &request), sink)
        }
        Some(Job::Batch) => Status::of_end(batch(alloc, MOST_INPUT, source, sink)),
        Some(Job::Drill(lines)) => put_answer(answer_to_drill(alloc, lines), sink),
        None => Status::Usage,
    }
}

// The answer to the line of the words.
fn words_answer(
    alloc: Global,
    words: &[String],
    request: &Request<&str>,
) -> Result<Answer, NoMemory>
    requires { fields_of (with_texts (λ field. field.now) request.now) ≡ texts words.now }
    ensures { IfOk result (λ a. IsWordsAnswer (texts words.now) a.ok a.text) }
{
    if joined_length(words) > MOST_BYTES {
        too_long(alloc)
    } else {
        answer_to_request(alloc, request)
    }
}

// Writes an answer, where there is one.
fn put_answer<W: Sink>(answer: Result<Answer, NoMemory>, sink: &mut W) -> Status
    ensures line { (ok : Bool) → result ≡ ended_with ok → Puts answer ok (W.held sink.old) (W.held sink.new) }
    ensures front { (sink.new ≡ sink.old) ⊎ PutsFront answer (W.held sink.old) (W.held sink.new) }
    ensures write_fault { result ≡ Status.WriteFault → Rose (W.faults sink.old) (W.faults sink.new) }
    ensures no_write_fault { result ≢ Status.WriteFault → W.faults sink.new ≡ W.faults sink.old }
    ensures write_fails { result ≡ Status.WriteFault → FailsAtLast W.write_gives sink.old sink.new }
    ensures writes { result ≢ Status.WriteFault → Succeeds W.write_gives sink.old sink.new }
    ensures no_usage { result ≢ Status.Usage }
    ensures no_read_fault { result ≢ Status.ReadFault }
    ensures no_limit { result ≢ Status.InputLimit }
{
    match answer {
        Ok(answer) => Status::of(put_line(answer, sink)),
        Err(NoMemory) => Status::NoMemory,
    }
}
