ghost use Rattle.std.specs.Prelude.{IfOk, List, ℕ};
ghost use Rattle.vx_batch.specs.Answers.{AnswersRequest, IsAnswer, IsLineAnswer, IsTooLong};
ghost use Rattle.vx_batch.specs.Requests.{with_texts};
ghost use Rattle.vx_batch.specs.Rows.{IsRow};

use crate::fields::Fields;
use crate::printing::answer_of;
use crate::reply::{Answer, LineFault, Reply};
use crate::replying::{line_reply, request_reply, row_reply};
use crate::request::Request;
use crate::row::Row;
use std::alloc::Global;
use vx_lines::MOST_BYTES;
use vx_scheme::NoMemory;

/// The answer to a line that has too many bytes.
pub fn too_long(alloc: Global) -> Result<Answer, NoMemory>
    ensures { IfOk result (λ a. IsTooLong a.ok a.text) }
{
    let answer = answer_of(alloc, Reply::Fault(LineFault::TooLong))?;
    Ok(answer)
}

/// The answer to a request.
pub fn answer_to_request(alloc: Global, request: &Request<&str>) -> Result<Answer, NoMemory>
    ensures { IfOk result (λ a. AnswersRequest (with_texts (λ field. field.now) request.now) a.ok a.text) }
{
    let reply = request_reply(alloc, request)?;
    let answer = answer_of(alloc, reply)?;
    Ok(answer)
}

/// The answer to the line of a row of fields. `BadCommand` comes exactly where the fields are no request.
pub fn answer_to_row(alloc: Global, row: &Row) -> Result<Answer, NoMemory>
    ensures { IfOk result (λ a. (fields : List (List ℕ)) → IsRow fields row.now → IsAnswer fields a.ok a.text) }
{
    let reply = row_reply(alloc, row)?;
    let answer = answer_of(alloc, reply)?;
    Ok(answer)
}

/// The answer to the line of these fields. `BadCommand` comes exactly where they are no request.
pub fn answer(alloc: Global, fields: &Fields) -> Result<Answer, NoMemory>
    ensures { IfOk result (λ a. IsAnswer fields.now a.ok a.text) }
{
    answer_to_row(alloc, &Row::of_fields(fields.as_slice()))
}

/// The answer to a line of bytes. `LineTooLong` comes exactly where it has more than 65,536, `NotText` exactly where it has
/// no more and is not UTF-8, and then `BadCommand` exactly where its fields are no request.
pub fn answer_to_line(alloc: Global, line: &[u8]) -> Result<Answer, NoMemory>
    ensures { IfOk result (λ a. IsLineAnswer MOST_BYTES line.now a.ok a.text) }
{
    let reply = line_reply(alloc, line)?;
    let answer = answer_of(alloc, reply)?;
    Ok(answer)
}
