ghost use Rattle.std.specs.Prelude.{IfOk, List, ℕ};
ghost use Rattle.vx_batch.specs.Answers.{AnswersRequest, IsAnswer, IsLineAnswer};
ghost use Rattle.vx_batch.specs.Requests.{with_texts};
ghost use Rattle.vx_batch.specs.Rows.{IsRow};
ghost use Rattle.vx_batch.specs.Steps.Replies.{is_accepted, reply_line};

use crate::check_replies::check_reply;
use crate::purl_replies::{purl_reply, same_reply};
use crate::reply::{LineFault, Reply};
use crate::request::{Request, request_of};
use crate::row::Row;
use crate::vers_replies::{canon_reply, from_vers_reply, has_reply, to_vers_reply};
use std::alloc::Global;
use std::str;
use vx_lines::MOST_BYTES;
use vx_scheme::NoMemory;

/// The reply to a request.
pub fn request_reply(alloc: Global, request: &Request<&str>) -> Result<Reply, NoMemory>
    ensures { IfOk result (λ r. AnswersRequest (with_texts (λ field. field.now) request.now) (is_accepted r) (reply_line r)) }
{
    match *request {
        Request::ToVers {
            scheme,
            domain,
            range,
        } => to_vers_reply(alloc, scheme, domain, range),
        Request::FromVers { domain, vers } => from_vers_reply(alloc, domain, vers),
        Request::Canon { vers } => canon_reply(alloc, vers),
        Request::Has { vers, version } => has_reply(alloc, vers, version),
        Request::Purl { purl } => purl_reply(alloc, purl),
        Request::Same { first, second } => same_reply(alloc, first, second),
        Request::Check { purl, vers } => check_reply(alloc, purl, vers),
    }
}

/// The reply to the line of a row of fields. `BadCommand` comes exactly where the fields are no request.
pub fn row_reply(alloc: Global, row: &Row) -> Result<Reply, NoMemory>
    ensures { IfOk result (λ r. (fields : List (List ℕ)) → IsRow fields row.now → IsAnswer fields (is_accepted r) (reply_line r)) }
{
    match request_of(row) {
        Some(request) => request_reply(alloc, &request),
        None => Ok(Reply::Fault(LineFault::BadCommand)),
    }
}

/// The reply to a line of bytes. `TooLong` comes exactly where it has more than 65,536, `NotText` exactly where it has no
/// more and is not UTF-8, and then `BadCommand` exactly where its fields are no request.
pub fn line_reply(alloc: Global, line: &[u8]) -> Result<Reply, NoMemory>
    ensures { IfOk result (λ r. IsLineAnswer MOST_BYTES line.now (is_accepted r) (reply_line r)) }
{
    if line.len() > MOST_BYTES {
        return Ok(Reply::Fault(LineFault::TooLong));
    }
    match str::from_utf8(line) {
        Ok(text) => row_reply(alloc, &Row::of_line(text)),
        Err(_) => Ok(Reply::Fault(LineFault::NotText)),
    }
}
