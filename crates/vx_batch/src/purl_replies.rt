ghost use Rattle.std.specs.Prelude.{IfOk};
ghost use Rattle.vx_batch.specs.Answers.{AnswersPurl, AnswersSame};
ghost use Rattle.vx_batch.specs.Steps.Replies.{is_accepted, reply_line};

use crate::reply::{Reply, refuse_purl};
use purl_types::{canonical, same};
use std::alloc::Global;
use vx_scheme::NoMemory;

/// The reply to `purl`, by the field behind the command.
pub fn purl_reply(alloc: Global, text: &str) -> Result<Reply, NoMemory>
    ensures { IfOk result (λ r. AnswersPurl text.now (is_accepted r) (reply_line r)) }
{
    match canonical(alloc, text) {
        Ok(canonical) => Ok(Reply::Found(canonical)),
        Err(fault) => Ok(refuse_purl(fault)?),
    }
}

/// The reply to `same`, by the fields behind the command.
pub fn same_reply(alloc: Global, a: &str, b: &str) -> Result<Reply, NoMemory>
    ensures { IfOk result (λ r. AnswersSame a.now b.now (is_accepted r) (reply_line r)) }
{
    match same(alloc, a, b) {
        Ok(told) => Ok(Reply::Decided(told)),
        Err(fault) => Ok(refuse_purl(fault)?),
    }
}
