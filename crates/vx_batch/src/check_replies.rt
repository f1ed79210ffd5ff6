ghost use Rattle.std.specs.Prelude.{IfOk};
ghost use Rattle.vx_batch.specs.Answers.{AnswersCheck};
ghost use Rattle.vx_batch.specs.Steps.Replies.{is_accepted, reply_line};

use crate::reply::{Reply, refuse_check};
use std::alloc::Global;
use vx_scheme::NoMemory;
use vx_translate::check;

/// The reply to `check`, by the fields behind the command.
pub fn check_reply(alloc: Global, purl: &str, vers: &str) -> Result<Reply, NoMemory>
    ensures { IfOk result (λ r. AnswersCheck purl.now vers.now (is_accepted r) (reply_line r)) }
{
    match check(alloc, purl, vers) {
        Ok(held) => Ok(Reply::Decided(held)),
        Err(refusal) => Ok(refuse_check(refusal)?),
    }
}
