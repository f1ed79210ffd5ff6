ghost use Rattle.std.specs.Prelude.{IfOk};
ghost use Rattle.vx_scheme.specs.Names.{scheme_named};
ghost use Rattle.vx_translate.specs.Domains.{chosen_domain};
ghost use Rattle.vx_batch.specs.Answers.{AnswersRange, AnswersScheme, AnswersBack, AnswersCanon, AnswersHas, domain_named};
ghost use Rattle.vx_batch.specs.Steps.Replies.{is_accepted, reply_line};

use crate::names::domain_named;
use crate::reply::{LineFault, Reply, refuse};
use std::alloc::Global;
use vx_scheme::{Domain, NoMemory, SchemeName};
use vx_translate::{canon, chosen_domain, from_vers, has, to_vers};

// The reply to a translation in a domain.
fn range_reply(
    alloc: Global,
    name: SchemeName,
    domain: Domain,
    range: &str,
) -> Result<Reply, NoMemory>
    ensures { IfOk result (λ r. AnswersRange name domain range.now (is_accepted r) (reply_line r)) }
{
    match to_vers(alloc, name, domain, range) {
        Ok(text) => Ok(Reply::Found(text)),
        Err(refusal) => Ok(refuse(refusal)?),
    }
}

/// The reply to `to-vers`, by the fields behind the command.
pub fn to_vers_reply(
    alloc: Global,
    scheme: &str,
    domain: &str,
    range: &str,
) -> Result<Reply, NoMemory>
    ensures { IfOk result (λ r. AnswersScheme (scheme_named scheme.now) domain.now range.now (is_accepted r) (reply_line r)) }
{
    let Some(name) = SchemeName::named(scheme) else {
        return Ok(Reply::Fault(LineFault::BadScheme));
    };
    let Some(domain) = domain_named(domain) else {
        return Ok(Reply::Fault(LineFault::BadDomain));
    };
    Ok(range_reply(alloc, name, chosen_domain(domain, name), range)?)
}

/// The reply to `from-vers`, by the fields behind the command.
pub fn from_vers_reply(alloc: Global, domain: &str, text: &str) -> Result<Reply, NoMemory>
    ensures { IfOk result (λ r. AnswersBack (domain_named domain.now) text.now (is_accepted r) (reply_line r)) }
{
    let Some(domain) = domain_named(domain) else {
        return Ok(Reply::Fault(LineFault::BadDomain));
    };
    match from_vers(alloc, domain, text) {
        Ok(range) => Ok(Reply::Found(range)),
        Err(refusal) => Ok(refuse(refusal)?),
    }
}

/// The reply to `canon`, by the field behind the command.
pub fn canon_reply(alloc: Global, text: &str) -> Result<Reply, NoMemory>
    ensures { IfOk result (λ r. AnswersCanon text.now (is_accepted r) (reply_line r)) }
{
    match canon(alloc, text) {
        Ok(canonical) => Ok(Reply::Found(canonical)),
        Err(refusal) => Ok(refuse(refusal)?),
    }
}

/// The reply to `has`, by the fields behind the command.
pub fn has_reply(alloc: Global, text: &str, version: &str) -> Result<Reply, NoMemory>
    ensures { IfOk result (λ r. AnswersHas text.now version.now (is_accepted r) (reply_line r)) }
{
    match has(alloc, text, version) {
        Ok(held) => Ok(Reply::Decided(held)),
        Err(refusal) => Ok(refuse(refusal)?),
    }
}
