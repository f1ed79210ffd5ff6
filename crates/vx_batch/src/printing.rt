ghost use Rattle.std.specs.Prelude.{◌≡◌, ◌++◌, IfOk, OnOk, codes, true};
ghost use Rattle.vx_spec.specs.Numerals.{numeral_text};
ghost use Rattle.vx_batch.specs.Answers.{refusal_line, purl_line};
ghost use Rattle.vx_batch.specs.Steps.Replies.{fault_line, is_accepted, reply_line};

use crate::names::{back_kind_text, end_kind_text, part_text};
use crate::reply::{Answer, LineFault, Reply};
use purl_core::PurlFault;
use std::alloc::Global;
use vx_scheme::{NoMemory, Text};
use vx_translate::Refusal;

// Room for the line of a decision, or of a refusal with its place.
const MOST_OF_A_REFUSAL: usize = 64;

/// The answer that a line has this reply. A text that was found becomes its answer line where it lies.
pub fn answer_of(alloc: Global, reply: Reply) -> Result<Answer, NoMemory>
    ensures { IfOk result (λ a. (a.ok ≡ is_accepted reply) × (a.text ≡ reply_line reply)) }
{
    match reply {
        Reply::Found(text) => found_answer(text),
        other => short_answer(alloc, &other),
    }
}

// The answer that this text was found.
fn found_answer(mut text: Text) -> Result<Answer, NoMemory>
    ensures { IfOk result (λ a. (a.ok ≡ true) × (a.text ≡ codes "ok\t" ++ text)) }
{
    text.push_front("ok\t")?;
    Ok(Answer { ok: true, text })
}

// The answer that a line has this reply, in a text of its own, with room for a decision or a refusal.
fn short_answer(alloc: Global, reply: &Reply) -> Result<Answer, NoMemory>
    ensures { IfOk result (λ a. (a.ok ≡ is_accepted reply.now) × (a.text ≡ reply_line reply.now)) }
{
    let mut text = Text::with_room(alloc, MOST_OF_A_REFUSAL)?;
    push_reply(&mut text, reply)?;
    Ok(Answer {
        ok: reply.is_accepted(),
        text,
    })
}

/// Appends the answer line, without its line feed.
pub fn push_reply(text: &mut Text, reply: &Reply) -> Result<(), NoMemory>
    ensures { OnOk result (text.new ≡ text.old ++ reply_line reply.now) }
{
    match reply {
        Reply::Found(found) => push_two(text, "ok\t", found.as_str()),
        Reply::Decided(decision) => text.push_str(if *decision { "ok\tyes" } else { "ok\tno" }),
        Reply::Fault(fault) => text.push_str(fault_text(*fault)),
        Reply::Refused(refusal) => push_refusal(text, *refusal),
        Reply::BadPurl(fault) => push_purl_fault(text, *fault),
    }
}

// The line of a refusal that blames no part of a text.
fn fault_text(fault: LineFault) -> &'static str
    ensures { result.now ≡ fault_line fault }
{
    match fault {
        LineFault::TooLong => "no\t1 LineTooLong\t-",
        LineFault::NotText => "no\t2 NotText\t-",
        LineFault::BadCommand => "no\t3 BadCommand\t-",
        LineFault::BadScheme => "no\t4 BadScheme\t-",
        LineFault::BadDomain => "no\t5 BadDomain\t-",
        LineFault::NoVersion => "no\t15 NoVersion\t-",
        LineFault::NoScheme => "no\t16 NoScheme\t-",
    }
}

// Appends two pieces.
fn push_two(text: &mut Text, front: &str, back: &str) -> Result<(), NoMemory>
    ensures { OnOk result (text.new ≡ text.old ++ (front.now ++ back.now)) }
{
    text.push_str(front)?;
    text.push_str(back)
}

// Appends the beginning of a line, and a place.
fn push_place(text: &mut Text, front: &str, at: u128) -> Result<(), NoMemory>
    ensures { OnOk result (text.new ≡ text.old ++ (front.now ++ numeral_text at)) }
{
    text.push_str(front)?;
    text.push_number(at)
}

// Appends the beginning of a line, a kind or part, and a place.
fn push_kind(text: &mut Text, front: &str, kind: &str, at: u128) -> Result<(), NoMemory>
    ensures { OnOk result (text.new ≡ text.old ++ ((front.now ++ kind.now) ++ (codes " " ++ numeral_text at))) }
{
    push_two(text, front, kind)?;
    push_place(text, " ", at)
}

// Appends the line of a refusal. Want of memory has none.
fn push_refusal(text: &mut Text, refusal: Refusal) -> Result<(), NoMemory>
    ensures { OnOk result (text.new ≡ text.old ++ refusal_line refusal) }
{
    match refusal {
        Refusal::DomainNotOffered => text.push_str("no\t6 DomainNotOffered\t-"),
        Refusal::Syntax(at) => push_place(text, "no\t7 Syntax\t", at as u128),
        Refusal::Numeral(at) => push_place(text, "no\t8 Numeral\t", at as u128),
        Refusal::NoEndpoint(kind, at) => {
            push_kind(text, "no\t9 NoEndpoint\t", end_kind_text(kind), at as u128)
        }
        Refusal::Empty => text.push_str("no\t10 Empty\t-"),
        Refusal::BadVers(part, k) => push_kind(
            text,
            "no\t11 BadVers\t",
            part_text(part),
            k as u128,
        ),
        Refusal::BadVersion => text.push_str("no\t12 BadVersion\t-"),
        Refusal::NoNative(kind, k) => {
            push_kind(text, "no\t13 NoNative\t", back_kind_text(kind), k as u128)
        }
        Refusal::NoMemory => text.push_str(""),
    }
}

// Appends the line of a refused package URL. Want of memory has none.
fn push_purl_fault(text: &mut Text, fault: PurlFault) -> Result<(), NoMemory>
    ensures { OnOk result (text.new ≡ text.old ++ purl_line fault) }
{
    match fault {
        PurlFault::Scheme => text.push_str("no\t14 BadPurl\tScheme 0"),
        PurlFault::BadType => text.push_str("no\t14 BadPurl\tType 0"),
        PurlFault::Name => text.push_str("no\t14 BadPurl\tName 0"),
        PurlFault::Escape(at) => push_place(text, "no\t14 BadPurl\tEscape ", at as u128),
        PurlFault::NotText(at) => push_place(text, "no\t14 BadPurl\tNotText ", at as u128),
        PurlFault::Qualifier(at) => push_place(text, "no\t14 BadPurl\tQualifier ", at as u128),
        PurlFault::DuplicateKey(at) => {
            push_place(text, "no\t14 BadPurl\tDuplicateKey ", at as u128)
        }
        PurlFault::NoMemory => text.push_str(""),
    }
}
