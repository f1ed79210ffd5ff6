ghost use Rattle.std.specs.Prelude.{◌≡◌, ◌≢◌, false, IfOk};
ghost use Rattle.vx_translate.specs.declared.refusal.Refusal.TheVariants as refusal_of;
ghost use Rattle.purl_core.specs.declared.fault.PurlFault.TheVariants as purl_fault_of;
ghost use Rattle.vx_translate.specs.declared.check_refusal.CheckRefusal.TheVariants as check_refusal_of;
ghost use Rattle.vx_batch.specs.Answers.{check_line, refusal_line, purl_line};
ghost use Rattle.vx_batch.specs.Steps.Replies.{is_accepted, reply_line};

use purl_core::PurlFault;
use vx_scheme::{NoMemory, Text};
use vx_translate::{CheckRefusal, Refusal};

/// The answer to a line: whether it is an accepted line's, and the answer line without its line feed.
#[derive(Debug, Drop)]
pub struct Answer {
    /// Whether the answer line is an accepted line's.
    pub ok: bool,
    /// The answer line, without its line feed.
    pub text: Text,
}

/// Why a line is refused, where no part of a text is to blame.
#[derive(Debug, Clone, Copy, PartialEq, Eq)]
pub enum LineFault {
    /// It has too many bytes.
    TooLong,
    /// It is no text in UTF-8.
    NotText,
    /// Its fields are no request.
    BadCommand,
    /// No scheme has the name.
    BadScheme,
    /// No domain has the name.
    BadDomain,
    /// The package URL has no version.
    NoVersion,
    /// The type of the package URL is not the scheme's name.
    NoScheme,
}

/// What a line is answered, before it is printed.
#[derive(Debug, Drop)]
pub enum Reply {
    /// It is accepted, with this text.
    Found(Text),
    /// It is accepted, with this decision.
    Decided(bool),
    /// The line is refused.
    Fault(LineFault),
    /// The translation is refused.
    Refused(Refusal),
    /// The package URL is refused.
    BadPurl(PurlFault),
}

impl Reply {
    /// Whether the line is accepted.
    pub fn is_accepted(&self) -> bool
        ensures { result ≡ is_accepted self.now }
    {
        match self {
            Reply::Found(_) | Reply::Decided(_) => true,
            Reply::Fault(_) | Reply::Refused(_) | Reply::BadPurl(_) => false,
        }
    }
}

/// The reply that a translation is refused so. Want of memory is no reply.
pub fn refuse(refusal: Refusal) -> Result<Reply, NoMemory>
    ensures line { IfOk result (λ r. (is_accepted r ≡ false) × (reply_line r ≡ refusal_line refusal)) }
    ensures told { IfOk result (λ _. refusal ≢ refusal_of.NoMemory) }
{
    match refusal {
        Refusal::NoMemory => Err(NoMemory),
        _ => Ok(Reply::Refused(refusal)),
    }
}

/// The reply that a package URL is refused so. Want of memory is no reply.
pub fn refuse_purl(fault: PurlFault) -> Result<Reply, NoMemory>
    ensures line { IfOk result (λ r. (is_accepted r ≡ false) × (reply_line r ≡ purl_line fault)) }
    ensures told { IfOk result (λ _. fault ≢ purl_fault_of.NoMemory) }
{
    match fault {
        PurlFault::NoMemory => Err(NoMemory),
        _ => Ok(Reply::BadPurl(fault)),
    }
}

/// The reply that a check is refused so. Want of memory is no reply.
pub fn refuse_check(refusal: CheckRefusal) -> Result<Reply, NoMemory>
    ensures line { IfOk result (λ r. (is_accepted r ≡ false) × (reply_line r ≡ check_line refusal)) }
    ensures told { IfOk result (λ _. refusal ≢ check_refusal_of.NoMemory) }
{
    match refusal {
        CheckRefusal::Vers(refusal) => refuse(refusal),
        CheckRefusal::BadPurl(fault) => refuse_purl(fault),
        CheckRefusal::NoVersion => Ok(Reply::Fault(LineFault::NoVersion)),
        CheckRefusal::NoScheme => Ok(Reply::Fault(LineFault::NoScheme)),
        CheckRefusal::NoMemory => Err(NoMemory),
    }
}
