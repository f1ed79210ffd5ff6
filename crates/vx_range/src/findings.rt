ghost use Rattle.std.specs.Prelude.{◌≡◌, ◌∷◌, [], None, Some, IfOk, IfErr, OnOk, map};
ghost use Rattle.std.specs.List.{AllByRecursion};
ghost use Rattle.vx_spec.specs.Each.{joined};
ghost use Rattle.vx_scheme.specs.Native.{Refused};
ghost use Rattle.vx_range.specs.Pieces.{as_written, IsInPlace};
ghost use Rattle.vx_range.specs.Reading.{IsNoConstruct};
ghost use Rattle.vx_range.specs.Making.{made_each, marks_behind};
ghost use Rattle.vx_range.specs.Steps.Ends.{start, EndsWith};
ghost use Rattle.vx_range.specs.Steps.Found.{IsConstructFound, IsPieceFound, IsGroupFound, AppendsSpans, IsSyntaxOf};

use crate::language::Language;
use crate::making::{Making, Outcome};
use crate::piece::{Piece, PieceReading};
use std::alloc::Global;
use vx_scheme::{Alternative, Domain, EndKind, NoMemory, RangeFault, Spans};

/// What was found on the way through a range text: the mark of the next cut, and the first refusal of each kind so far.
#[derive(Drop)]
pub(crate) struct Findings {
    /// The mark of the next cut.
    pub(crate) marks: u64,
    /// Where the first numeral past the limit begins.
    pub(crate) past: Option<usize>,
    /// The first construct that has no end: of which kind, and where it begins.
    pub(crate) endless: Option<(EndKind, usize)>,
    /// Where the first construct begins that cannot be raised.
    pub(crate) too_high: Option<usize>,
}

impl Findings {
    /// Nothing is found, and the next mark is 0.
    pub(crate) fn start() -> Self
        ensures { result ≡ start }
    {
        Findings {
            marks: 0,
            past: None,
            endless: None,
            too_high: None,
        }
    }

    /// The first refusal of what was found.
    pub(crate) fn end(&self) -> Result<(), RangeFault>
        ensures { EndsWith self.now result }
    {
        if let Some(at) = self.past {
            return Err(RangeFault::Numeral(at));
        }
        if let Some((kind, at)) = self.endless {
            return Err(RangeFault::NoEndpoint(kind, at));
        }
        match self.too_high {
            Some(at) => Err(RangeFault::Numeral(at)),
            None => Ok(()),
        }
    }
}

/// Appends the spans of a construct that begins at this place, or takes down why there are none.
fn add_construct<M: Making>(
    alloc: Global,
    construct: M::Construct,
    at: usize,
    domain: Domain,
    findings: &mut Findings,
    out: &mut Spans<M::Version>,
) -> Result<(), NoMemory>
    ensures { OnOk result (IsConstructFound (M.spans domain) (M.outcome domain) construct at findings.old findings.new out.old out.new) }
{
    match M::push_spans(alloc, construct, domain, &mut findings.marks, out)? {
        Outcome::Spans => {}
        Outcome::NoEnd(kind) => findings.endless = findings.endless.or(Some((kind, at))),
        Outcome::TooHigh => findings.too_high = findings.too_high.or(Some(at)),
    }
    Ok(())
}

/// Reads a piece once, and appends its spans or takes down its refusal. A piece that is no construct ends the reading.
pub(crate) fn add_piece<L: Language>(
    alloc: Global,
    piece: &Piece<L::Kind>,
    domain: Domain,
    findings: &mut Findings,
    out: &mut Spans<L::Version>,
) -> Result<(), RangeFault>
    requires { IsInPlace (as_written piece.now) }
    ensures ok { OnOk result (IsPieceFound L.ReadsAs L.IsPast (L.outcome domain) (as_written piece.now) findings.old findings.new
        (AppendsSpans (L.spans domain) findings.old.marks findings.new.marks out.old out.new)) }
    ensures err { IfErr result (Refused (IsSyntaxOf (IsNoConstruct L.ReadsAs) (as_written piece.now ∷ []))) }
{
    match L::read_piece(alloc, piece)? {
        PieceReading::Construct(construct) => {
            add_construct::<L>(alloc, construct, piece.at, domain, findings, out)?;
        }
        PieceReading::Past(at) => findings.past = findings.past.or(Some(at)),
        PieceReading::NoConstruct => return Err(RangeFault::Syntax(piece.at)),
    }
    Ok(())
}
