ghost use Rattle.std.specs.Prelude.{◌≡◌, ◌∷◌, [], IfOk, IfErr, OnOk, map};
ghost use Rattle.std.specs.List.{AllByRecursion};
ghost use Rattle.vx_scheme.specs.Native.{Refused};
ghost use Rattle.vx_range.specs.Pieces.{as_written, IsInPlace};
ghost use Rattle.vx_range.specs.Reading.{IsNoConstruct};
ghost use Rattle.vx_range.specs.Steps.Found.{IsPieceFound, IsGroupFound, AddsSpans, IsGroupMade, IsSyntaxOf};

use crate::few::Pieces;
use crate::findings::{Findings, add_piece};
use crate::language::Language;
use crate::piece::Piece;
use std::alloc::Global;
use vx_scheme::{Alternative, Domain, NoMemory, RangeFault, Spans};

/// What a group of pieces becomes: an alternative, where each construct is a term of its own, or a term, where the spans
/// of all constructs are in one list.
pub(crate) trait Shape<L: Language>: Drop {
    ghost use Rattle.std.specs.Prelude.{List};
    ghost use Rattle.vx_scheme.specs.declared.span.Span.{Span};

    /// What the spans of each construct of a group become together.
    ghost together: { List (List (Span L.Version)) → Self };

    /// What a group without constructs becomes, with room for so many.
    fn with_room(alloc: Global, count: usize) -> Result<Self, NoMemory>
        ensures { IfOk result (λ empty. empty ≡ together []) };

    /// Reads a piece once, and adds its spans or takes down its refusal. A piece that is no construct ends the reading.
    fn add(
        &mut self,
        alloc: Global,
        piece: &Piece<L::Kind>,
        domain: Domain,
        findings: &mut Findings,
    ) -> Result<(), RangeFault>
        requires { IsInPlace (as_written piece.now) }
        ensures ok { OnOk result (IsPieceFound L.ReadsAs L.IsPast (L.outcome domain) (as_written piece.now) findings.old findings.new
            (AddsSpans together (L.spans domain) findings.old.marks findings.new.marks self.old self.new)) }
        ensures err { IfErr result (Refused (IsSyntaxOf (IsNoConstruct L.ReadsAs) (as_written piece.now ∷ []))) };
}

impl<L: Language> Shape<L> for Alternative<L::Version> {
    ghost together = { λ each. each };

    fn with_room(alloc: Global, count: usize) -> Result<Self, NoMemory> {
        Alternative::with_room(alloc, count)
    }

    fn add(
        &mut self,
        alloc: Global,
        piece: &Piece<L::Kind>,
        domain: Domain,
        findings: &mut Findings,
    ) -> Result<(), RangeFault> {
        let mut spans = Spans::with_room(alloc, 1)?;
        add_piece::<L>(alloc, piece, domain, findings, &mut spans)?;
        self.push(spans)?;
        Ok(())
    }
}

impl<L: Language> Shape<L> for Spans<L::Version> {
    ghost use Rattle.vx_spec.specs.Each.{joined};

    ghost together = { λ each. joined each };

    fn with_room(alloc: Global, count: usize) -> Result<Self, NoMemory> {
        Spans::with_room(alloc, count)
    }

    fn add(
        &mut self,
        alloc: Global,
        piece: &Piece<L::Kind>,
        domain: Domain,
        findings: &mut Findings,
    ) -> Result<(), RangeFault> {
        add_piece::<L>(alloc, piece, domain, findings, self)
    }
}

/// What a group of pieces becomes.
pub(crate) fn read_group<L: Language, S: Shape<L>>(
    alloc: Global,
    pieces: &Pieces<L::Kind>,
    domain: Domain,
    findings: &mut Findings,
) -> Result<S, RangeFault>
    requires { AllByRecursion IsInPlace (map as_written pieces.now) }
    ensures ok { IfOk result (λ shape. IsGroupFound L.ReadsAs L.IsPast (L.outcome domain) (map as_written pieces.now) findings.old findings.new
        (IsGroupMade S.together (L.spans domain) findings.old.marks findings.new.marks shape)) }
    ensures err { IfErr result (Refused (IsSyntaxOf (IsNoConstruct L.ReadsAs) (map as_written pieces.now))) }
{
    let mut shape = S::with_room(alloc, pieces.len())?;
    for i in 0..pieces.len() {
        shape.add(alloc, pieces.get(i), domain, findings)?;
    }
    Ok(shape)
}
