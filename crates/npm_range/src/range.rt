use crate::back::text_of_spans;
use crate::construct::Construct;
use crate::cutting::{Kind, NpmPiece, cut_text};
use crate::{making, reading};
use npm_scheme::{Npm, NpmVersion};
use std::alloc::{AllocError, Global};
use std::cmp::Ordering;
use vx_range::{Groups, Language, Making, Outcome, PieceReading, bounds_of_alternatives};
use vx_scheme::{
    BackFault, Bounds, Domain, Native, NoMemory, RangeFault, Scheme, SchemeName, Spans, Text,
    VersionFault,
};

/// npm's versions with npm's range language.
pub struct NpmRange;

impl Scheme for NpmRange {
    ghost use Rattle.npm_scheme.specs.Order.{order_total};
    ghost use Rattle.npm_scheme.specs.Laws.Texts.{npm_texts};

    type Version = NpmVersion;

    ghost name = { ⟦<Npm as Scheme>⟧.name };

    ghost IsVersion = { ⟦<Npm as Scheme>⟧.IsVersion };

    ghost IsWithin = { ⟦<Npm as Scheme>⟧.IsWithin };

    ghost order = { ⟦<Npm as Scheme>⟧.order };

    ghost IsRelease = { ⟦<Npm as Scheme>⟧.IsRelease };

    ghost Spells = { ⟦<Npm as Scheme>⟧.Spells };

    ghost normal = { ⟦<Npm as Scheme>⟧.normal };

    ghost total = { order_total };

    ghost texts = { npm_texts };

    fn scheme() -> SchemeName {
        Npm::scheme()
    }

    fn read(alloc: Global, text: &str) -> Result<NpmVersion, VersionFault> {
        Npm::read(alloc, text)
    }

    fn write(version: &NpmVersion, out: &mut Text) -> Result<(), NoMemory> {
        Npm::write(version, out)
    }

    fn compare(a: &NpmVersion, b: &NpmVersion) -> Ordering {
        Npm::compare(a, b)
    }

    fn is_release(version: &NpmVersion) -> bool {
        Npm::is_release(version)
    }

    fn copy(alloc: Global, version: &NpmVersion) -> Result<NpmVersion, NoMemory> {
        Npm::copy(alloc, version)
    }
}

impl Making for NpmRange {
    ghost use Rattle.npm_range.specs.Refusals.{outcome};
    ghost use Rattle.npm_range.specs.Holds.{holds};
    ghost use Rattle.npm_range.specs.Spans.{made_spans};
    ghost use Rattle.npm_range.specs.Laws.Tables.{npm_agrees};

    type Construct = Construct;

    ghost spans = { made_spans };

    ghost outcome = { λ domain. outcome };

    ghost holds = { holds };

    ghost agrees = { npm_agrees };

    fn push_spans(
        alloc: Global,
        construct: Construct,
        domain: Domain,
        marks: &mut u64,
        out: &mut Spans<NpmVersion>,
    ) -> Result<Outcome, NoMemory> {
        making::push_spans(alloc, construct, domain, marks, out)
    }
}

impl Language for NpmRange {
    ghost use Rattle.npm_range.specs.Cutting.{IsCut};
    ghost use Rattle.npm_range.specs.Reading.{ReadsAs};
    ghost use Rattle.npm_range.specs.Refusals.{IsPast};
    ghost use Rattle.npm_range.specs.Laws.Cuts.{npm_cuts};
    ghost use Rattle.npm_range.specs.Laws.Pieces.{npm_pieces};

    type Kind = Kind;

    ghost IsCut = { IsCut };

    ghost ReadsAs = { ReadsAs };

    ghost IsPast = { IsPast };

    ghost cuts = { npm_cuts };

    ghost pieces = { npm_pieces };

    fn cut_text(alloc: Global, text: &[u8]) -> Result<Groups<'_, Kind>, AllocError> {
        cut_text(alloc, text)
    }

    fn read_piece(alloc: Global, piece: &NpmPiece) -> Result<PieceReading<Construct>, NoMemory> {
        reading::read_piece(alloc, piece)
    }
}

impl Native for NpmRange {
    ghost use Rattle.std.specs.Prelude.{⊤};
    ghost use Rattle.vx_scheme.specs.declared.domain.Domain.TheVariants as domain_of;
    ghost use Rattle.npm_range.specs.Range.{IsRange, In, Makes, Refuses};
    ghost use Rattle.npm_range.specs.Back.{back};
    ghost use Rattle.npm_range.specs.Laws.Ranges.{npm_ranges};
    ghost use Rattle.npm_range.specs.Laws.Backs.{npm_backs};

    ghost Offers = { λ _. ⊤ };

    ghost usual = { domain_of.All };

    ghost IsRange = { IsRange };

    ghost In = { In };

    ghost Makes = { Makes };

    ghost Refuses = { Refuses };

    ghost back = { back };

    ghost ranges = { npm_ranges };

    ghost backs = { npm_backs };

    fn offers(_domain: Domain) -> bool {
        true
    }

    fn default_domain() -> Domain {
        Domain::All
    }

    fn bounds(alloc: Global, text: &str, domain: Domain) -> Result<Bounds<NpmVersion>, RangeFault> {
        bounds_of_alternatives::<NpmRange>(alloc, text, domain)
    }

    fn unbounds(
        alloc: Global,
        spans: &Spans<NpmVersion>,
        _domain: Domain,
    ) -> Result<Text, BackFault> {
        let text = text_of_spans(alloc, spans.as_slice())?;
        Ok(text)
    }
}
