use crate::back::text_of;
use crate::bracket::Bracket;
use crate::cutting::{Kind, cut_text};
use crate::making::push_bracket;
use crate::reading::read_piece;
use crate::table::Brackets;
use std::alloc::{AllocError, Global};
use std::cmp::Ordering;
use std::marker::PhantomData;
use vx_range::{Groups, Language, Making, Outcome, Piece, PieceReading, bounds_of_terms};
use vx_scheme::{
    BackFault, Bounds, Domain, Native, NoMemory, RangeFault, Scheme, SchemeName, Spans, Text,
    VersionFault,
};

/// The range language of a table of brackets, over the same versions.
#[derive(Debug, Clone, Copy)]
pub struct BracketRange<B> {
    table: PhantomData<B>,
}

impl<B: Brackets> Scheme for BracketRange<B> {
    type Version = B::Version;

    ghost name = { B.name };

    ghost IsVersion = { B.IsVersion };

    ghost IsWithin = { B.IsWithin };

    ghost order = { B.order };

    ghost InAll = { B.InAll };

    ghost IsRelease = { B.IsRelease };

    ghost Spells = { B.Spells };

    ghost normal = { B.normal };

    ghost total = { B.total };

    ghost texts = { B.texts };

    fn scheme() -> SchemeName {
        B::scheme()
    }

    fn read(alloc: Global, text: &str) -> Result<B::Version, VersionFault> {
        B::read(alloc, text)
    }

    fn write(version: &B::Version, out: &mut Text) -> Result<(), NoMemory> {
        B::write(version, out)
    }

    fn compare(a: &B::Version, b: &B::Version) -> Ordering {
        B::compare(a, b)
    }

    fn is_release(version: &B::Version) -> bool {
        B::is_release(version)
    }

    fn copy(alloc: Global, version: &B::Version) -> Result<B::Version, NoMemory> {
        B::copy(alloc, version)
    }
}

impl<B: Brackets> Making for BracketRange<B> {
    ghost use Rattle.bracket_ranges.specs.Holds.{holds};
    ghost use Rattle.bracket_ranges.specs.Spans.{spans_of, outcome};
    ghost use Rattle.bracket_ranges.specs.Laws.Spans.{bracket_says};

    type Construct = Bracket<B::Version>;

    ghost spans = { λ domain. spans_of B.order };

    ghost outcome = { outcome };

    ghost holds = { holds B.order };

    ghost agrees = { λ domain mark bracket v is within spans. bracket_says B.order B.total mark bracket v };

    fn push_spans(
        alloc: Global,
        construct: Bracket<B::Version>,
        _domain: Domain,
        marks: &mut u64,
        out: &mut Spans<B::Version>,
    ) -> Result<Outcome, NoMemory> {
        push_bracket::<B>(alloc, construct, marks, out)?;
        Ok(Outcome::Spans)
    }
}

impl<B: Brackets> Language for BracketRange<B> {
    ghost use Rattle.bracket_ranges.specs.Cutting.{IsCut};
    ghost use Rattle.bracket_ranges.specs.Reading.{ReadsAs, IsPast};
    ghost use Rattle.bracket_ranges.specs.Laws.Reading.{cut_laws, piece_laws};

    type Kind = Kind;

    ghost IsCut = { IsCut B.lists };

    ghost ReadsAs = { ReadsAs B.Spells B.alone };

    ghost IsPast = { IsPast B.Spells B.first_past };

    ghost cuts = { cut_laws B.lists };

    ghost pieces = { piece_laws B.Spells B.first_past B.alone B.texts.spells_one B.words };

    fn cut_text(alloc: Global, text: &[u8]) -> Result<Groups<'_, Kind>, AllocError> {
        cut_text(alloc, B::lists(), text)
    }

    fn read_piece(
        alloc: Global,
        piece: &Piece<'_, Kind>,
    ) -> Result<PieceReading<Bracket<B::Version>>, NoMemory> {
        read_piece::<B>(alloc, piece)
    }
}

impl<B: Brackets> Native for BracketRange<B> {
    ghost use Rattle.std.specs.Prelude.{⊤};
    ghost use Rattle.vx_scheme.specs.declared.domain.Domain.TheVariants as domain_of;
    ghost use Rattle.vx_scheme.specs.Native.{by_domain};
    ghost use Rattle.bracket_ranges.specs.Range.{IsRange, In, Makes, Refuses};
    ghost use Rattle.bracket_ranges.specs.Back.{back};
    ghost use Rattle.bracket_ranges.specs.Laws.Range.{range_laws};
    ghost use Rattle.bracket_ranges.specs.Laws.Back.{back_laws};

    ghost Offers = { λ _. ⊤ };

    ghost usual = { domain_of.All };

    ghost IsRange = { IsRange B.lists B.alone B.Spells };

    ghost In = { In B.lists B.alone B.Spells B.order };

    ghost Makes = { Makes B.lists B.alone B.Spells B.first_past B.order };

    ghost Refuses = { Refuses B.lists B.alone B.Spells B.first_past };

    ghost back = { back B.order B.normal B.lists };

    ghost ranges = { range_laws B.lists B.alone B.Spells B.first_past B.texts.spells_one B.words B.order B.total
        B.IsVersion (by_domain B.InAll B.IsRelease) };

    ghost backs = { back_laws B.alone B.Spells B.first_past B.words B.order B.total B.IsVersion B.IsWithin B.normal
        B.texts B.lists (by_domain B.InAll B.IsRelease) };

    /// Both domains are offered.
    fn offers(_domain: Domain) -> bool {
        true
    }

    fn default_domain() -> Domain {
        Domain::All
    }

    /// The spans of the brackets: one alternative of one term. `Syntax` comes where a piece is no bracket, then `Numeral`
    /// where one of its numerals is past the limit; each names the first such place.
    fn bounds(alloc: Global, text: &str, domain: Domain) -> Result<Bounds<B::Version>, RangeFault> {
        bounds_of_terms::<BracketRange<B>>(alloc, text, domain)
    }

    /// The text of the spans, the same in each domain: a bracket for each. Where a text may not list brackets, `PointHole`
    /// comes where the first gap is a hole of one order class, and `NotOneInterval` where there is another first gap.
    fn unbounds(
        alloc: Global,
        spans: &Spans<B::Version>,
        _domain: Domain,
    ) -> Result<Text, BackFault> {
        text_of::<B>(alloc, B::lists(), spans.as_slice())
    }
}
