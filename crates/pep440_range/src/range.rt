ghost use Rattle.std.specs.Prelude.{◌≡◌, ℕ, Err, IfErr, IfOk};
ghost use Rattle.vx_scheme.specs.declared.range_fault.EndKind.{EndKind};
ghost use Rattle.vx_scheme.specs.declared.range_fault.RangeFault.TheVariants.{NoEndpoint};
ghost use Rattle.vx_scheme.specs.Native.{Refused};
ghost use Rattle.pep440_range.specs.NoEnd.{HasNoEnd};
ghost use Rattle.pep440_range.specs.Range.{Makes, Refuses};

use crate::construct::Construct;
use crate::{back, making, reading};
use pep440_scheme::{Pep440Version, Pypi};
use std::alloc::{AllocError, Global};
use std::cmp::Ordering;
use vx_range::{
    Groups, Language, Making, Outcome, Piece, PieceReading, bounds_of_terms, group_list,
};
use vx_scheme::{
    BackFault, Bounds, Domain, Native, NoMemory, RangeFault, Scheme, SchemeName, Spans, Text,
    VersionFault,
};

/// PyPI's versions with PyPI's range language.
pub struct PypiRange;

impl Scheme for PypiRange {
    ghost use Rattle.pep440_scheme.specs.Order.{order_total};
    ghost use Rattle.pep440_scheme.specs.Laws.Texts.{pypi_texts};

    type Version = Pep440Version;

    ghost name = { ⟦<Pypi as Scheme>⟧.name };

    ghost IsVersion = { ⟦<Pypi as Scheme>⟧.IsVersion };

    ghost IsWithin = { ⟦<Pypi as Scheme>⟧.IsWithin };

    ghost order = { ⟦<Pypi as Scheme>⟧.order };

    ghost IsRelease = { ⟦<Pypi as Scheme>⟧.IsRelease };

    ghost Spells = { ⟦<Pypi as Scheme>⟧.Spells };

    ghost normal = { ⟦<Pypi as Scheme>⟧.normal };

    ghost total = { order_total };

    ghost texts = { pypi_texts };

    fn scheme() -> SchemeName {
        Pypi::scheme()
    }

    fn read(alloc: Global, text: &str) -> Result<Pep440Version, VersionFault> {
        Pypi::read(alloc, text)
    }

    fn write(version: &Pep440Version, out: &mut Text) -> Result<(), NoMemory> {
        Pypi::write(version, out)
    }

    fn compare(a: &Pep440Version, b: &Pep440Version) -> Ordering {
        Pypi::compare(a, b)
    }

    fn is_release(version: &Pep440Version) -> bool {
        Pypi::is_release(version)
    }

    fn copy(alloc: Global, version: &Pep440Version) -> Result<Pep440Version, NoMemory> {
        Pypi::copy(alloc, version)
    }
}

impl Making for PypiRange {
    ghost use Rattle.pep440_range.specs.Refusals.{outcome};
    ghost use Rattle.pep440_range.specs.Holds.{holds};
    ghost use Rattle.pep440_range.specs.Spans.{made_spans};
    ghost use Rattle.pep440_range.specs.Laws.Agrees.{pypi_agrees};

    type Construct = Construct;

    ghost spans = { made_spans };

    ghost outcome = { outcome };

    ghost holds = { holds };

    ghost agrees = { pypi_agrees };

    fn push_spans(
        alloc: Global,
        construct: Construct,
        domain: Domain,
        marks: &mut u64,
        out: &mut Spans<Pep440Version>,
    ) -> Result<Outcome, NoMemory> {
        making::push_spans(alloc, construct, domain, marks, out)
    }
}

impl Language for PypiRange {
    ghost use Rattle.pep440_range.specs.Reading.{IsCut, ReadsAs};
    ghost use Rattle.pep440_range.specs.Refusals.{IsPast};
    ghost use Rattle.pep440_range.specs.Laws.Readings.{pypi_cuts, pypi_pieces};

    type Kind = ();

    ghost IsCut = { IsCut };

    ghost ReadsAs = { ReadsAs };

    ghost IsPast = { IsPast };

    ghost cuts = { pypi_cuts };

    ghost pieces = { pypi_pieces };

    fn cut_text(alloc: Global, text: &[u8]) -> Result<Groups<'_, ()>, AllocError> {
        group_list(alloc, text, None)
    }

    fn read_piece(
        alloc: Global,
        piece: &Piece<'_, ()>,
    ) -> Result<PieceReading<Construct>, NoMemory> {
        reading::read_piece(alloc, piece)
    }
}

impl Native for PypiRange {
    ghost use Rattle.std.specs.Prelude.{⊤};
    ghost use Rattle.vx_scheme.specs.declared.domain.Domain.TheVariants as domain_of;
    ghost use Rattle.pep440_range.specs.Range.{IsRange, In, Makes, Refuses};
    ghost use Rattle.pep440_range.specs.Back.{back};
    ghost use Rattle.pep440_range.specs.Laws.Ranges.{pypi_ranges};
    ghost use Rattle.pep440_range.specs.Laws.Backs.{pypi_backs};

    ghost Offers = { λ _. ⊤ };

    ghost usual = { domain_of.Releases };

    ghost IsRange = { IsRange };

    ghost In = { In };

    ghost Makes = { Makes };

    ghost Refuses = { Refuses };

    ghost back = { back };

    ghost ranges = { pypi_ranges };

    ghost backs = { pypi_backs };

    fn offers(_domain: Domain) -> bool {
        true
    }

    fn default_domain() -> Domain {
        Domain::Releases
    }

    /// The spans of the constructs: one alternative, whose terms are those of the text. Where `NoEndpoint` comes, no list of
    /// versions holds what the construct does; of `===T` this is said where T is the normal text of a version of the domain, but for
    /// the case of letters.
    fn bounds(
        alloc: Global,
        text: &str,
        domain: Domain,
    ) -> Result<Bounds<Pep440Version>, RangeFault>
        ensures ok { IfOk result (λ bounds. Makes domain text.now bounds) }
        ensures err { IfErr result (Refused (Refuses domain text.now)) }
        ensures no_end { (kind : EndKind) (at : ℕ) → result ≡ Err (NoEndpoint kind at) → HasNoEnd domain text.now kind at }
    {
        bounds_of_terms::<PypiRange>(alloc, text, domain)
    }

    /// The text of the spans: `==V` of one version, and else the lower bound, the upper bound and `!=` for each gap. In the domain
    /// of all a lower cut after a public version, an upper cut after one and a hole at one give `LocalsApart`, since no text parts
    /// a public version from its local ones; a bound with a local version label gives `LocalBound`, and any other gap
    /// `NotOneInterval`.
    fn unbounds(
        alloc: Global,
        spans: &Spans<Pep440Version>,
        domain: Domain,
    ) -> Result<Text, BackFault> {
        back::text_of(alloc, spans.as_slice(), domain)
    }
}
