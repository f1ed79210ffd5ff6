ghost use Rattle.std.specs.Prelude.{◌≡◌, ℕ, Err, IfErr, IfOk};
ghost use Rattle.vx_scheme.specs.declared.range_fault.EndKind.{EndKind};
ghost use Rattle.vx_scheme.specs.declared.range_fault.RangeFault.TheVariants.{NoEndpoint};
ghost use Rattle.vx_scheme.specs.Native.{Refused, by_domain};
ghost use Rattle.relation_ranges.specs.NoEnd.{HasNoEnd};
ghost use Rattle.relation_ranges.specs.Range.{Makes, Refuses};

use crate::reading::read_relation;
use crate::relations::{BackForm, Relation, Relations};
use std::alloc::{AllocError, Global};
use std::cmp::Ordering;
use std::marker::PhantomData;
use vx_range::{
    Groups, Language, Making, Outcome, Piece, PieceReading, bounds_of_terms, group_list,
};
use vx_scheme::{
    BackFault, Bounds, Domain, Native, NoMemory, RangeFault, Scheme, SchemeName, Spans, Text,
    VersionFault,
};

/// The range language of a table of relations, over the same versions.
#[derive(Debug, Clone, Copy)]
pub struct RelationRange<R> {
    table: PhantomData<R>,
}

impl<R: Relations> Scheme for RelationRange<R> {
    type Version = R::Version;

    ghost name = { R.name };

    ghost IsVersion = { R.IsVersion };

    ghost IsWithin = { R.IsWithin };

    ghost order = { R.order };

    ghost InAll = { R.InAll };

    ghost IsRelease = { R.IsRelease };

    ghost Spells = { R.Spells };

    ghost normal = { R.normal };

    ghost total = { R.total };

    ghost texts = { R.texts };

    fn scheme() -> SchemeName {
        R::scheme()
    }

    fn read(alloc: Global, text: &str) -> Result<R::Version, VersionFault> {
        R::read(alloc, text)
    }

    fn write(version: &R::Version, out: &mut Text) -> Result<(), NoMemory> {
        R::write(version, out)
    }

    fn compare(a: &R::Version, b: &R::Version) -> Ordering {
        R::compare(a, b)
    }

    fn is_release(version: &R::Version) -> bool {
        R::is_release(version)
    }

    fn copy(alloc: Global, version: &R::Version) -> Result<R::Version, NoMemory> {
        R::copy(alloc, version)
    }
}

impl<R: Relations> Making for RelationRange<R> {
    ghost use Rattle.relation_ranges.specs.Range.{relation_spans, relation_outcome, relation_holds};

    type Construct = Relation<R::Operator, R::Version>;

    ghost spans = { λ domain. relation_spans (R.spans domain) };

    ghost outcome = { λ domain. relation_outcome (R.outcome domain) };

    ghost holds = { relation_holds R.holds };

    ghost agrees = { λ domain mark relation v. R.agrees domain mark relation.operator relation.version v };

    fn push_spans(
        alloc: Global,
        construct: Relation<R::Operator, R::Version>,
        domain: Domain,
        marks: &mut u64,
        out: &mut Spans<R::Version>,
    ) -> Result<Outcome, NoMemory> {
        let Relation { operator, version } = construct;
        R::push_spans(alloc, operator, version, domain, marks, out)
    }
}

impl<R: Relations> Language for RelationRange<R> {
    ghost use Rattle.relation_ranges.specs.Reading.{IsCut, ReadsAs, IsPast};
    ghost use Rattle.relation_ranges.specs.Laws.Reading.{cut_laws, piece_laws};

    type Kind = ();

    ghost IsCut = { IsCut R.bar };

    ghost ReadsAs = { ReadsAs R.Signs.holds R.HasSigns R.Spells };

    ghost IsPast = { IsPast R.Signs.holds R.HasSigns R.Spells R.first_past };

    ghost cuts = { cut_laws R.bar };

    ghost pieces = { piece_laws R.Signs.holds R.HasSigns R.Spells R.first_past R.one_operator R.texts.spells_one };

    fn cut_text(alloc: Global, text: &[u8]) -> Result<Groups<'_, ()>, AllocError> {
        group_list(alloc, text, R::bar())
    }

    fn read_piece(
        alloc: Global,
        piece: &Piece<'_, ()>,
    ) -> Result<PieceReading<Relation<R::Operator, R::Version>>, NoMemory> {
        read_relation::<R>(alloc, piece)
    }
}

impl<R: BackForm> Native for RelationRange<R> {
    ghost use Rattle.vx_scheme.specs.Native.{by_domain};
    ghost use Rattle.relation_ranges.specs.Range.{IsRange, In, Makes, Refuses};
    ghost use Rattle.relation_ranges.specs.Laws.Range.{range_laws};

    ghost Offers = { R.Offers };

    ghost usual = { R.usual };

    ghost IsRange = { IsRange R.bar R.Signs.holds R.HasSigns R.Spells };

    ghost In = { In R.bar R.Signs.holds R.HasSigns R.Spells R.holds };

    ghost Makes = { Makes R.bar R.Signs.holds R.HasSigns R.Spells R.first_past R.outcome R.spans };

    ghost Refuses = { Refuses R.bar R.Signs.holds R.HasSigns R.Spells R.first_past R.outcome };

    ghost back = { R.back };

    ghost ranges = { range_laws R.bar R.Signs.holds R.HasSigns R.Spells R.first_past R.one_operator
        R.texts.spells_one R.order R.IsVersion (by_domain R.InAll R.IsRelease) R.Offers R.outcome R.spans
        R.holds R.agrees };

    ghost backs = { R.backs };

    fn offers(domain: Domain) -> bool {
        R::offers(domain)
    }

    fn default_domain() -> Domain {
        R::default_domain()
    }

    /// The spans of the relations: one alternative, whose terms are those of the text. `Syntax` comes where a piece is no
    /// relation, then `Numeral` where one of its numerals is past the limit, then `NoEndpoint` where a relation has no end
    /// in the domain, then `Numeral` where one would be raised past the limit; each names the first such place.
    /// Where `NoEndpoint` comes, no list of versions holds what the relation does.
    fn bounds(alloc: Global, text: &str, domain: Domain) -> Result<Bounds<R::Version>, RangeFault>
        ensures ok { IfOk result (λ bounds. Makes R.bar R.Signs.holds R.HasSigns R.Spells R.first_past R.outcome R.spans domain text.now bounds) }
        ensures err { IfErr result (Refused (Refuses R.bar R.Signs.holds R.HasSigns R.Spells R.first_past R.outcome domain text.now)) }
        ensures no_end { (kind : EndKind) (at : ℕ) → result ≡ Err (NoEndpoint kind at) →
            HasNoEnd R.bar R.Signs.holds R.HasSigns R.Spells R.order R.IsVersion (by_domain R.InAll R.IsRelease) R.outcome R.holds
            R.size R.Tells domain text.now kind at }
    {
        bounds_of_terms::<RelationRange<R>>(alloc, text, domain)
    }

    fn unbounds(
        alloc: Global,
        spans: &Spans<R::Version>,
        domain: Domain,
    ) -> Result<Text, BackFault> {
        R::print(alloc, spans, domain)
    }
}
