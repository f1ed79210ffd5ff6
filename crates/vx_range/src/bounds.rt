ghost use Rattle.std.specs.Prelude.{ℕ, List, ◌≡◌, ◌<◌, ◌^◌, None, IfOk, IfErr, OnOk, length, map};
ghost use Rattle.std.specs.List.{AllByRecursion};
ghost use Rattle.vx_spec.specs.Firsts.{IsFirst};
ghost use Rattle.vx_scheme.specs.Native.{Refused};
ghost use Rattle.vx_range.specs.Pieces.{all_as_written, IsInPlace};
ghost use Rattle.vx_range.specs.Reading.{IsNoConstruct};
ghost use Rattle.vx_range.specs.Making.{groups_from, alternatives_of, terms_of};
ghost use Rattle.vx_range.specs.Ranges.{MakesBounds, RefusesText};
ghost use Rattle.vx_range.specs.Steps.Found.{AreGroupsFound, AreGroupsMade, IsClear, IsSyntaxOf};

use crate::few::Groups;
use crate::findings::Findings;
use crate::language::Language;
use crate::shape::{Shape, read_group};
use std::alloc::Global;
use vx_scheme::{Alternative, Bounds, Domain, List, RangeFault, Spans};

/// What a text whose groups are alternatives makes in the domain: its bounds, or its first refusal. Each piece is read
/// once.
pub fn bounds_of_alternatives<L: Language>(
    alloc: Global,
    text: &str,
    domain: Domain,
) -> Result<Bounds<L::Version>, RangeFault>
    ensures ok { IfOk result (MakesBounds L.IsCut L.ReadsAs L.IsPast (L.outcome domain) (alternatives_of (L.spans domain)) text.now) }
    ensures err { IfErr result (Refused (RefusesText L.IsCut L.ReadsAs L.IsPast (L.outcome domain) text.now)) }
{
    read_text::<L, Alternative<L::Version>>(alloc, text, domain)
}

/// What a text whose groups are terms makes in the domain: its bounds, of one alternative, or its first refusal. Each
/// piece is read once.
pub fn bounds_of_terms<L: Language>(
    alloc: Global,
    text: &str,
    domain: Domain,
) -> Result<Bounds<L::Version>, RangeFault>
    ensures ok { IfOk result (MakesBounds L.IsCut L.ReadsAs L.IsPast (L.outcome domain) (terms_of (L.spans domain)) text.now) }
    ensures err { IfErr result (Refused (RefusesText L.IsCut L.ReadsAs L.IsPast (L.outcome domain) text.now)) }
{
    let terms = read_text::<L, Spans<L::Version>>(alloc, text, domain)?;
    Ok(Bounds::one(alloc, terms)?)
}

/// What the groups of a text become in the domain, or the first refusal of the text. Each piece is read once.
fn read_text<L: Language, S: Shape<L>>(
    alloc: Global,
    text: &str,
    domain: Domain,
) -> Result<List<S>, RangeFault>
    ensures ok { IfOk result
        (MakesBounds L.IsCut L.ReadsAs L.IsPast (L.outcome domain) (groups_from (L.spans domain) S.together 0) text.now) }
    ensures err { IfErr result (Refused (RefusesText L.IsCut L.ReadsAs L.IsPast (L.outcome domain) text.now)) }
{
    // The groups are read where they lie: to take them out of the result would be to copy them.
    match &L::cut_text(alloc, text.as_bytes()) {
        Ok(groups) => read_cut::<L, S>(alloc, groups, domain),
        Err(_) => Err(RangeFault::NoMemory),
    }
}

/// What these groups, into which a text is cut, become in the domain, or the first refusal of the text.
fn read_cut<L: Language, S: Shape<L>>(
    alloc: Global,
    groups: &Groups<L::Kind>,
    domain: Domain,
) -> Result<List<S>, RangeFault>
    requires { AllByRecursion (AllByRecursion IsInPlace) (map all_as_written groups.now) }
    ensures ok { (text : List ℕ) → L.IsCut text (map all_as_written groups.now) → IfOk result
        (MakesBounds L.IsCut L.ReadsAs L.IsPast (L.outcome domain) (groups_from (L.spans domain) S.together 0) text) }
    ensures err { (text : List ℕ) → L.IsCut text (map all_as_written groups.now) → IfErr result
        (Refused (RefusesText L.IsCut L.ReadsAs L.IsPast (L.outcome domain) text)) }
{
    let mut findings = Findings::start();
    let shapes = read_groups::<L, S>(alloc, groups, domain, &mut findings)?;
    findings.end()?;
    Ok(shapes)
}

/// What groups of pieces become.
fn read_groups<L: Language, S: Shape<L>>(
    alloc: Global,
    groups: &Groups<L::Kind>,
    domain: Domain,
    findings: &mut Findings,
) -> Result<List<S>, RangeFault>
    requires { AllByRecursion (AllByRecursion IsInPlace) (map all_as_written groups.now) }
    ensures ok { IfOk result (λ shapes.
        AreGroupsFound L.ReadsAs L.IsPast (L.outcome domain) (map all_as_written groups.now) findings.old findings.new
        (AreGroupsMade S.together (L.spans domain) findings.old.marks findings.new.marks shapes)) }
    ensures err { IfErr result (Refused (IsSyntaxOf (IsFirst (IsNoConstruct L.ReadsAs)) (map all_as_written groups.now))) }
{
    let mut shapes = List::with_room(alloc, groups.len())?;
    for i in 0..groups.len() {
        let shape = read_group::<L, S>(alloc, groups.get(i), domain, findings)?;
        shapes.push(shape)?;
    }
    Ok(shapes)
}
