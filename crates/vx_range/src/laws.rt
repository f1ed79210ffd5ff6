ghost use Rattle.std.specs.Prelude.{◌≡◌, ◌≤◌, ◌*◌, List, ℕ, length};
ghost use Rattle.vx_spec.specs.Each.{joined};
ghost use Rattle.vx_scheme.specs.declared.domain.Domain.{Domain};
ghost use Rattle.vx_scheme.specs.declared.range_fault.RangeFault.{RangeFault};
ghost use Rattle.vx_scheme.specs.declared.span.Span.{Span};
ghost use Rattle.vx_range.specs.Reading.{Reads};
ghost use Rattle.vx_range.specs.Making.{alternatives_of, terms_of};
ghost use Rattle.vx_range.specs.Ranges.{MakesBounds, RefusesText};
ghost use Rattle.vx_range.specs.Running.{EachRunsOn, BoundsRunOn};
ghost use Rattle.vx_range.specs.Sizes.{cut_count, HasConstructs, HasTwoCuts};

use crate::language::Language;
use crate::making::Making;

/// A text has one reading, with numerals of any length, and one first refusal in a domain.
pub fn one_answer<L: Language>()
    ensures reads { (text : List ℕ) (a b : List (List L.Construct)) →
        Reads L.IsCut L.ReadsAs text a → Reads L.IsCut L.ReadsAs text b → a ≡ b }
    ensures refused { (domain : Domain) (text : List ℕ) (a b : RangeFault) →
        RefusesText L.IsCut L.ReadsAs L.IsPast (L.outcome domain) text a →
        RefusesText L.IsCut L.ReadsAs L.IsPast (L.outcome domain) text b → a ≡ b }
{}

/// Where the marks of the spans of each construct run on from any mark without a gap, those of the bounds do from 0.
pub fn marks_run_on<M: Making>()
    ensures alternatives { (domain : Domain) (all : List (List M.Construct)) →
        EachRunsOn (M.spans domain) → BoundsRunOn (alternatives_of (M.spans domain) all) }
    ensures terms { (domain : Domain) (all : List (List M.Construct)) →
        EachRunsOn (M.spans domain) → BoundsRunOn (terms_of (M.spans domain) all) }
{}

/// A text has one number of constructs.
pub fn constructs_are_counted_once<L: Language>()
    ensures { (text : List ℕ) (a b : ℕ) →
        HasConstructs L.IsCut L.ReadsAs text a → HasConstructs L.IsCut L.ReadsAs text b → a ≡ b }
{}

/// Where each construct makes two cuts at most, bounds have at most twice as many cuts as there are constructs.
pub fn bounds_are_short<M: Making>()
    ensures alternatives { (domain : Domain) (all : List (List M.Construct)) → HasTwoCuts (M.spans domain) →
        cut_count (alternatives_of (M.spans domain) all) ≤ 2 * length (joined all) }
    ensures terms { (domain : Domain) (all : List (List M.Construct)) → HasTwoCuts (M.spans domain) →
        cut_count (terms_of (M.spans domain) all) ≤ 2 * length (joined all) }
{}

/// Where each construct makes two cuts at most, the bounds that a text makes have at most twice as many cuts as the text has
/// constructs.
pub fn texts_are_short<L: Language>()
    ensures alternatives { (domain : Domain) (text : List ℕ) (bounds : List (List (List (Span L.Version)))) →
        HasTwoCuts (L.spans domain) →
        MakesBounds L.IsCut L.ReadsAs L.IsPast (L.outcome domain) (alternatives_of (L.spans domain)) text bounds →
        (n : ℕ) × HasConstructs L.IsCut L.ReadsAs text n × (cut_count bounds ≤ 2 * n) }
    ensures terms { (domain : Domain) (text : List ℕ) (bounds : List (List (List (Span L.Version)))) →
        HasTwoCuts (L.spans domain) →
        MakesBounds L.IsCut L.ReadsAs L.IsPast (L.outcome domain) (terms_of (L.spans domain)) text bounds →
        (n : ℕ) × HasConstructs L.IsCut L.ReadsAs text n × (cut_count bounds ≤ 2 * n) }
{}
