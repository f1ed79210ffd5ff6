ghost use Rattle.std.specs.Prelude.{◌≡◌, [], ℕ, List};
ghost use Rattle.vx_spec.specs.Runs.{trimmed};
ghost use Rattle.vx_scheme.specs.declared.domain.Domain.{Domain};
ghost use Rattle.vx_scheme.specs.declared.range_fault.RangeFault.{RangeFault};
ghost use Rattle.vx_scheme.specs.declared.range_fault.RangeFault.TheVariants as fault_of;
ghost use Rattle.vx_scheme.specs.Cuts.{in_spans};
ghost use Rattle.vx_range.specs.Running.{EachRunsOn};
ghost use Rattle.bracket_ranges.specs.declared.bracket.Bracket.{Bracket};
ghost use Rattle.bracket_ranges.specs.Holds.{holds};
ghost use Rattle.bracket_ranges.specs.Spans.{spans_of};
ghost use Rattle.bracket_ranges.specs.Range.{Reads, Refuses};

use crate::table::Brackets;

/// A bracket holds of a version exactly where the spans that it makes hold it, whatever its mark; and the marks of its cuts
/// run on from any mark without a gap.
pub fn bracket_is_its_spans<B: Brackets>()
    ensures holds { (mark : ℕ) (bracket : Bracket B.Version) (v : B.Version) →
        in_spans B.order (spans_of B.order mark bracket) v ≡ holds B.order bracket v }
    ensures marks { EachRunsOn (spans_of B.order) }
{}

/// A text has one reading, with numerals of any length, and one first refusal in a domain.
pub fn brackets_one_answer<B: Brackets>()
    ensures reads { (text : List ℕ) (a b : List (List (Bracket B.Version))) →
        Reads B.lists B.alone B.Spells text a → Reads B.lists B.alone B.Spells text b → a ≡ b }
    ensures refused { (domain : Domain) (text : List ℕ) (a b : RangeFault) →
        Refuses B.lists B.alone B.Spells B.first_past domain text a →
        Refuses B.lists B.alone B.Spells B.first_past domain text b → a ≡ b }
{}

/// A blank text is no range: it is refused as `Syntax` at 0.
pub fn blank_is_no_range<B: Brackets>()
    ensures { (domain : Domain) (text : List ℕ) → trimmed text ≡ [] →
        Refuses B.lists B.alone B.Spells B.first_past domain text (fault_of.Syntax 0) }
{}
