ghost use Rattle.std.specs.Prelude.{◌≡◌, ◌≤◌, ℕ, List, [], ◌∷◌, Some, Ok, length, map};
ghost use Rattle.std.specs.List.{list_all};
ghost use Rattle.std.specs.Ordering.{is_eq, is_ge, is_gt, is_le, is_lt};
ghost use Rattle.semver.specs.declared.Comparator.{Comparator};
ghost use Rattle.semver.specs.declared.Version.{Version};
ghost use Rattle.semver.specs.declared.Op.TheVariants as op;
ghost use Rattle.semver.specs.Eval.{matches_all};
ghost use Rattle.semver.specs.EvalViews.{matches_views, view_op};
ghost use Rattle.semver.specs.Identifiers.{comparator_view, parts_of};
ghost use Rattle.semver.specs.Parse.{Held, Parts, req_of};
ghost use Rattle.vx_scheme.specs.declared.range_fault.RangeFault.{RangeFault};
ghost use Rattle.vx_scheme.specs.declared.span.Cut.{Cut};
ghost use Rattle.vx_scheme.specs.declared.span.Span.{Span};
ghost use Rattle.vx_scheme.specs.Cuts.{cut_below, in_spans};
ghost use Rattle.cargo_range.specs.declared.construct.Construct.{Construct};
ghost use Rattle.cargo_range.specs.declared.construct.Partial.TheVariants.{Full};
ghost use Rattle.cargo_range.specs.Version.{IsRelease};
ghost use Rattle.cargo_range.specs.Order.{precedence};
ghost use Rattle.cargo_range.specs.Reading.{Reads, construct, forms_of};
ghost use Rattle.cargo_range.specs.Holds.{held_of, holds};
ghost use Rattle.cargo_range.specs.Spans.{made_spans};
ghost use Rattle.cargo_range.specs.Refusals.{RefusesText};
ghost use Rattle.cargo_range.specs.Back.{Bound, ArePlain, requirement_text, construct_of, move_cut, among_releases};

/// What a requirement holds, by the comparators that `semver` reads, is the answer of `VersionReq::matches`.
pub fn matches_is_the_answer_of_semver()
    ensures { (comparators : List Comparator) (version : Version)
        → matches_all comparators version ≡ matches_views (map comparator_view comparators) (parts_of version) }
{}

/// On a release that answer is whether each comparator holds.
pub fn release_matches_each_comparator()
    ensures { (all : List Construct) (v : Parts) → IsRelease v → matches_views (map held_of all) v ≡ list_all (λ c. holds c v) all }
{}

/// The operator of a comparator of three numbers goes by precedence alone, of every version, where it is one of order.
pub fn three_numbers_go_by_precedence()
    ensures exact { (bound v : Parts) → holds (construct op.Exact (Full bound)) v ≡ is_eq (precedence v bound) }
    ensures greater { (bound v : Parts) → holds (construct op.Greater (Full bound)) v ≡ is_gt (precedence v bound) }
    ensures greater_equal { (bound v : Parts) → holds (construct op.GreaterEq (Full bound)) v ≡ is_ge (precedence v bound) }
    ensures less { (bound v : Parts) → holds (construct op.Less (Full bound)) v ≡ is_lt (precedence v bound) }
    ensures less_equal { (bound v : Parts) → holds (construct op.LessEq (Full bound)) v ≡ is_le (precedence v bound) }
{}

/// The span of a comparator holds exactly the releases of which the comparator holds.
pub fn comparator_is_its_span()
    ensures { (mark : ℕ) (comparator : Construct) (v : Parts) → IsRelease v
        → in_spans precedence (made_spans mark comparator) v ≡ holds comparator v }
{}

/// Each comparator that `semver` reads has a form, so a text is no requirement exactly where `semver` refuses it.
pub fn every_comparator_has_a_form()
    ensures { (text : List ℕ) (held : List Held) → req_of text ≡ Ok held → (all : List Construct) × (forms_of held ≡ Some all) }
{}

/// A text has one reading and one first refusal.
pub fn one_reading_and_one_refusal()
    ensures reads { (text : List ℕ) (a b : List Construct) → Reads text a → Reads text b → a ≡ b }
    ensures refused { (text : List ℕ) (a b : RangeFault) → RefusesText text a → RefusesText text b → a ≡ b }
{}

/// A cut that is moved parts the same releases.
pub fn moved_cut_parts_the_same_releases()
    ensures { (cut : Cut Parts) (v : Parts) → IsRelease v → cut_below precedence (move_cut cut) v ≡ cut_below precedence cut v }
{}

/// Spans with their cuts moved, without those that hold no release, and joined, hold the same releases.
pub fn spans_among_releases_hold_the_same()
    ensures { (spans : List (Span Parts)) (v : Parts) → IsRelease v
        → in_spans precedence (among_releases spans) v ≡ in_spans precedence spans v }
{}

/// `semver` reads a requirement that is printed as exactly the comparators of which it was printed, and each has a form.
pub fn printed_requirement_is_read()
    ensures read { (bounds : List Bound) → length bounds ≤ 32 → ArePlain bounds
        → req_of (requirement_text bounds) ≡ Ok (map held_of (map construct_of bounds)) }
    ensures reads { (bounds : List Bound) → length bounds ≤ 32 → ArePlain bounds
        → Reads (requirement_text bounds) (map construct_of bounds) }
{}
