ghost use Rattle.std.specs.Prelude.{◌≡◌, ◌↔◌};
ghost use Rattle.std.specs.declared.cmp.Ordering.TheVariants.{Equal};
ghost use Rattle.vx_order.specs.Letters.{without_end_letters};
ghost use Rattle.maven_scheme.specs.Version.{Fields, end_rank};
ghost use Rattle.maven_scheme.specs.Order.{AnswersLetters, order_of};
ghost use Rattle.maven_scheme.specs.Spelling.{IsVersion};

use crate::version::MavenVersion;
use std::cmp::Ordering;
use vx_order::compare_letters;

// The end of a list of letters.
const END_RANK: u32 = 5;

/// How two versions compare. It takes no memory.
pub(crate) fn compare_versions(a: &MavenVersion, b: &MavenVersion) -> Ordering
    ensures order { result ≡ order_of a.now b.now }
    ensures places { AnswersLetters a.now b.now result }
{
    compare_letters(&a.letters, &b.letters, END_RANK)
}

/// The order goes by the first place at which the letters of two versions differ, with numerals of any size; lists of letters
/// compare as equal exactly where they are equal once the end letters at their ends are dropped; and versions, whose letters
/// hold no end letter, exactly where their letters are equal.
pub fn order_by_first_difference()
    ensures places { (a b : Fields) → AnswersLetters a b (order_of a b) }
    ensures equal { (a b : Fields) → (order_of a b ≡ Equal)
        ↔ (without_end_letters end_rank a.letters ≡ without_end_letters end_rank b.letters) }
    ensures versions { (a b : Fields) → IsVersion a → IsVersion b → (order_of a b ≡ Equal) ↔ (a.letters ≡ b.letters) }
{}
