//! Laws of the definitions, each as the contract of a function that does nothing: what texts are answered is one answer.
//! Want of memory is no refusal of a text.

ghost use Rattle.std.specs.Prelude.{◌≡◌, ◌≢◌, ℕ, Bool, List, None, Ok, Err};
ghost use Rattle.purl_core.specs.Reading.{IsRefused};
ghost use Rattle.purl_core.specs.declared.fault.PurlFault.{PurlFault};
ghost use Rattle.purl_core.specs.declared.fault.PurlFault.TheVariants as fault_of;
ghost use Rattle.purl_core.specs.Spelling.{SpellsPurl};
ghost use Rattle.purl_core.specs.Value.{Package};
ghost use Rattle.purl_types.specs.Candidate.{IsCandidate};
ghost use Rattle.purl_types.specs.Canonical.{IsCanonical, IsComparedAs};

/// A text has one canonical text or one refusal, and never both.
pub fn one_canonical_answer()
    ensures text { (text a b : List ℕ) → IsCanonical text a → IsCanonical text b → a ≡ b }
    ensures refusal { (text : List ℕ) (a b : PurlFault) → a ≢ fault_of.NoMemory → b ≢ fault_of.NoMemory →
        IsRefused text a → IsRefused text b → a ≡ b }
    ensures apart { (text canonical : List ℕ) (fault : PurlFault) → fault ≢ fault_of.NoMemory →
        IsCanonical text canonical → ¬ (IsRefused text fault) }
{}

/// A text gives one candidate, and none where it spells a package URL without a version.
pub fn one_candidate()
    ensures text { (text a b : List ℕ) (p q : Package) → SpellsPurl text p → SpellsPurl text q → IsCandidate p a → IsCandidate q b → a ≡ b }
    ensures none { (text candidate : List ℕ) (p q : Package) → SpellsPurl text p → SpellsPurl text q → q.version ≡ None → ¬ (IsCandidate p candidate) }
{}

/// Two texts are compared with one answer or one refusal, and never both.
pub fn one_comparison()
    ensures decision { (first second : List ℕ) (a b : Bool) → IsComparedAs first second (Ok a) → IsComparedAs first second (Ok b) → a ≡ b }
    ensures refusal { (first second : List ℕ) (a b : PurlFault) → a ≢ fault_of.NoMemory → b ≢ fault_of.NoMemory →
        IsComparedAs first second (Err a) → IsComparedAs first second (Err b) → a ≡ b }
    ensures apart { (first second : List ℕ) (decision : Bool) (fault : PurlFault) → fault ≢ fault_of.NoMemory →
        IsComparedAs first second (Ok decision) → ¬ (IsComparedAs first second (Err fault)) }
{}
