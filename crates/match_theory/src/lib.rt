//! Matching of first-order patterns against formulas and terms, and a term abstracted from a formula: definitions
//! and laws.
//!
//! No code runs here. specs/ has when a target is an instance of a pattern (Instances), how the terms are computed
//! (Matching), and the terms in a formula in preorder, the first that is an instance, and a term abstracted
//! (Places). A pattern's open variables are its newest ones. Environments and normal forms stand above. A law is a
//! public function of this crate with nothing in its body; the layer above cites `matching_is_exact`.
#![tactic(auto)]

ghost use Rattle.std.specs.Prelude.{◌≡◌, ◌↔◌, ◌<◌, ℕ, Bool, List, Some, None, true};
ghost use Rattle.fol_theory.specs.Syntax.{Term, Formula};
ghost use Rattle.fol_theory.specs.Substitution.{instantiate};
ghost use Rattle.match_theory.specs.Instances.{fill, IsInstance, IsTermInstance, Occurs, OccursInTerm};
ghost use Rattle.match_theory.specs.Matching.{matches, term_matches};
ghost use Rattle.match_theory.specs.Places.{places, find_instance, IsFirst, NoInstance, abstracted, occurs, occurs_in_term, all_below};

/// Matching gives an instance exactly where there is one, and any two instances have the same terms for the
/// variables that occur.
pub fn matching_is_exact()
    ensures sound { (n : ℕ) (pattern target : Formula) (ts : List Term) →
        matches n pattern target ≡ Some ts → IsInstance n pattern target ts }
    ensures complete { (n : ℕ) (pattern target : Formula) (ts : List Term) →
        IsInstance n pattern target ts → (us : List Term) × (matches n pattern target ≡ Some us) }
    ensures once { (n : ℕ) (pattern target : Formula) (ts us : List Term) →
        IsInstance n pattern target ts → IsInstance n pattern target us → (i : ℕ) → Occurs i pattern → fill ts i ≡ fill us i }
    ensures term_sound { (n : ℕ) (pattern target : Term) (ts : List Term) →
        term_matches n pattern target ≡ Some ts → IsTermInstance n pattern target ts }
    ensures term_complete { (n : ℕ) (pattern target : Term) (ts : List Term) →
        IsTermInstance n pattern target ts → (us : List Term) × (term_matches n pattern target ≡ Some us) }
    ensures term_once { (n : ℕ) (pattern target : Term) (ts us : List Term) →
        IsTermInstance n pattern target ts → IsTermInstance n pattern target us → (i : ℕ) → OccursInTerm i pattern → fill ts i ≡ fill us i }
{}

/// The first term of a formula, in preorder, that is an instance is found, and None exactly where no term is one; and
/// a term that is abstracted and put in again gives the formula back.
pub fn the_first_place_is_found()
    ensures first { (n : ℕ) (pattern : Term) (goal : Formula) (ts : List Term) →
        find_instance n pattern goal ≡ Some ts → IsFirst n pattern (places 0 goal) ts }
    ensures none { (n : ℕ) (pattern : Term) (goal : Formula) → find_instance n pattern goal ≡ None → NoInstance n pattern (places 0 goal) }
    ensures abstracted { (w : Term) (a : Formula) → instantiate (abstracted 0 w a) w ≡ a }
{}

/// Whether a variable occurs is tested exactly, and whether each of the first so many passes a test.
pub fn occurrence_is_tested()
    ensures formula { (i : ℕ) (a : Formula) → (occurs i a ≡ true) ↔ Occurs i a }
    ensures term { (i : ℕ) (t : Term) → (occurs_in_term i t ≡ true) ↔ OccursInTerm i t }
    ensures each { (n : ℕ) (f : ℕ → Bool) → all_below n f ≡ true → (i : ℕ) → i < n → f i ≡ true }
{}
