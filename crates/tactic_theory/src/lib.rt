//! The table of refinements over named goals, bullets and braces: definitions and laws.
//!
//! No code runs here. specs/ has which names are taken and fresh (Names), evidence with its names found (Evidence) and
//! as it is written (Typing), the strips of apply and rewrite (Strips), the table (Refinements), and states with their
//! bullets and braces (States). A refinement that goes well gives new goals; that a tree of the kernel's rules leads to
//! them is a law. A law is a public function of this crate with nothing in its body; the layer above cites
//! `refinements_follow_the_rules` and `sentences_keep_a_state_fitting`.
#![tactic(auto)]

ghost use Rattle.env_theory.specs.Orders.{InOrder};
ghost use Rattle.fol_theory.specs.Slots.{Slot, names};
ghost use Rattle.logic_theory.specs.Goals.{Goal, sequent, Opens};
ghost use Rattle.env_theory.specs.Typing.{WellFormed};
ghost use Rattle.env_theory.specs.Declarations.{Declaration};
ghost use Rattle.std.specs.Prelude.{◌≡◌, ◌+◌, ◌<◌, ◌^◌, ℕ, false, length, List, [], Option, Some, None, Result, Ok};
ghost use Rattle.fol_theory.specs.Syntax.{Term, Formula};
ghost use Rattle.fol_theory.specs.Measures.{nodes};
ghost use Rattle.logic_theory.specs.Derivations.{Derives};
ghost use Rattle.logic_theory.specs.Rules.{Every, Formed};
ghost use Rattle.tactic_theory.specs.Faults.{Fault};
ghost use Rattle.vern_grammar.specs.Trees.{Expression};
ghost use Rattle.vern_sentence.specs.Trees.{Refinement as SentenceRefinement};
ghost use Rattle.tactic_theory.specs.Evidence.{Evidence, IsTyped};
ghost use Rattle.tactic_theory.specs.Names.{is_taken, fresh, AreApart};
ghost use Rattle.tactic_theory.specs.Strips.{Strip, all_strips, fitting, IsLeast, NoneFits, Stripped, StripAt};
ghost use Rattle.tactic_theory.specs.Typing.{evidence_of, typed};
ghost use Rattle.tactic_theory.specs.Refinements.{Part, Refinement, IsTypedRow, row, Apart, refine};
ghost use Rattle.tactic_theory.specs.States.{State, StepFault, Inner, FitsState, goals_of, put_bullet, brace_in, brace_out, run_one, block};

/// A refinement that goes well is a tree of kernel rules from the goal to the new goals, names included.
pub fn refinements_follow_the_rules()
    ensures { (large : Formula → Option (ℕ × ℕ)) (E : List Declaration) → InOrder E → (g : Goal) → Formed E (sequent g) →
        (r : Refinement) → IsTypedRow E g.slots r → (hs : List Goal) → refine large E g r ≡ Ok hs → Opens E g hs }
{}

/// `apply` takes the least number of strips for which what is left fits the goal.
pub fn the_least_strip_fits()
    ensures least { (E : List Declaration) (a g : Formula) (w : Strip × List Term) → fitting E g (all_strips E a) ≡ Some w →
        IsLeast E g (all_strips E a) w }
    ensures none { (E : List Declaration) (a g : Formula) → fitting E g (all_strips E a) ≡ None → NoneFits E g (all_strips E a) }
    ensures all { (E : List Declaration) → InOrder E → (a : Formula) (s : Strip) → Stripped E a s → (j : ℕ) × StripAt (all_strips E a) j s }
{}

/// The names of each new goal are distinct where those of the goal are, a fresh name isn't taken, and evidence and
/// refinements whose arguments have no fault are typed.
pub fn names_are_kept_apart()
    ensures apart { (E : List Declaration) (c : List Slot) (g : Formula) → AreApart (names c) → length c + nodes g + length E
        < 2 ^ 64 → (r : Refinement) (ps : List Part) → row E c g r ≡ Ok ps → Every Apart ps }
    ensures fresh { (E : List Declaration) (c : List Slot) (x : List ℕ) → length c + length E < 2 ^ 64 →
        is_taken E c (fresh E c x) ≡ false }
    ensures evidence { (E : List Declaration) (c : List Slot) (a : Expression) (e : Evidence) → evidence_of E c a ≡ Ok e → IsTyped E c e }
    ensures arguments { (E : List Declaration) → InOrder E → (g : Goal) → Formed E (sequent g) →
        (x : SentenceRefinement) (r : Refinement) → typed E g x ≡ Ok r → IsTypedRow E g.slots r }
{}

/// Bullets and braces keep the goals, and each inner sentence that goes well keeps a state fitting its environment and
/// goal: a tree of the kernel's rules leads from the goal to the goals of the state.
pub fn sentences_keep_a_state_fitting()
    ensures bullet { (b : List ℕ) (s t : State) → put_bullet b s ≡ Ok t → goals_of t ≡ goals_of s }
    ensures brace_in { (s t : State) → brace_in s ≡ Ok t → goals_of t ≡ goals_of s }
    ensures brace_out { (s t : State) → brace_out s ≡ Ok t → goals_of t ≡ goals_of s }
    ensures fits { (large : Formula → Option (ℕ × ℕ)) (E : List Declaration) → InOrder E → (root : Goal) → Formed E (sequent root) →
        (x : Inner SentenceRefinement) (s t : State) → FitsState E root s → run_one large (typed E) E x s ≡ Ok t → FitsState E root t }
{}

/// A block whose sentences and Qed all go well has a derivation of its statement.
pub fn blocks_have_derivations()
    ensures { (large : Formula → Option (ℕ × ℕ)) (E : List Declaration) → InOrder E → (a : Formula) → WellFormed E [] a →
        (xs : List (Inner SentenceRefinement)) (t : State) → block large (typed E) E a xs ≡ Ok t → Derives E [] [] a }
{}
