//! Laws of evidence.
ghost use Rattle.std.specs.Prelude.{◌≡◌, ◌↔◌, List, true, Ok, Err};
ghost use Rattle.fol_theory.specs.Slots.{Slot, entries};
ghost use Rattle.fol_theory.specs.Syntax.{Formula};
ghost use Rattle.vern_grammar.specs.Trees.{Expression};
ghost use Rattle.env_theory.specs.Declarations.{Declaration};
ghost use Rattle.env_theory.specs.Typing.{Environment};
ghost use Rattle.env_theory.specs.Normal.{Same};
ghost use Rattle.logic_theory.specs.Proofs.{IsProof};
ghost use Rattle.logic_theory.specs.Rules.{FormedContext, seq};
ghost use Rattle.tactic_theory.specs.Faults.{Fault};
ghost use Rattle.tactic_theory.specs.Evidence.{Evidence, IsTyped, is_met, shows};
ghost use Rattle.tactic_theory.specs.Typing.{evidence_of};
ghost use Rattle.evidence_core.specs.Pairs.{pairs_of, AreSame};
ghost use Rattle.evidence_core.specs.Showings.{IsOfEvidence};
ghost use Rattle.evidence_core.specs.Trees.{tree_of};

/// Evidence that has no fault shows a formula, and its faults are those of typing and of its form alone; its premises
/// are met exactly where the formulas of each pair are the same, and then its tree proves what it shows.
pub fn evidence_has_a_tree()
    ensures shows { (E : List Declaration) (c : List Slot) (a : Expression) (e : Evidence) → evidence_of E c a ≡ Ok e →
        (b : Formula) × (shows E c e ≡ Ok b) }
    ensures faults { (E : List Declaration) (c : List Slot) (a : Expression) (f : Fault) → evidence_of E c a ≡ Err f → IsOfEvidence f }
    ensures met { (E : List Declaration) (c : List Slot) (e : Evidence) (a : Formula) → shows E c e ≡ Ok a →
        (is_met E c e ≡ true) ↔ AreSame E (pairs_of E c e) }
    ensures proved { (E : List Declaration) → Environment E → (c : List Slot) → FormedContext E (entries c) → (e : Evidence) → IsTyped E c e →
        is_met E c e ≡ true → (a : Formula) → shows E c e ≡ Ok a → (g : Formula) → Same E a g → IsProof E (tree_of E c e) (seq (entries c) g) }
{}
