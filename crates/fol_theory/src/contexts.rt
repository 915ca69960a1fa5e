//! The laws of contexts.
ghost use Rattle.std.specs.Prelude.{◌≡◌, ◌↔◌, ◌<◌, ◌∷◌, ◌++◌, ℕ, List, map, length};
ghost use Rattle.fol_theory.specs.Syntax.{Formula};
ghost use Rattle.fol_theory.specs.Substitution.{under, shift};
ghost use Rattle.fol_theory.specs.Slots.{Slot, entries, names, slots_without};
ghost use Rattle.fol_theory.specs.Contexts.{Entry, variable, hypothesis, variables, hypotheses, count, IsHypothesis, IsFromLast, omit};
ghost use Rattle.fol_theory.specs.Contexts.{without};

/// What a context becomes by a variable more, by a hypothesis more, and without a hypothesis; that each number
/// below the count is of one hypothesis; and how a hypothesis, told by its place, stands under all variables.
pub fn contexts_grow_and_shrink()
    ensures variable_variables { (s : List ℕ) (c : List Entry) → variables (variable s ∷ c) ≡ s ∷ variables c }
    ensures variable_hypotheses { (s : List ℕ) (c : List Entry) → hypotheses (variable s ∷ c) ≡ map under (hypotheses c) }
    ensures hypothesis_variables { (a : Formula) (c : List Entry) → variables (hypothesis a ∷ c) ≡ variables c }
    ensures hypothesis_hypotheses { (a : Formula) (c : List Entry) → hypotheses (hypothesis a ∷ c) ≡ a ∷ hypotheses c }
    ensures without_variables { (c : List Entry) (i : ℕ) → variables (without c i) ≡ variables c }
    ensures without_hypotheses { (c : List Entry) (i : ℕ) → hypotheses (without c i) ≡ omit i (hypotheses c) }
    ensures count { (c : List Entry) → length (hypotheses c) ≡ count c }
    ensures numbered { (c : List Entry) (i : ℕ) (a : Formula) → IsHypothesis c i a ↔ IsFromLast (hypotheses c) i a }
    ensures numbered_once { (c : List Entry) (i : ℕ) (a b : Formula) → IsHypothesis c i a → IsHypothesis c i b → a ≡ b }
    ensures numbered_below { (c : List Entry) (i : ℕ) (a : Formula) → IsHypothesis c i a → i < count c }
    ensures numbered_all { (c : List Entry) (i : ℕ) → i < count c → (a : Formula) × IsHypothesis c i a }
    ensures placed { (newer older : List Entry) (a : Formula)
        → IsHypothesis (newer ++ hypothesis a ∷ older) (count older) (shift 0 (length (variables newer)) a) }
    ensures without_placed { (newer older : List Entry) (a : Formula)
        → without (newer ++ hypothesis a ∷ older) (count older) ≡ newer ++ older }
{}

/// How slots are entries with names: one list of slots behind another, and without a hypothesis.
pub fn slots_are_entries()
    ensures entries { (newer older : List Slot) → entries (newer ++ older) ≡ entries newer ++ entries older }
    ensures names { (newer older : List Slot) → names (newer ++ older) ≡ names newer ++ names older }
    ensures without { (c : List Slot) (i : ℕ) → entries (slots_without c i) ≡ without (entries c) i }
{}
