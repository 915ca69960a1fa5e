//! The laws of a shift and a substitution by index.
ghost use Rattle.std.specs.Prelude.{◌≡◌, ◌+◌, ◌≤◌, ◌<◌, ℕ, max};
ghost use Rattle.fol_theory.specs.Syntax.{Term, Formula};
ghost use Rattle.fol_theory.specs.Substitution.{under, shift, shift_term, substitute, substitute_term};
ghost use Rattle.fol_theory.specs.Measures.{reach, term_reach, range, depth, height};

/// One variable after another: how each pair of a shift and a substitution is the other way round, or, inside the
/// gap that a shift has made, is one shift. The clauses with `_term` say the same of terms. A shift loses nothing, and
/// what has no variable from the bound on is left as it is (`within`).
pub fn shifts_and_substitutions_pass()
    ensures shift_none { (from : ℕ) (a : Formula) → shift from 0 a ≡ a }
    ensures shift_none_term { (from : ℕ) (t : Term) → shift_term from 0 t ≡ t }
    ensures shift_within { (from by : ℕ) (a : Formula) → range a ≤ from → shift from by a ≡ a }
    ensures shift_within_term { (from by : ℕ) (t : Term) → term_reach t ≤ from → shift_term from by t ≡ t }
    ensures substitute_within { (k : ℕ) (v : Term) (a : Formula) → range a ≤ k → substitute k v a ≡ a }
    ensures substitute_within_term { (k : ℕ) (v t : Term) → term_reach t ≤ k → substitute_term k v t ≡ t }
    ensures shift_injective { (from by : ℕ) (a b : Formula) → shift from by a ≡ shift from by b → a ≡ b }
    ensures shift_injective_term { (from by : ℕ) (t u : Term) → shift_term from by t ≡ shift_term from by u → t ≡ u }
    ensures shift_shift { (from by more : ℕ) (a : Formula) → shift from more (shift from by a) ≡ shift from (by + more) a }
    ensures shift_shift_term { (from by more : ℕ) (t : Term) → shift_term from more (shift_term from by t) ≡ shift_term from (by + more) t }
    ensures under_shift { (by : ℕ) (a : Formula) → under (shift 0 by a) ≡ shift 0 (by + 1) a }
    ensures shift_over { (k n from by : ℕ) (a : Formula) → k ≤ from → shift k n (shift from by a) ≡ shift (from + n) by (shift k n a) }
    ensures shift_over_term { (k n from by : ℕ) (t : Term) → k ≤ from
        → shift_term k n (shift_term from by t) ≡ shift_term (from + n) by (shift_term k n t) }
    ensures shift_inside { (k n from by : ℕ) (a : Formula) → from ≤ k → k ≤ from + by
        → shift k n (shift from by a) ≡ shift from (by + n) a }
    ensures shift_inside_term { (k n from by : ℕ) (t : Term) → from ≤ k → k ≤ from + by
        → shift_term k n (shift_term from by t) ≡ shift_term from (by + n) t }
    ensures substitute_inside { (k from by : ℕ) (v : Term) (a : Formula) → from ≤ k → k ≤ from + by
        → substitute k v (shift from (by + 1) a) ≡ shift from by a }
    ensures substitute_inside_term { (k from by : ℕ) (v t : Term) → from ≤ k → k ≤ from + by
        → substitute_term k v (shift_term from (by + 1) t) ≡ shift_term from by t }
    ensures substitute_shift { (k : ℕ) (v : Term) (a : Formula) → substitute k v (shift k 1 a) ≡ a }
    ensures substitute_shift_term { (k : ℕ) (v t : Term) → substitute_term k v (shift_term k 1 t) ≡ t }
    ensures shift_substitute { (from by k : ℕ) (v : Term) (a : Formula) → from ≤ k
        → shift from by (substitute k v a) ≡ substitute (k + by) (shift_term from by v) (shift from by a) }
    ensures shift_substitute_term { (from by k : ℕ) (v t : Term) → from ≤ k
        → shift_term from by (substitute_term k v t) ≡ substitute_term (k + by) (shift_term from by v) (shift_term from by t) }
    ensures shift_substitute_above { (from by k : ℕ) (v : Term) (a : Formula) → k ≤ from
        → shift from by (substitute k v a) ≡ substitute k (shift_term from by v) (shift (from + 1) by a) }
    ensures shift_substitute_above_term { (from by k : ℕ) (v t : Term) → k ≤ from
        → shift_term from by (substitute_term k v t) ≡ substitute_term k (shift_term from by v) (shift_term (from + 1) by t) }
    ensures substitute_substitute { (j k : ℕ) (w v : Term) (a : Formula) → k ≤ j
        → substitute j w (substitute k v a) ≡ substitute k (substitute_term j w v) (substitute (j + 1) (shift_term k 1 w) a) }
    ensures substitute_substitute_term { (j k : ℕ) (w v t : Term) → k ≤ j
        → substitute_term j w (substitute_term k v t)
        ≡ substitute_term k (substitute_term j w v) (substitute_term (j + 1) (shift_term k 1 w) t) }
    ensures substitute_substitute_below { (j k : ℕ) (w v : Term) (a : Formula) → j ≤ k
        → substitute j w (substitute (k + 1) v a) ≡ substitute k (substitute_term j w v) (substitute j (shift_term k 1 w) a) }
    ensures substitute_substitute_below_term { (j k : ℕ) (w v t : Term) → j ≤ k
        → substitute_term j w (substitute_term (k + 1) v t)
        ≡ substitute_term k (substitute_term j w v) (substitute_term j (shift_term k 1 w) t) }
{}

/// The greatest index of what is shifted and substituted. So no index passes a limit, by bounds on the height and
/// on the greatest index.
pub fn no_index_passes()
    ensures range { (a : Formula) → range a ≤ reach a }
    ensures shift_reach { (from by : ℕ) (a : Formula) → reach (shift from by a) ≤ reach a + by }
    ensures shift_term_reach { (from by : ℕ) (t : Term) → term_reach (shift_term from by t) ≤ term_reach t + by }
    ensures substitute_reach { (k : ℕ) (v : Term) (a : Formula) → reach (substitute k v a) ≤ max (reach a) (term_reach v + depth a) }
    ensures substitute_term_reach { (k : ℕ) (v t : Term) → term_reach (substitute_term k v t) ≤ max (term_reach t) (term_reach v) }
    ensures index { (limit k : ℕ) (a : Formula) → k + height a ≤ limit → k + depth a < limit }
    ensures shift { (limit from by : ℕ) (a : Formula) → reach a + by ≤ limit → reach (shift from by a) ≤ limit }
    ensures shift_term { (limit from by : ℕ) (t : Term) → term_reach t + by ≤ limit → term_reach (shift_term from by t) ≤ limit }
    ensures substitute { (limit k : ℕ) (v : Term) (a : Formula) → reach a ≤ limit → term_reach v + height a ≤ limit
        → reach (substitute k v a) ≤ limit }
    ensures substitute_term { (limit k : ℕ) (v t : Term) → term_reach t ≤ limit → term_reach v ≤ limit
        → term_reach (substitute_term k v t) ≤ limit }
{}
