//! Laws of environments with fewer Stated declarations.
ghost use Rattle.std.specs.Prelude.{◌≡◌, ℕ, Bool, true, List, Some, None};
ghost use Rattle.fol_theory.specs.Syntax.{Term, Formula};
ghost use Rattle.env_theory.specs.Declarations.{Declaration, stated, find};
ghost use Rattle.env_theory.specs.Typing.{HasSort, WellFormed};
ghost use Rattle.env_theory.specs.Normal.{normal};
ghost use Rattle.env_theory.specs.Orders.{InOrder};
ghost use Rattle.env_theory.specs.Thinned.{thinned, IsOther};

/// Stated declarations are seen by no sort, no well-formed formula and no normal form; those that are kept are found as before.
pub fn stated_declarations_may_go()
    ensures normal { (keep : List ℕ → Bool) (E : List Declaration) (a : Formula) → normal (thinned keep E) a ≡ normal E a }
    ensures sort { (keep : List ℕ → Bool) (E : List Declaration) (V : List (List ℕ)) (t : Term) (s : List ℕ) → HasSort E V t s
        → HasSort (thinned keep E) V t s }
    ensures formed { (keep : List ℕ → Bool) (E : List Declaration) (V : List (List ℕ)) (a : Formula) → WellFormed E V a
        → WellFormed (thinned keep E) V a }
    ensures other { (keep : List ℕ → Bool) (E : List Declaration) (n : List ℕ) → IsOther (find E n) → find (thinned keep E) n ≡ find E n }
    ensures none { (keep : List ℕ → Bool) (E : List Declaration) (n : List ℕ) → find E n ≡ None → find (thinned keep E) n ≡ None }
    ensures kept { (keep : List ℕ → Bool) (E : List Declaration) (n m : List ℕ) (a : Formula) → keep n ≡ true → find E n ≡ Some (stated m a)
        → find (thinned keep E) n ≡ Some (stated m a) }
    ensures in_order { (keep : List ℕ → Bool) (E : List Declaration) → InOrder E → InOrder (thinned keep E) }
{}
