//! Laws of sorts and well-formed formulas.
ghost use Rattle.std.specs.Prelude.{◌≡◌, ◌≤◌, ◌+◌, ℕ, List, [], length};
ghost use Rattle.fol_theory.specs.Syntax.{Term, Formula};
ghost use Rattle.fol_theory.specs.Substitution.{replace, replace_term};
ghost use Rattle.fol_theory.specs.Measures.{term_reach, reach, range, depth};
ghost use Rattle.env_theory.specs.Declarations.{Declaration, find};
ghost use Rattle.env_theory.specs.Typing.{HasSort, WellFormed, IsSort, AreSorts, Environment, Fits, Extends};

/// Sorts stay when the environment grows, and under a substitution that gives each variable a term of its sort. A
/// term has one sort, and that is declared.
pub fn sorts_are_kept()
    ensures grown_sort { (E F : List Declaration) → Extends E F → (V : List (List ℕ)) (t : Term) (s : List ℕ) → HasSort E V t s
        → HasSort F V t s }
    ensures grown { (E F : List Declaration) → Extends E F → (V : List (List ℕ)) (a : Formula) → WellFormed E V a → WellFormed F V a }
    ensures replace_sort { (E : List Declaration) (σ : ℕ → Term) (V W : List (List ℕ)) → Fits E σ V W
        → (t : Term) (s : List ℕ) → HasSort E V t s → HasSort E W (replace_term σ t) s }
    ensures replace { (E : List Declaration) (σ : ℕ → Term) (V W : List (List ℕ)) → Fits E σ V W
        → (a : Formula) → WellFormed E V a → WellFormed E W (replace σ a) }
    ensures closed { (E : List Declaration) (σ : ℕ → Term) (a : Formula) → WellFormed E [] a → replace σ a ≡ a }
    ensures unique { (E : List Declaration) (V : List (List ℕ)) (t : Term) (s r : List ℕ) → HasSort E V t s → HasSort E V t r → s ≡ r }
    ensures declared { (E : List Declaration) → Environment E → (V : List (List ℕ)) → AreSorts E V
        → (t : Term) (s : List ℕ) → HasSort E V t s → IsSort (find E s) }
{}

/// No variable stands in a term or a formula but those that have a sort and those that are bound in it.
pub fn sorts_bound_variables()
    ensures term { (E : List Declaration) (V : List (List ℕ)) (t : Term) (s : List ℕ) → HasSort E V t s → term_reach t ≤ length V }
    ensures range { (E : List Declaration) (V : List (List ℕ)) (a : Formula) → WellFormed E V a → range a ≤ length V }
    ensures reach { (E : List Declaration) (V : List (List ℕ)) (a : Formula) → WellFormed E V a → reach a ≤ length V + depth a }
{}
