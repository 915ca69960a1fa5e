//! Laws of head forms.
ghost use Rattle.std.specs.Prelude.{◌≡◌, ℕ, List, Some, None};
ghost use Rattle.fol_theory.specs.Syntax.{Term, Terms, Formula, pred};
ghost use Rattle.fol_theory.specs.Substitution.{replace};
ghost use Rattle.env_theory.specs.Declarations.{Parameter, Declaration, formula, find};
ghost use Rattle.env_theory.specs.Typing.{WellFormed, Environment};
ghost use Rattle.env_theory.specs.Normal.{argument};
ghost use Rattle.env_theory.specs.Heads.{head_form, IsNoPredicate};
ghost use Rattle.env_theory.specs.Machine.{formula_body};

/// A defined predicate has the head form of its body, with the arguments put in once; any other formula is its own.
/// No defined predicate is left at the head. Head forms go through substitution, and are well formed.
pub fn head_forms_are_of_bodies()
    ensures defined { (E : List Declaration) → Environment E → (p n : List ℕ) (ps : List Parameter) (b : Formula)
        → find E p ≡ Some (formula n ps b)
        → (ts : Terms) → head_form E (pred p ts) ≡ replace (argument ts) (head_form E b) }
    ensures rigid { (E : List Declaration) → Environment E → (p : List ℕ) (ts : Terms) → formula_body (find E p) ≡ None
        → head_form E (pred p ts) ≡ pred p ts }
    ensures other { (E : List Declaration) (a : Formula) → IsNoPredicate a → head_form E a ≡ a }
    ensures undefined { (E : List Declaration) → Environment E → (a : Formula) (p : List ℕ) (ts : Terms) → head_form E a ≡ pred p ts
        → formula_body (find E p) ≡ None }
    ensures replace { (E : List Declaration) (σ : ℕ → Term) (a : Formula) → head_form E (replace σ a) ≡ replace σ (head_form E a) }
    ensures formed { (E : List Declaration) → Environment E → (V : List (List ℕ)) (a : Formula) → WellFormed E V a
        → WellFormed E V (head_form E a) }
{}
