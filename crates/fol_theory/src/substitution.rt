//! The laws of simultaneous substitution.
ghost use Rattle.std.specs.Prelude.{◌≡◌, ◌+◌, ℕ, List, map};
ghost use Rattle.fol_theory.specs.Syntax.{Term, var, Formula, all, ex, terms};
ghost use Rattle.fol_theory.specs.Substitution.{replace_term, replace_terms, replace, lift, next, first, under, instantiate, raise, put};
ghost use Rattle.fol_theory.specs.Substitution.{shift, shift_term, substitute};

/// Substitution after substitution is one substitution, also under a binder; that of each variable for itself
/// does nothing; a shift and a substitution by index pass a binder; and the substitutions of the rules, for one
/// bound variable, are those by index. A list of terms is put in term by term.
pub fn substitutions_compose()
    ensures twice { (τ σ : ℕ → Term) (a : Formula) → replace τ (replace σ a) ≡ replace (λ i. replace_term τ (σ i)) a }
    ensures term_twice { (τ σ : ℕ → Term) (t : Term) → replace_term τ (replace_term σ t) ≡ replace_term (λ i. replace_term τ (σ i)) t }
    ensures lift_twice { (τ σ : ℕ → Term) → (λ i. replace_term (lift τ) (lift σ i)) ≡ lift (λ i. replace_term τ (σ i)) }
    ensures identity { (a : Formula) → replace var a ≡ a }
    ensures term_identity { (t : Term) → replace_term var t ≡ t }
    ensures lift_identity { lift var ≡ var }
    ensures under { (σ : ℕ → Term) (a : Formula) → replace (lift σ) (under a) ≡ under (replace σ a) }
    ensures instantiate { (σ : ℕ → Term) (a : Formula) (t : Term)
        → replace σ (instantiate a t) ≡ instantiate (replace (lift σ) a) (replace_term σ t) }
    ensures unused { (a : Formula) (t : Term) → instantiate (under a) t ≡ a }
    ensures lift_raise { (from by : ℕ) → lift (raise from by) ≡ raise (from + 1) by }
    ensures lift_put { (index : ℕ) (value : Term) → lift (put index value) ≡ put (index + 1) (shift_term 0 1 value) }
    ensures shift_all { (from by : ℕ) (s x : List ℕ) (a : Formula) → shift from by (all s x a) ≡ all s x (shift (from + 1) by a) }
    ensures shift_ex { (from by : ℕ) (s x : List ℕ) (a : Formula) → shift from by (ex s x a) ≡ ex s x (shift (from + 1) by a) }
    ensures substitute_all { (k : ℕ) (v : Term) (s x : List ℕ) (a : Formula)
        → substitute k v (all s x a) ≡ all s x (substitute (k + 1) (shift_term 0 1 v) a) }
    ensures substitute_ex { (k : ℕ) (v : Term) (s x : List ℕ) (a : Formula)
        → substitute k v (ex s x a) ≡ ex s x (substitute (k + 1) (shift_term 0 1 v) a) }
    ensures next { next ≡ raise 0 1 }
    ensures first { (t : Term) → first t ≡ put 0 t }
    ensures each { (σ : ℕ → Term) (ts : List Term) → replace_terms σ (terms ts) ≡ terms (map (replace_term σ) ts) }
    ensures terms_injective { (ts us : List Term) → terms ts ≡ terms us → ts ≡ us }
{}
