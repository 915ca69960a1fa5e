//! Laws of declarations that are found by name.
ghost use Rattle.std.specs.Prelude.{◌≡◌, ℕ, List, ◌∷◌, ◌++◌, Some, None};
ghost use Rattle.env_theory.specs.Declarations.{Declaration, find, name_of};
ghost use Rattle.env_theory.specs.Typing.{Declares, Environment, Put};
ghost use Rattle.env_theory.specs.Orders.{Member};

/// A name finds the one declaration that has it, which is well formed over the whole environment; newer ones hide none.
pub fn names_find_declarations()
    ensures name { (E : List Declaration) (n : List ℕ) (d : Declaration) → find E n ≡ Some d → name_of d ≡ n }
    ensures member { (E : List Declaration) (n : List ℕ) (d : Declaration) → find E n ≡ Some d → Member d E }
    ensures found { (E : List Declaration) → Environment E → (d : Declaration) → Member d E → find E (name_of d) ≡ Some d }
    ensures none { (E : List Declaration) (n : List ℕ) (d : Declaration) → find E n ≡ None → Member d E → name_of d ≡ n → ⊥ }
    ensures declares { (E : List Declaration) → Environment E → (n : List ℕ) (d : Declaration) → find E n ≡ Some d → Declares E d }
    ensures put { (E : List Declaration) → Environment E → (n : List ℕ) (d : Declaration) → find E n ≡ Some d → Put E d }
    ensures grown { (G E : List Declaration) → Environment (G ++ E) → (n : List ℕ) (d : Declaration) → find E n ≡ Some d
        → find (G ++ E) n ≡ Some d }
{}
