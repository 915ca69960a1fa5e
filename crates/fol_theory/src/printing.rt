//! The laws of equality but for printing names.
ghost use Rattle.std.specs.Prelude.{◌≡◌, ℕ};
ghost use Rattle.fol_theory.specs.Syntax.{Term, Formula};
ghost use Rattle.fol_theory.specs.Substitution.{replace};
ghost use Rattle.fol_theory.specs.Measures.{nodes, height, reach, depth};
ghost use Rattle.fol_theory.specs.Printing.{unnamed, Alike};

/// Formulas that are equal but for printing names stay so under a substitution, and have the same measures.
pub fn printing_names_change_nothing()
    ensures twice { (a : Formula) → unnamed (unnamed a) ≡ unnamed a }
    ensures unnamed { (σ : ℕ → Term) (a : Formula) → unnamed (replace σ a) ≡ replace σ (unnamed a) }
    ensures replace { (σ : ℕ → Term) (a b : Formula) → Alike a b → Alike (replace σ a) (replace σ b) }
    ensures nodes { (a b : Formula) → Alike a b → nodes a ≡ nodes b }
    ensures height { (a b : Formula) → Alike a b → height a ≡ height b }
    ensures reach { (a b : Formula) → Alike a b → reach a ≡ reach b }
    ensures depth { (a b : Formula) → Alike a b → depth a ≡ depth b }
{}
