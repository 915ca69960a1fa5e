//! What the crates above use of an environment.
ghost use Rattle.std.specs.Prelude.{◌≡◌, ℕ, List};
ghost use Rattle.fol_theory.specs.Syntax.{Formula};
ghost use Rattle.env_theory.specs.Declarations.{Declaration};
ghost use Rattle.env_theory.specs.Normal.{expand, normal};
ghost use Rattle.env_theory.specs.Heads.{expand_head, head_form};
ghost use Rattle.env_theory.specs.Orders.{Member, InOrder, Lawful};

/// In an environment in order head forms, unfolded formulas and normal forms are the same as before and well
/// formed. What is put in before changes no normal form, whatever the formula.
pub fn environments_in_order_are_lawful()
    ensures lawful { (E : List Declaration) → InOrder E → Lawful E }
    ensures unfolded { (E : List Declaration) → InOrder E → (d : Declaration) → Member d E → (a : Formula)
        → normal E (expand d a) ≡ normal E a }
    ensures at_head { (E : List Declaration) → InOrder E → (d : Declaration) → Member d E → (a : Formula)
        → normal E (expand_head d a) ≡ normal E a }
    ensures twice { (E : List Declaration) → InOrder E → (a : Formula) → normal E (normal E a) ≡ normal E a }
    ensures head { (E : List Declaration) → InOrder E → (a : Formula) → normal E (head_form E a) ≡ normal E a }
{}
