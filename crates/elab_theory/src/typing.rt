//! Laws of typing.
ghost use Rattle.std.specs.Prelude.{◌≡◌, ℕ, List, [], ◌∷◌, Option, Ok};
ghost use Rattle.vern_grammar.specs.Trees.{Name, Group, Expression, Shape};
ghost use Rattle.fol_theory.specs.Syntax.{Term, Formula};
ghost use Rattle.fol_theory.specs.Measures.{nodes, height, term_nodes, term_height};
ghost use Rattle.env_theory.specs.Declarations.{Declaration, name_of, stated};
ghost use Rattle.env_theory.specs.Typing.{HasSort, WellFormed, AreSorts, Environment};
ghost use Rattle.env_theory.specs.Orders.{InOrder};
ghost use Rattle.elab_theory.specs.Locals.{Local, sorts_in};
ghost use Rattle.elab_theory.specs.Expressions.{term_of, formula_of};
ghost use Rattle.elab_theory.specs.Sentences.{declaration_of, definition_of, statement_of};
ghost use Rattle.elab_theory.specs.Sizes.{nodes_in, height_in};

/// What an expression is typed as is well formed, and has the size that the expression tells.
pub fn expressions_are_typed()
    ensures term { (E : List Declaration) (c : List Local) (a : Expression) (r : Term × List ℕ) →
        term_of E c a ≡ Ok r → HasSort E (sorts_in c) r.0 r.1 }
    ensures formula { (E : List Declaration) → Environment E → (a : Expression) (c : List Local) → AreSorts E (sorts_in c) →
        (b : Formula) → formula_of E c a ≡ Ok b → WellFormed E (sorts_in c) b }
    ensures nodes { (E : List Declaration) (a : Expression) (c : List Local) (b : Formula) → formula_of E c a ≡ Ok b → nodes b ≡ nodes_in a }
    ensures height { (E : List Declaration) (a : Expression) (c : List Local) (b : Formula) → formula_of E c a ≡ Ok b → height b ≡ height_in a }
    ensures term_nodes { (E : List Declaration) (c : List Local) (a : Expression) (r : Term × List ℕ) →
        term_of E c a ≡ Ok r → term_nodes r.0 ≡ nodes_in a }
    ensures term_height { (E : List Declaration) (c : List Local) (a : Expression) (r : Term × List ℕ) →
        term_of E c a ≡ Ok r → term_height r.0 ≡ height_in a }
{}

/// What a sentence declares may be added to the environment, has the sentence's name, and leaves an environment in
/// order in order.
pub fn sentences_are_admitted()
    ensures declaration { (E : List Declaration) → Environment E → (x : Name) (y : Shape) (d : Declaration) →
        declaration_of E x y ≡ Ok d → Environment (d ∷ E) }
    ensures definition { (E : List Declaration) → Environment E → (x : Name) (gs : List Group) (r : Option Name) (a : Expression)
        (d : Declaration) → definition_of E x gs r a ≡ Ok d → Environment (d ∷ E) }
    ensures statement { (E : List Declaration) → Environment E → (x : Name) (a : Expression) (b : Formula) →
        statement_of E x a ≡ Ok b → Environment (stated x.text b ∷ E) }
    ensures declaration_named { (E : List Declaration) (x : Name) (y : Shape) (d : Declaration) →
        declaration_of E x y ≡ Ok d → name_of d ≡ x.text }
    ensures definition_named { (E : List Declaration) (x : Name) (gs : List Group) (r : Option Name) (a : Expression) (d : Declaration) →
        definition_of E x gs r a ≡ Ok d → name_of d ≡ x.text }
    ensures declaration_in_order { (E : List Declaration) → InOrder E → (x : Name) → (x.text ≡ [] → ⊥) → (y : Shape) (d : Declaration) →
        declaration_of E x y ≡ Ok d → InOrder (d ∷ E) }
    ensures definition_in_order { (E : List Declaration) → InOrder E → (x : Name) → (x.text ≡ [] → ⊥) → (gs : List Group) (r : Option Name)
        (a : Expression) (d : Declaration) → definition_of E x gs r a ≡ Ok d → InOrder (d ∷ E) }
    ensures statement_in_order { (E : List Declaration) → InOrder E → (x : Name) → (x.text ≡ [] → ⊥) → (a : Expression) (b : Formula) →
        statement_of E x a ≡ Ok b → InOrder (stated x.text b ∷ E) }
{}
