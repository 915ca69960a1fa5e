//! The laws of printed texts that are typed.
ghost use Rattle.std.specs.Prelude.{◌≡◌, ℕ, List, Ok};
ghost use Rattle.vern_grammar.specs.Trees.{Expression};
ghost use Rattle.fol_theory.specs.Syntax.{Formula, Term};
ghost use Rattle.fol_theory.specs.Printing.{Alike};
ghost use Rattle.env_theory.specs.Declarations.{Declaration};
ghost use Rattle.env_theory.specs.Typing.{HasSort, WellFormed};
ghost use Rattle.elab_theory.specs.Locals.{Local};
ghost use Rattle.elab_theory.specs.Expressions.{formula_of, term_of};
ghost use Rattle.print_theory.specs.Apart.{IsApartFormula, IsApartTerm};
ghost use Rattle.print_theory.specs.Spelling.{formula_text, term_text};
ghost use Rattle.print_theory.specs.Reading.{IsShown, IsShownTerm};
ghost use Rattle.print_theory.specs.Trees.{spanless};
ghost use Rattle.print_theory.specs.Typed.{AreDeclaredApart, IsPlaced, IsPlacedTerm, IsTermTypedAs, IsTypedAs, local_names};

/// The text of a formula that is well formed over an environment and locals is typed there as the formula, printing
/// names aside, and so a text is that of one formula; a term's as the term with its sort. Asked is that the variables
/// have the names and none is hidden, and that each other name that is printed is taken and is no local's, which is so
/// where each declared name is. A tree without spans is typed as the tree is.
pub fn printed_text_is_typed_back()
    ensures formula { (E : List Declaration) (c : List Local) (names taken : List (List ℕ)) (a : Formula) → IsShown names a
        → IsPlaced E c names taken a → IsTypedAs E c (formula_text names taken a) a }
    ensures term { (E : List Declaration) (c : List Local) (names taken : List (List ℕ)) (t : Term) (s : List ℕ) → IsShownTerm names t
        → IsPlacedTerm E c names taken t s → IsTermTypedAs E c (term_text names t) t s }
    ensures once { (E : List Declaration) (c : List Local) (text : List ℕ) (a b : Formula) → IsTypedAs E c text a
        → IsTypedAs E c text b → Alike a b }
    ensures formula_apart { (E : List Declaration) (c : List Local) (taken : List (List ℕ)) → AreDeclaredApart E c taken
        → (a : Formula) (V : List (List ℕ)) → WellFormed E V a → IsApartFormula (local_names c) taken a }
    ensures term_apart { (E : List Declaration) (c : List Local) (taken : List (List ℕ)) → AreDeclaredApart E c taken
        → (t : Term) (V : List (List ℕ)) (s : List ℕ) → HasSort E V t s → IsApartTerm (local_names c) taken t }
    ensures formula_spans { (E : List Declaration) (c : List Local) (t : Expression) (a : Formula) → formula_of E c (spanless t) ≡ Ok a
        → formula_of E c t ≡ Ok a }
    ensures term_spans { (E : List Declaration) (c : List Local) (t : Expression) (r : Term × List ℕ) → term_of E c (spanless t) ≡ Ok r
        → term_of E c t ≡ Ok r }
{}
