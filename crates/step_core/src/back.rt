//! That the text of a declaration reads back.
ghost use Rattle.std.specs.Prelude.{◌≡◌, ℕ, List, [], None};
ghost use Rattle.fol_theory.specs.Syntax.{Formula};
ghost use Rattle.vern_sentence.specs.Names.{IsFreeName};
ghost use Rattle.env_theory.specs.Declarations.{Declaration, find};
ghost use Rattle.env_theory.specs.Typing.{WellFormed};
ghost use Rattle.print_theory.specs.Reading.{IsShown};
ghost use Rattle.print_theory.specs.Typed.{AreDeclaredApart};
ghost use Rattle.step_core.specs.Back.{ReadsAsAxiom, ReadsAsLemma};

/// The text of a formula that is stated reads back, behind `Lemma` and behind `Axiom`, as a sentence that states that
/// formula, printing names aside. It does so over each environment that declares what the formula has, as long as no
/// more than what is taken is declared there: the one before the declaration, and those behind it that lack its name.
/// Asked is what printing asks: free names, and no token with more than 256 openings open (`IsShown`). A sentence may
/// have as many where its text has more: `<>` and `~` are printed as implications.
pub fn stated_text_reads_back()
    ensures lemma { (E : List Declaration) (taken : List (List ℕ)) (n : List ℕ) (a : Formula) → IsFreeName n → find E n ≡ None
        → AreDeclaredApart E [] taken → WellFormed E [] a → IsShown [] a → ReadsAsLemma E taken n a }
    ensures axiom { (E : List Declaration) (taken : List (List ℕ)) (n : List ℕ) (a : Formula) → IsFreeName n → find E n ≡ None
        → AreDeclaredApart E [] taken → WellFormed E [] a → IsShown [] a → ReadsAsAxiom E taken n a }
{}
