//! What the check of a sentence says, and what it means that it is good; definitions and a law.
//!
//! No code runs here. specs/ has the texts of verdicts, of declarations and of goals (Texts), and the words of the law
//! (Laws). script_theory has the check itself; here its sentences are those that parsing gives. The law is a public
//! function of this crate with nothing in its body: the layers above cite `good_closers_have_derivations`.
#![tactic(auto)]

ghost use Rattle.std.specs.Prelude.{◌≡◌, ◌⊎◌, ℕ, List, None};
ghost use Rattle.vern_grammar.specs.Trees.{Name, Expression};
ghost use Rattle.vern_sentence.specs.Trees.{Closer, qed, defined, Sentence, begin, close};
ghost use Rattle.script_theory.specs.Sentences.{good, one, state_behind, empty};
ghost use Rattle.script_theory.specs.Kept.{AreInner, IsProved};
ghost use Rattle.step_theory.specs.Laws.{AreParsed, IsParsed, StatesWhatHolds};

/// Behind any sentences that parsing gives: where the Qed or Defined behind a lemma and inner sentences is good, the
/// lemma was good, and what it states has a derivation over the environment before it. And wherever a Qed or Defined is
/// good, a proof is open before it, whose statement has a derivation over the environment there.
pub fn good_closers_have_derivations()
    ensures block { (before : List (ℕ × Sentence)) → AreParsed before → (id : ℕ) (x : Name) (a : Expression) → IsParsed (begin x a) →
        (inner : List (ℕ × Sentence)) → AreInner inner → (closer_id : ℕ) (c : Closer) → (c ≡ qed) ⊎ (c ≡ defined) →
        (state_behind before empty).proof ≡ None →
        (one (state_behind inner (one (state_behind before empty) id (begin x a)).0) closer_id (close c)).1 ≡ good →
        StatesWhatHolds (state_behind before empty).env x a }
    ensures closer { (ws : List (ℕ × Sentence)) → AreParsed ws → (id : ℕ) (c : Closer) → (c ≡ qed) ⊎ (c ≡ defined) →
        (one (state_behind ws empty) id (close c)).1 ≡ good → IsProved (state_behind ws empty).env (state_behind ws empty).proof }
{}
