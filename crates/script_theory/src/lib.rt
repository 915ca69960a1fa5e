//! One sentence after another: environments, open proofs and verdicts, and that each good Qed has a derivation;
//! definitions and laws.
//!
//! No code runs here. specs/ has the check of one sentence as a total function, the fold over a list of them, and
//! what a closer leaves where it skips the proof (Sentences); the limits on formulas (Sizes); and what checking keeps
//! (Kept). Documents, ids and tasks stand above. A law is a public function of this crate with nothing in its body;
//! the layer above cites `good_blocks_have_derivations` and `what_closes_a_block`.
#![tactic(auto)]

ghost use Rattle.std.specs.Prelude.{◌≡◌, ◌⊎◌, ℕ, List, [], None, Ok};
ghost use Rattle.fol_theory.specs.Syntax.{Formula};
ghost use Rattle.vern_grammar.specs.Trees.{Name, Expression};
ghost use Rattle.vern_sentence.specs.Trees.{Closer, qed, defined, admitted, Sentence, begin, close};
ghost use Rattle.logic_theory.specs.Derivations.{Derives};
ghost use Rattle.script_theory.specs.Sentences.{good, Script, lemma, one, state_behind, skip, empty};
ghost use Rattle.script_theory.specs.Kept.{IsNamed, AreNamed, IsInner, AreInner, Delegates, IsKept, IsProved};

/// Each sentence whose declared name isn't empty keeps the environment in order, and the goals of the open proof those
/// of a tree for its statement; so the state behind any such sentences is kept so.
pub fn sentences_keep_the_state()
    ensures one { (s : Script) (id : ℕ) (x : Sentence) → IsNamed x → IsKept s → IsKept (one s id x).0 }
    ensures all { (ws : List (ℕ × Sentence)) → AreNamed ws → IsKept (state_behind ws empty) }
{}

/// Behind any sentences: where the Qed or Defined of a block is good, the statement has a derivation over the
/// environment before its lemma.
pub fn good_blocks_have_derivations()
    ensures block { (before : List (ℕ × Sentence)) → AreNamed before → (id : ℕ) (x : Name) → (x.text ≡ [] → ⊥) → (a : Expression)
        (w : List ℕ × Formula) (ws : List (ℕ × Sentence)) → AreInner ws → (closer_id : ℕ) (c : Closer) → (c ≡ qed) ⊎ (c ≡ defined) →
        (state_behind before empty).proof ≡ None → lemma (state_behind before empty).env x a ≡ Ok w →
        (one (state_behind ws (one (state_behind before empty) id (begin x a)).0) closer_id (close c)).1 ≡ good →
        Derives (state_behind before empty).env [] [] w.1 }
    ensures closer { (ws : List (ℕ × Sentence)) → AreNamed ws → (id : ℕ) (c : Closer) → (c ≡ qed) ⊎ (c ≡ defined) →
        (one (state_behind ws empty) id (close c)).1 ≡ good → IsProved (state_behind ws empty).env (state_behind ws empty).proof }
{}

/// What follows a proof that Qed, Admitted or Abort closes depends on its statement and its closer alone: an inner
/// sentence changes nothing of what skipping the proof leaves, such a closer leaves just that, and Qed and Admitted
/// leave the same.
pub fn what_closes_a_block()
    ensures inner { (s : Script) (id : ℕ) (x : Sentence) → IsInner x → (k : Closer) → skip (one s id x).0 k ≡ skip s k }
    ensures closer { (s : Script) (id : ℕ) (k : Closer) → Delegates k → (one s id (close k)).0 ≡ skip s k }
    ensures same { (s : Script) → skip s qed ≡ skip s admitted }
{}
