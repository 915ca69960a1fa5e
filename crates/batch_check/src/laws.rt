//! What verdicts mean.
ghost use Rattle.std.specs.Prelude.{◌≡◌, ◌⊎◌, ◌∷◌, ◌++◌, ℕ, List};
ghost use Rattle.vern_sentence.specs.Trees.{Closer, Sentence, close, defined, qed};
ghost use Rattle.batch_check.specs.Batch.{batch, faults_of};
ghost use Rattle.batch_check.specs.Derived.{AreInPlace, HasFault, HasDerivation};

/// Each Qed or Defined of a text's batch that has no fault ends a block whose statement has a derivation over the
/// environment before its lemma.
pub fn good_closers_have_derivations()
    ensures { (text : List ℕ) (before after : List (ℕ × Sentence)) (id : ℕ) (c : Closer) →
        (batch text).sentences ≡ before ++ (id, close c) ∷ after → (c ≡ qed) ⊎ (c ≡ defined) →
        (HasFault (faults_of (batch text)) id → ⊥) → HasDerivation before }
{}

/// No sentence of a text's batch is out of place: each line of a fault has a text.
pub fn no_sentence_is_out_of_place()
    ensures { (text : List ℕ) → AreInPlace (faults_of (batch text)) }
{}
