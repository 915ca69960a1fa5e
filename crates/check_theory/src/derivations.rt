//! What a good Qed or Defined of a document means.
ghost use Rattle.std.specs.Prelude.{◌≡◌, ◌∷◌, ◌++◌, ℕ, List};
ghost use Rattle.script_theory.specs.Sentences.{Script};
ghost use Rattle.script_theory.specs.Kept.{IsProved};
ghost use Rattle.doc_theory.specs.Documents.{Document, marks};
ghost use Rattle.doc_theory.specs.Checks.{Judged, good, judged};
ghost use Rattle.doc_theory.specs.Histories.{Event, standing};
ghost use Rattle.check_theory.specs.Language.{language};
ghost use Rattle.check_theory.specs.Read.{AreRead, DocumentRead};
ghost use Rattle.check_theory.specs.Proved.{EndsInProof, Finishes, state_at};

/// At every standing of every history: wherever a Qed or Defined is good, a lemma and inner sentences stand before it,
/// and what the lemma states has a derivation over the environment before the lemma. The same of each document whose
/// sentences were read and stand where their kinds belong. And of sentences that were read, in whatever order: before a
/// good Qed or Defined a proof is open, whose statement has a derivation over the environment there.
pub fn good_closers_have_derivations()
    ensures history { (limit : ℕ) (h : List Event) (js ks : List (Judged Script)) (j : Judged Script) →
        judged language (standing language limit h).document ≡ js ++ (j ∷ ks) → Finishes j.mark.sentence.kind → j.verdict ≡ good →
        EndsInProof js }
    ensures block { (d : Document) → DocumentRead d → (js ks : List (Judged Script)) (j : Judged Script) →
        judged language d ≡ js ++ (j ∷ ks) → Finishes j.mark.sentence.kind → j.verdict ≡ good → EndsInProof js }
    ensures closer { (d : Document) → AreRead (marks d) → (js ks : List (Judged Script)) (j : Judged Script) →
        judged language d ≡ js ++ (j ∷ ks) → Finishes j.mark.sentence.kind → j.verdict ≡ good →
        IsProved (state_at js).env (state_at js).proof }
{}
