//! The document's theorem, with the check of real sentences.
ghost use Rattle.std.specs.Prelude.{◌≡◌, ◌⊎◌, ◌++◌, ◌∷◌, [], true, false, Bool, ℕ, List, map, length, Option, Some};
ghost use Rattle.line_theory.specs.Lists.{Every, chosen};
ghost use Rattle.serapi_ans.specs.declared.line.Line.TheVariants.{Completed, Joined};
ghost use Rattle.script_theory.specs.Sentences.{Script};
ghost use Rattle.doc_theory.specs.Lists.{Member};
ghost use Rattle.doc_theory.specs.Documents.{Document, live, marks};
ghost use Rattle.doc_theory.specs.Checks.{Told, Work, checked, judged, text_of, works};
ghost use Rattle.doc_theory.specs.Answers.{answers, faults, is_wrong};
ghost use Rattle.doc_theory.specs.Histories.{
  Event,
  Legal,
  Row,
  Standing,
  claim,
  join_answered,
  joining,
  outcomes,
  requests,
  returned,
  standing,
  step,
  strip,
  written,
};
ghost use Rattle.doc_theory.specs.Notes.{noted, noted_of};
ghost use Rattle.doc_theory.specs.Tasks.{IsLive, task_lines};
ghost use Rattle.doc_theory.specs.Told.{IsTold};
ghost use Rattle.check_theory.specs.Language.{language};

/// However claims, results and losses fall among the commands, what is written without the lines of results is what the
/// one-thread document answers to the commands.
pub fn scripts_have_one_thread()
    ensures { (limit : ℕ) (h : List Event) → Legal language limit h → strip language limit h ≡ answers language limit (requests h)
        (outcomes h) }
{}

/// The work of each row is that of the live block now; a claimed task is such a work; a kept result, however late,
/// writes what the check of its claimed task gives; a result whose row went is dropped, and writes nothing.
pub fn late_results_of_scripts()
    ensures live { (limit : ℕ) (h : List Event) → Legal language limit h →
        Every (IsLive language (standing language limit h).document) (standing language limit h).table.rows }
    ensures claimed { (limit : ℕ) (h : List Event) (s n : ℕ) → Legal language limit (h ++ (claim s n ∷ [])) →
        (w : Work Script) × (Member (record { seat = s; number = n; work = w })
        (step language (standing language limit h) (claim s n)).table.out
        × Member w (works language (standing language limit h).document)) }
    ensures kept { (limit : ℕ) (h : List Event) (s n : ℕ) → Legal language limit (h ++ (returned s n true ∷ [])) →
        (w : Work Script) × (Member (record { seat = s; number = n; work = w }) (standing language limit h).table.out
        × (written language (standing language limit h) (returned s n true) ≡ task_lines language w)) }
    ensures dropped { (p : Standing Script) (s n : ℕ) → written language p (returned s n false) ≡ [] }
    ensures gone { (limit : ℕ) (h : List Event) (s n : ℕ) (kept : Bool) → Legal language limit (h ++ (returned s n kept ∷ [])) →
        ((r : Row Script) → Member r (standing language limit h).table.rows → r.number ≡ n → ⊥) → kept ≡ false }
{}

/// Where a Join is answered every live entry is told, and its line lists exactly the ids whose verdict isn't good, each
/// with its text, in the order of the document; each verdict is one that is told outside of delegated blocks, or one of
/// a row's result.
pub fn joined_scripts_list_their_faults()
    ensures told { (limit : ℕ) (h : List Event) → Legal language limit (h ++ (join_answered ∷ [])) →
        Every IsTold (live (standing language limit h).document) }
    ensures lines { (limit : ℕ) (h : List Event) (tag : List ℕ) → (standing language limit h).mode ≡ joining tag →
        written language (standing language limit h) join_answered ≡
        Joined tag (length (marks (standing language limit h).document)) (faults (judged language (standing language limit h).document))
        ∷ (Completed tag ∷ []) }
    ensures listed { (d : Document) → map {A = ℕ × List ℕ} {B = ℕ × Option (List ℕ)} (λ f. (f.0, Some f.1)) (faults (judged language d)) ≡
        map (λ j. (j.mark.id, text_of j.verdict)) (chosen (λ j. is_wrong j.verdict) (judged language d)) }
    ensures texts { (limit : ℕ) (h : List Event) → Legal language limit (h ++ (join_answered ∷ [])) → (t : Told) →
        Member t (map noted_of (judged language (standing language limit h).document)) →
        Member t (noted language (standing language limit h).document)
        ⊎ ((r : Row Script) × (Member r (standing language limit h).table.rows × Member t (checked language r.work))) }
{}
