//! Laws of histories.
ghost use Rattle.std.specs.Prelude.{◌≡◌, ℕ, List, ◌++◌, ◌∷◌, []};
ghost use Rattle.doc_theory.specs.Histories.{Event, requests, outcomes};
ghost use Rattle.serapi_cmd.specs.declared.request.Request.{Request};
ghost use Rattle.doc_theory.specs.Documents.{Document as Sentences};
ghost use Rattle.doc_theory.specs.Checks.{Check};
ghost use Rattle.doc_theory.specs.Answers as theory;
ghost use Rattle.doc_theory.specs.Answers.{Cut};
ghost use Rattle.doc_core.specs.Pieces.{pieces_of};
ghost use Rattle.doc_core.specs.Answers.{IsBuilt, answer, answers};
ghost use Rattle.doc_core.specs.Histories.{Asks, Legal, render, standing, step};

/// What a legal history has written is what the one-thread document answers to its requests, each going as far as its
/// outcome says.
pub fn history_is_answered()
    ensures { (limit : ℕ) (h : List Event) → Legal limit h → render h ≡ answers limit (requests h) (outcomes h) }
{}

/// A legal history goes on with each event that it asks for where it stands.
pub fn histories_go_on()
    ensures standing { (limit : ℕ) (h : List Event) (e : Event) → standing limit (h ++ e ∷ []) ≡ step (standing limit h) e }
    ensures legal { (limit : ℕ) (h : List Event) (e : Event) → Legal limit h → Asks (standing limit h) e → Legal limit (h ++ e ∷ []) }
{}

/// A request that is built is answered as doc_theory says, by any check that cuts texts into these pieces.
pub fn what_is_built_is_the_theory<S>()
    ensures { (L : Check S) (d : Sentences) (q : Request) (cut : Cut) → ((text : List ℕ) → L.pieces text ≡ pieces_of text) → IsBuilt q
        → answer d q cut ≡ theory.answer L d q cut }
{}
