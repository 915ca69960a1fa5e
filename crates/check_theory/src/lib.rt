//! The check of real sentences as a document asks for it, and what the document's theorem says with it; definitions and
//! laws.
//!
//! No code runs here. specs/ has what is cut from a text (Pieces), the texts of verdicts, declarations and goals
//! (Texts), the check itself (`language` of Language), documents whose sentences were read (Read), and the words of
//! the law on good closers (Proved). A law is a public function of this crate with nothing in its body; the layer above
//! cites `the_language_is_a_check` and `good_closers_have_derivations`.
#![tactic(auto)]

mod check;
mod derivations;
mod theorem;

pub use check::{sentences_are_read, the_language_is_a_check};
pub use derivations::good_closers_have_derivations;
pub use theorem::{
    joined_scripts_list_their_faults, late_results_of_scripts, scripts_have_one_thread,
};
