//! Terms and formulas of first-order logic as definitions, and the laws that the crates above cite.
//!
//! No code runs here. specs/ has terms, lists of terms and formulas as data types, in de Bruijn's indices;
//! simultaneous substitution, and as its instances a shift and the substitution for one variable; nodes, height
//! and indices; equality but for the names that are printed; contexts. A law that is a public contract stands on a
//! function of this crate with nothing in its body; the lemmas that prove them stand in proofs/ and are cited from
//! there. The Rust types of terms and formulas, which have these values, are those of term_core.
#![tactic(auto)]

mod contexts;
mod indices;
mod measures;
mod printing;
mod substitution;

pub use contexts::{contexts_grow_and_shrink, slots_are_entries};
pub use indices::{no_index_passes, shifts_and_substitutions_pass};
pub use measures::replacing_is_measured;
pub use printing::printing_names_change_nothing;
pub use substitution::substitutions_compose;
