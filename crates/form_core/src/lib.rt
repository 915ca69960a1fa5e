//! Formulas that are well formed: the tests, and what may be made of them.
//!
//! Over an environment and the variables of a context, `has_sort` tests a term, `well_formed` a formula and
//! `well_formed_body` what a quantifier binds, by env_theory's words; `with_variable` and `with_hypothesis` make the
//! contexts, of which `count_variables` counts the variables. Of well-formed formulas, under so many variables,
//! `instantiate` and `shifted` make others; `binder_fits` and `normal_fits` say that 64 bits hold the indices of a
//! formula and of a normal form. No normal form is made here, and nothing knows a rule or a sentence. The crates above
//! use the contracts of these.
#![tactic(auto)]

mod entry;
mod formed;
mod indices;
mod made;
mod sorts;

pub use entry::{count_variables, with_hypothesis, with_variable};
pub use formed::{well_formed, well_formed_body};
pub use indices::{binder_fits, normal_fits};
pub use made::{instantiate, shifted};
pub use sorts::has_sort;
