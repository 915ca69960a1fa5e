//! Normal forms, made without making what vanishes, and sameness, decided without making them.
//!
//! A term or a formula is read in a scope, which says what its variables stand for: frames of arguments and of
//! quantifiers, kept by number. The head of a normal form is found by a loop, so that a chain of definitions takes no
//! stack, and only what stands in the result is made. How large that is is counted before. The words are those of
//! env_theory; environments are env_core's. The crates above use the contracts of `normal`,
//! `normal_term`, `same` and `same_terms`.
#![tactic(auto)]

mod compare;
mod fault;
mod forms;
mod formula;
mod frame;
mod head;
mod pair;
mod parts;
mod read;
mod terms;

pub use compare::{same, same_terms};
pub use fault::NormalFault;
pub use forms::{normal, normal_term};
