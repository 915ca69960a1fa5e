//! Matching of first-order patterns, and what a match is used for.
//!
//! A pattern is a formula or a term whose newest variables are open, so many of them. An `Instance` is a list of
//! terms, one for each open variable from 0 on: put in for these, with the other variables lowered, they make the
//! pattern the target (`matches`) or a term of the goal (`find_instance`). `fill` and `fill_term` put terms in,
//! `replace_all` puts one term in the place of another wherever it stands, and `occurs` and `occurs_in_term` tell
//! whether a variable stands somewhere. Each call answers the function of match_theory of that name, or of its words,
//! of the values (`meaning` of term_core), and asks nothing of its arguments. Nothing here knows declarations, typing
//! or normal forms. The refinements use `matches` for `apply`, and the other calls for `rewrite`.
#![tactic(auto)]

mod change;
mod formulas;
mod found;
mod matching;
mod occurrence;
mod places;
mod terms;
#[cfg(test)]
mod tests;

pub use formulas::{fill, fill_term, replace_all};
pub use found::Instance;
pub use matching::matches;
pub use occurrence::{occurs, occurs_in_term};
pub use places::find_instance;
