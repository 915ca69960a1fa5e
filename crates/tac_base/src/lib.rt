//! What the refinement sentences share: faults, the site of a goal, names, and what is made of a goal.
//!
//! A refinement of a goal is a tree of the kernel's rules from that goal on, whose open leaves are the new goals, and the
//! formulas that it puts in, which are measured (`Opening`). `Answers` of specs/ says that an opening is what the table
//! of tactic_theory wants of a goal, or that a fault is the first one of it. `Site` is a goal over an environment, with
//! what the rows ask there; `Draft` is an opening that isn't whole yet. `refine_with` puts an opening into a state, where
//! no formula is too large. Nothing here knows a row of the table. The crates above use the contracts of these.
#![tactic(auto)]

mod argument;
mod fault;
mod indices;
mod names;
mod opening;
mod refine;
mod site;
mod sizes;
mod top;

pub use argument::{are_same, given, is_same};
pub use fault::TacFault;
pub use names::{fresh, hypothesis_named, is_taken};
pub use opening::{Draft, Opening};
pub use refine::{refine_by, refine_with};
pub use site::Site;
pub use top::{Top, top_of};
