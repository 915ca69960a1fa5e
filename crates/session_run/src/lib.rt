//! A session, and the loop that serves it.
//!
//! The serving loop takes a piece of the input, has a party answer each whole item in it in order before it takes
//! the next, and then ends. It is written once, over any party: a session of its own, which `serve_alone` serves.
//! The state of a session is its document with the history, how many requests it answered, and its `Out`; that what
//! the history renders was put stands in the invariant of that type. Items are read by sexp_core, commands by
//! serapi_cmd, and answered by doc_core, which keeps the history legal; nothing of their rules is here. The layer
//! above uses the contract of `serve_alone`, whose words stand in specs/Headline.antt.
#![tactic(auto)]

mod alone;
mod ending;
mod live;
mod party;
mod serve;
mod status;

pub use alone::serve_alone;
pub use ending::Ended;
pub use hist_core::History;
pub use serve::INPUT_LIMIT;
pub use status::{BAD_WORDS, DONE, NO_MEMORY, READ_FAULT, TOO_LONG, TRUNCATED, WRITE_FAULT};
