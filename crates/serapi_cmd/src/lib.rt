//! What a value of the input asks for.
//!
//! `read_command` reads a value as a command by the tables of docs/PROTOCOL.md: the command with its tag, or the
//! first fault. specs/ has these tables as definitions by cases on values (Commands, with Options and Numbers
//! below it), and the requests of a whole input, its items in order with their places (Requests). `request_of_value`
//! and `request_of_bad_place` make one item's request. There is no reader of bytes here, no answer, and nothing of
//! what a command does; commands are read whole, also those that the program doesn't build yet. The serving loop
//! above uses `Request` and the two functions that make it.
#![tactic(auto)]

mod command;
mod fault;
mod fields;
mod number;
mod options;
mod read;
mod request;
#[cfg(test)]
mod tests;

pub use command::{AddOpts, Command, QueryKind, QueryOpts, Tagged};
pub use fault::CmdFault;
pub use read::read_command;
pub use request::{BadLine, InputFault, Request, request_of_bad_place, request_of_value};
