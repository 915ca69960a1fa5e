//! The lines that answer commands, as values and as text.
//!
//! A `Line` stands for one line of output, whose text is that of an s-expression and a byte 10
//! (docs/PROTOCOL.md has the table). `write_line` puts it, and further calls put the lines of results and of a Join
//! from borrowed parts; none of them takes memory. `read_line` reads a line back. Which line answers what is not
//! here. The layers above use `line_text`, the text of a line as a definition, and the contract of `write_line`.
#![tactic(auto)]

mod fitting;
mod laws;
mod line;
mod pieces;
mod read;
#[cfg(test)]
mod tests;
mod write;

pub use fitting::lines_fit;
pub use laws::{joined_parts_are_one_line, no_line_begins_another};
pub use line::{BadText, EditLine, Exn, FaultTexts, Line, Texts};
pub use read::{LineFault, read_line};
pub use write::{
    write_feedback, write_joined_end, write_joined_fault, write_joined_head, write_last, write_line,
};
