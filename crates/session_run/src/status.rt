//! How a run can end: the exit status of the program.

/// The input ended, or Quit was read.
pub const DONE: u8 = 0;

/// The words of the command line are outside the stated command.
pub const BAD_WORDS: u8 = 2;

/// A read failed.
pub const READ_FAULT: u8 = 3;

/// A write failed.
pub const WRITE_FAULT: u8 = 4;

/// Memory was wanting outside of a command's work.
pub const NO_MEMORY: u8 = 5;

/// The input ended inside of an item.
pub const TRUNCATED: u8 = 6;

/// The input is longer than `INPUT_LIMIT`.
pub const TOO_LONG: u8 = 7;
