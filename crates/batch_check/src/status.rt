//! How a run can end: the exit status of the program.

/// The text has no fault, and checking went to its end.
pub const CLEAN: u8 = 0;

/// The text has a fault, or checking stopped before its end.
pub const FAULTY: u8 = 1;

/// There are words on the command line.
pub const BAD_WORDS: u8 = 2;

/// A read failed.
pub const READ_FAULT: u8 = 3;

/// A write failed.
pub const WRITE_FAULT: u8 = 4;

/// Memory was wanting.
pub const NO_MEMORY: u8 = 5;

/// The input is longer than `INPUT_LIMIT`.
pub const TOO_LONG: u8 = 7;
