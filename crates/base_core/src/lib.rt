//! What every crate may stand on: lists, shared bytes, want of memory, and a counter of steps.
//!
//! A `Sequence` is seen as its list of values (`Bytes` and `Ids` are sequences), a `SparedSequence` as its list and
//! how many more it takes without memory, `SharedBytes` as its list of bytes, and `Steps` as a number. `NoMemory` is
//! the one answer that a call gives where memory was wanting; it is merged with no other. The words of specs/ serve
//! every crate: `Answers` says that an answer is the wanted one or want of memory. There is no input or output here,
//! and no rule of the document. The crates above use the contracts of the lists.
#![tactic(auto)]

mod no_memory;
mod sequence;
mod shared_bytes;
mod spared;
mod steps;

pub use no_memory::NoMemory;
pub use sequence::{Bytes, Ids, Sequence};
pub use shared_bytes::SharedBytes;
pub use spared::SparedSequence;
pub use steps::Steps;
