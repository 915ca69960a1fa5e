//! Spans of a text.

use base_core::Sequence;

/// The bytes of a text from one offset on and before another, counted from 0.
#[derive(Clone, Copy, Debug, PartialEq, Eq)]
pub struct Span {
    /// The offset of the first byte.
    pub from: u64,
    /// The offset behind the last byte.
    pub to: u64,
}

/// A list of spans.
pub type Spans = Sequence<Span>;
