//! How a row stands.

/// A row waits for a seat, a seat of this number holds it, or it is done with a result.
#[derive(Debug, Drop)]
pub enum Standing<R> {
    Waiting,
    Held(u32),
    Done(R),
}
