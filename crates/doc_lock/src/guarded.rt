//! What may stand behind the lock.
ghost use Rattle.std.specs.Prelude.{◌≡◌, ℕ, List, length};

/// A state with a list of entries, each by one author, and an origin.
pub trait Guarded {
    /// One entry of the list.
    type Entry;

    /// What stays the same as long as the lock lives.
    type Origin;

    ghost list: { Self → List Self.Entry };

    /// The number of the seat that made the entry.
    ghost author: { Self.Entry → ℕ };

    ghost origin: { Self → Self.Origin };

    /// How long the list is.
    fn entries(&self) -> u64
        ensures count { result ≡ length (list self.now) };
}
