//! Why an item of the input is no value, and how the input ends.

/// Why an item is a bad place. The position of each is told in docs/PROTOCOL.md.
#[derive(Clone, Copy, Debug, PartialEq, Eq)]
pub enum BadKind {
    /// A `)` where no list is open.
    StrayClose,
    /// A backslash in a quoted atom that no listed escape begins with.
    BadEscape,
    /// The `(` that opens the 257th list inside one another.
    TooDeep,
    /// The first byte behind the longest item.
    TooLong,
    /// A `#` followed by a bar or by `;`, outside quoted atoms and comments.
    HashBar,
}

/// How an input ends.
#[derive(Clone, Copy, Debug, PartialEq, Eq)]
pub enum InputEnd {
    /// Outside of lists and quoted atoms.
    Clean,
    /// Inside of an item, whose first byte has this offset.
    Truncated(u64),
}
