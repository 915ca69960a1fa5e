//! What an id is in the line.

/// What an id is, seen from the cursor. An opaque block is one that an opaque merge closed: a zone may be opened in it.
#[derive(Clone, Copy)]
pub enum Site {
    /// The id isn't in the line.
    Nowhere,
    /// Outside of blocks, before the cursor.
    Lone,
    /// The lemma of a closed block before the cursor, and whether the block is opaque.
    Lemma(bool),
    /// Inside of a closed block before the cursor, and whether the block is opaque.
    Inner(bool),
    /// The closer of a block before the cursor.
    Closer,
    /// The lemma of the block in which the cursor stands: the block of the zone, or the one that is open at the end.
    OpenLemma,
    /// Inside of the block in which the cursor stands, before the cursor.
    OpenInner,
    /// Behind the cursor: the zone's kept closer, which has this id, or what stands behind it.
    Behind(u64),
}
