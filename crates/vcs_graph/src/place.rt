//! Where an id stands.

/// Which part of an item an id is: the lone entry or the lemma, the entry inside up to which so many stand, or the closer.
#[derive(Clone, Copy)]
pub enum Part {
    First,
    Inside(usize),
    Closer,
}

/// The number of an item, and the part of it. The open block has the number behind the last item.
#[derive(Clone, Copy)]
pub struct Place {
    pub item: usize,
    pub part: Part,
}
