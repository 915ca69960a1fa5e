//! The lines of output.

use base_core::{Bytes, Ids, Sequence, SharedBytes};

/// Texts of any bytes.
pub type Texts = Sequence<Bytes>;

/// Ids of sentences, each with the text of its verdict.
pub type FaultTexts = Sequence<(u64, Bytes)>;

/// One line of output. A line that answers a command begins with the command's tag, whose bytes all lines that answer
/// it share. Ids are those of sentences; offsets are bytes, counted from 0.
#[derive(Debug, Drop)]
pub enum Line {
    /// The command was read.
    Ack(SharedBytes),
    /// A sentence was added: tag, id, the offsets of its first byte in the text of the Add and of the byte behind
    /// it, and the tip, where the sentence closed a zone.
    Added(SharedBytes, u64, u64, u64, Option<u64>),
    /// Sentences were removed: tag and ids.
    Canceled(SharedBytes, Ids),
    /// A sentence was reopened: tag and where the cursor stands.
    EditAt(SharedBytes, EditLine),
    /// What a Query asked for: tag and texts.
    ObjList(SharedBytes, Texts),
    /// The end of a Join: tag, how many sentences there are, and the faults.
    Joined(SharedBytes, u64, FaultTexts),
    /// The command ended with a refusal.
    CoqExn(SharedBytes, Exn),
    /// The command ended for want of memory.
    OutOfMemory(SharedBytes),
    /// The last line of a command.
    Completed(SharedBytes),
    /// The verdict of a sentence: its id, the route (0 for a command's own telling, 1 for a result), and the text
    /// of the verdict where it isn't Good.
    Feedback(u64, u64, Option<Bytes>),
    /// An item that is no command: its number among the items, from 0; why; and the offset of the fault in the whole
    /// input.
    BadInput(u64, BadText, u64),
}

/// Where the cursor stands after a sentence was reopened.
#[derive(Clone, Copy, Debug, PartialEq, Eq)]
pub enum EditLine {
    /// Behind the sentence with this id, which is now the last.
    NewTip(u64),
    /// Inside a block: the ids of its first sentence, of its closer, and of the tip.
    Focus(u64, u64, u64),
}

/// Why an item is no command.
#[derive(Debug, Drop)]
pub enum BadText {
    /// A word for the kind of the fault.
    Word(Bytes),
    /// The field, option or command of this name has not its form.
    BadField(Bytes),
}

/// Why a command is refused.
#[derive(Debug, Drop)]
pub enum Exn {
    /// The text is no sentence at this offset.
    Parse(u64),
    /// No block is open for the sentence that begins at this offset.
    NoOpenProof(u64),
    /// A block is open, which the sentence that begins at this offset doesn't go into; the id of the block's lemma.
    ProofOpen(u64, u64),
    /// The closer that begins at this offset can't close the zone; the id of the kept closer.
    BadCloser(u64, u64),
    /// The id that was asked for isn't the cursor's, which this is.
    NotTip(u64),
    /// There is no sentence with this id.
    NoSuchState(u64),
    /// The sentence with this id stands behind an open zone; the id of the kept closer.
    ZoneOpen(u64, u64),
    /// The document holds as many sentences as it may; the offset of the first that didn't go in.
    TooMany(u64),
    /// The first fault before a sentence: its id and its text.
    Check(u64, Bytes),
    /// Nothing of this name is declared.
    UnknownName(Bytes),
    /// Commands of this form aren't built yet.
    Unsupported,
}
