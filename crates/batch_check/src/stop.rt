//! Why checking stops before the end of a text.
ghost use Rattle.std.specs.Prelude.{◌≡◌, Some, option_map};
ghost use Rattle.vern_lex.specs.Sentences.{place_of};
ghost use Rattle.batch_check.specs.Batch.{stop_at, stop_of};

use vern_lex::CutFault;

/// Why a piece of a text isn't checked, nor what stands behind it.
#[derive(Clone, Copy, Debug, PartialEq, Eq)]
pub enum StopKind {
    /// It is no sentence, or the text can't be cut further.
    Parse,
    /// It stands within a proof or ends one, and no proof is open.
    NoOpenProof,
    /// It is a declaration, a definition or a lemma, and a proof is open.
    ProofOpen,
    /// So many sentences stand before it as are checked at most.
    TooMany,
}

/// Where and why checking stopped. With `Parse` the offset is that of the fault, with the others that of the sentence's
/// first byte.
#[derive(Clone, Copy, Debug, PartialEq, Eq)]
pub struct Stop {
    pub at: u64,
    pub kind: StopKind,
}

/// The stop that it is that a text can't be cut further.
pub(crate) fn stop_of(fault: Option<CutFault>) -> Option<Stop>
    ensures { result ≡ stop_of fault }
{
    match fault {
        None => None,
        Some(CutFault::Unclosed(at) | CutFault::TooLong(at)) => Some(Stop {
            at,
            kind: StopKind::Parse,
        }),
    }
}
