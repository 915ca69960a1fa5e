//! Where a sentence stands.
ghost use Rattle.std.specs.Prelude.{◌≡◌};
ghost use Rattle.vern_parse.specs.Sentences.{sentence as sentence_of};
ghost use Rattle.vern_step.specs.Parsed.{kind_of};

use vern_parse::{Closer, Raw};

/// Where a sentence stands in a document.
#[derive(Clone, Copy, Debug, PartialEq, Eq)]
pub enum Kind {
    /// Outside of proofs: a declaration or a definition.
    Plain,
    /// It begins a proof: a lemma.
    Begin,
    /// Inside of a proof.
    Inner,
    /// It ends a proof.
    Close(Closer),
}

impl Kind {
    /// The kind of the sentence that a tree is.
    #[tactic(auto, using(crate::proofs::Trees::closer_kind))]
    pub fn of(tree: &Raw) -> Kind
        ensures { result ≡ kind_of (sentence_of tree.now) }
    {
        match tree {
            Raw::Declare(_, _) | Raw::Define(_, _, _, _) => Kind::Plain,
            Raw::Begin(_, _) => Kind::Begin,
            Raw::ProofWord
            | Raw::Refinement(_)
            | Raw::Bullet(_, _)
            | Raw::BraceIn
            | Raw::BraceOut => Kind::Inner,
            Raw::Close(closer) => Kind::Close(*closer),
        }
    }
}
