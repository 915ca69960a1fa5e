//! The stack of what waits for its end.
ghost use Rattle.std.specs.Prelude.{◌≡◌, ◌+◌, ◌<◌, ◌^◌, [], ◌∷◌, OnOk, MatchOption};
ghost use Rattle.std.specs.Option.{option_copied};
ghost use Rattle.vern_grammar.specs.Machine.{depth, top, weight, in_shape};
ghost use Rattle.vern_parse.specs.Meaning.{frame as meaning, frames};
ghost use Rattle.vern_parse.specs.Answers.{first, stacked};

use crate::frames::Frame;
use crate::levels::{BARE, OUTER};
use base_core::NoMemory;
use std::alloc::Global;
use std::marker::Model;

/// Frames, and how many openings they have. Contracts see the list of frames, the newest first.
#[derive(Drop)]
pub struct Stack {
    frames: Vec<Frame>,
    depth: u64,
}

impl Model for Stack {
    ghost use Rattle.std.specs.Prelude.{◌≡◌, List};
    ghost use Rattle.vern_parse.specs.declared.frames.Frame.{Frame};
    ghost use Rattle.vern_grammar.specs.Machine.{depth as opened};
    ghost use Rattle.vern_parse.specs.Meaning.{frames as meaning};
    ghost use Rattle.vern_parse.specs.Answers.{stacked};
    ghost use Rattle.vern_parse.specs.contracts.raw.RawExpr as e;
    ghost use Rattle.std.specs.Coded.{codes};

    ghost Value = { List Frame };

    ghost coded = { Prim.hlevel (codes, e.the_row.coded) };

    ghost view = { λ s. stacked s.frames.items };

    ghost invariant = { λ s. s.depth ≡ opened (meaning (stacked s.frames.items)) };
}

#[tactic(auto, using(crate::proofs::Stacks::laws))]
impl Stack {
    /// No frames.
    pub fn new(alloc: Global) -> Stack
        ensures { result ≡ [] }
    {
        Stack {
            frames: Vec::new(alloc),
            depth: 0,
        }
    }

    /// How many openings are open.
    pub fn depth(&self) -> u64
        ensures { result ≡ depth (frames self.now) }
    {
        self.depth
    }

    /// The frames, the newest last.
    pub fn frames(&self) -> &[Frame]
        ensures { stacked result.now ≡ self.now }
    {
        &self.frames
    }

    pub fn push(&mut self, frame: Frame) -> Result<(), NoMemory>
        requires { depth (frames self.old) + weight (meaning frame) < 2 ^ 64 }
        ensures { OnOk result (self.new ≡ frame ∷ self.old) }
    {
        let more = frame.weight();
        self.frames.push(frame)?;
        self.depth += more;
        Ok(())
    }

    pub fn pop(&mut self) -> Option<Frame>
        ensures { MatchOption result ((self.old ≡ []) × (self.new ≡ [])) (λ f. self.old ≡ f ∷ self.new) }
    {
        let frame = self.frames.pop()?;
        self.depth -= frame.weight();
        Some(frame)
    }

    pub fn first(&self) -> Option<&Frame>
        ensures { option_copied result ≡ first self.now }
    {
        self.frames.last()
    }

    /// The most level of an operand that may stand behind the frames, but for a quantifier.
    pub fn room(&self) -> u64
        ensures { result ≡ top (frames self.now) }
    {
        match self.first() {
            Some(Frame::Governor(head)) => head.room(),
            Some(Frame::Outline) | Some(Frame::Link(_)) => OUTER,
            _ => BARE,
        }
    }

    /// Whether a shape begins behind the frames.
    pub fn in_shape(&self) -> bool
        ensures { result ≡ in_shape (frames self.now) }
    {
        matches!(self.first(), Some(Frame::Outline) | Some(Frame::Link(_)))
    }
}
