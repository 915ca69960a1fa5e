//! What the machine keeps of the tokens that it has read.

ghost use Rattle.std.specs.Prelude.{◌≡◌, IfOk};
ghost use Rattle.vern_grammar.specs.Grammar.{begin, governing, level, openings, room};
ghost use Rattle.vern_grammar.specs.Machine.{weight};
ghost use Rattle.vern_parse.specs.Meaning.{expression, frame, head};

use crate::levels::{BARE, TILDE};
use crate::raw::{RawExpr, RawExprs, RawGroups, RawName, RawNames, RawOp, Shape};
use base_core::NoMemory;
use std::alloc::Global;
use vern_lex::Span;

/// A quantifier as far as it was read: its word, where that begins, its groups, and how many names it binds.
#[derive(Drop)]
pub struct Binder {
    pub all: bool,
    pub from: u64,
    pub groups: RawGroups,
    pub bound: u64,
}

/// What stands before an operand and governs it: a left operand, which begins at an offset, with its
/// operator; a `~` at an offset; a quantifier.
#[derive(Drop)]
pub enum Head {
    Operator(RawOp, RawExpr, u64),
    Tilde(u64),
    Quantifier(Binder),
}

/// What waits for its end: a parenthesis from an offset; an argument in parentheses, of a name with the
/// arguments before it; the operand of a head; a whole shape; the rest of a shape behind an operand and its
/// arrow.
#[derive(Drop)]
pub enum Frame {
    Parenthesis(u64),
    Argument(RawName, RawExprs),
    Governor(Head),
    Outline,
    Link(RawExpr),
}

/// What the tokens behind the newest frame are: none; a name with arguments, which end at an offset; an operand
/// that takes none, with its two ends; the last part of a shape; or a part of a quantifier.
#[derive(Drop)]
pub enum Mode {
    Want,
    Applying(RawName, RawExprs, u64),
    After(RawExpr, u64, u64),
    Ended(Shape),
    InNames(Binder, RawNames),
    NamesSort(Binder, RawNames),
    NamesEnd(Binder),
    InGroup(Binder, RawNames),
    GroupSort(Binder, RawNames),
    GroupEnd(Binder),
    InGroups(Binder),
}

impl Head {
    /// The level of the head with its operand.
    pub fn level(&self) -> u64
        ensures { result ≡ level (head self.now) }
    {
        match self {
            Head::Operator(op, _, _) => op.level(),
            Head::Tilde(_) => TILDE,
            Head::Quantifier(_) => BARE,
        }
    }

    /// The most level of its operand, but for a quantifier.
    pub fn room(&self) -> u64
        ensures { result ≡ room (head self.now) }
    {
        match self {
            Head::Operator(op, _, _) => op.right_at_most(),
            Head::Tilde(_) => TILDE,
            Head::Quantifier(_) => BARE,
        }
    }

    /// How many openings it has.
    pub fn openings(&self) -> u64
        ensures { result ≡ openings (head self.now) }
    {
        match self {
            Head::Operator(_, _, _) | Head::Tilde(_) => 1,
            Head::Quantifier(binder) => binder.bound,
        }
    }

    /// Where it begins.
    pub fn begin(&self) -> u64
        ensures { result ≡ begin (head self.now) }
    {
        match self {
            Head::Operator(_, _, from) | Head::Tilde(from) => *from,
            Head::Quantifier(binder) => binder.from,
        }
    }

    /// The tree of the head with its operand, which ends at `to`.
    #[tactic(auto, using(crate::proofs::Trees::governed))]
    pub fn governing(self, alloc: Global, operand: RawExpr, to: u64) -> Result<RawExpr, NoMemory>
        ensures { IfOk result (λ t. expression t ≡ governing (head self) (expression operand) to) }
    {
        let span = Span {
            from: self.begin(),
            to,
        };
        let operand = Box::new(alloc, operand)?;
        match self {
            Head::Operator(op, left, _) => {
                let left = Box::new(alloc, left)?;
                Ok(RawExpr::Binary(op, left, operand, span))
            }
            Head::Tilde(_) => Ok(RawExpr::Not(operand, span)),
            Head::Quantifier(binder) => {
                let Binder { all, groups, .. } = binder;
                Ok(RawExpr::Quant(all, groups, operand, span))
            }
        }
    }
}

impl Frame {
    /// How many openings it has.
    pub fn weight(&self) -> u64
        ensures { result ≡ weight (frame self.now) }
    {
        match self {
            Frame::Parenthesis(_) | Frame::Argument(_, _) | Frame::Link(_) => 1,
            Frame::Governor(head) => head.openings(),
            Frame::Outline => 0,
        }
    }
}
