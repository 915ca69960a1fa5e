//! What an operator, a closing parenthesis and the end make of the frames.
ghost use Rattle.std.specs.Prelude.{◌≡◌, ◌∷◌, MatchOption, IfOk, true, false, nat_le, if◌then◌else◌};
ghost use Rattle.vern_grammar.specs.Machine.{chain, close, governor, link, place, shift, whole};
ghost use Rattle.vern_grammar.specs.Grammar.{operator as head_of};
ghost use Rattle.vern_grammar.specs.Levels.{op_level};
ghost use Rattle.vern_grammar.specs.Trees.{plain};
ghost use Rattle.vern_parse.specs.Meaning.{expression, frame, frames, operator, shape};
ghost use Rattle.vern_sentence.specs.Slots.{expression_in, shape_in};
ghost use Rattle.vern_parse.specs.Answers.{Bounded, EndsExpression, EndsShape, Steps, is_governed, takes_first};
ghost use Rattle.vern_parse.specs.declared.frames.Frame.TheVariants.{Governor};

use crate::fault::Stop;
use crate::frames::{Frame, Head, Mode};
use crate::levels::LIMIT;
use crate::raw::{RawExpr, RawOp, Shape};
use crate::stack::Stack;
use crate::takes::passed;
use base_core::NoMemory;
use std::alloc::Global;

/// Whether the newest head takes the operand behind it before the operator could; `fits` says whether the
/// operator may have the operand on its left.
fn takes_first(stack: &Stack, op: RawOp, fits: bool) -> bool
    ensures { result ≡ takes_first (operator op) fits (frames stack.now) }
{
    passed(stack.frames(), op, fits).is_some()
}

/// Takes the head that has the operand before the operator could.
fn pop_first(stack: &mut Stack, op: RawOp, fits: bool) -> Option<Head>
    ensures { MatchOption result
        ((stack.new ≡ stack.old) × (takes_first (operator op) fits (frames stack.old) ≡ false))
        (λ h. (stack.old ≡ Governor h ∷ stack.new) × (takes_first (operator op) fits (frames stack.old) ≡ true)) }
{
    if !takes_first(stack, op, fits) {
        return None;
    }
    match stack.pop() {
        Some(Frame::Governor(head)) => Some(head),
        _ => None,
    }
}

/// The operator becomes a frame, with the operand on its left.
fn shift(op: RawOp, fits: bool, value: RawExpr, from: u64, stack: &mut Stack) -> Result<Mode, Stop>
    ensures exact { Steps result stack.new (shift (operator op) fits (expression value) from (frames stack.old)) }
    ensures bounded { IfOk result (λ m. Bounded m stack.new) }
{
    if !fits {
        return Err(Stop::Refused);
    }
    if stack.depth() >= LIMIT {
        return Err(Stop::Refused);
    }
    stack.push(left_operand(op, value, from, stack.room()))?;
    Ok(Mode::Want)
}

/// The frame of an operator with its left operand, where an operand of so high a level may stand.
fn left_operand(op: RawOp, value: RawExpr, from: u64, room: u64) -> Frame
    ensures { frame result ≡ (if nat_le (op_level (operator op)) room then governor
        (head_of (operator op) (expression value) from) else link (expression value)) }
{
    if op.level() <= room {
        Frame::Governor(Head::Operator(op, value, from))
    } else {
        Frame::Link(value)
    }
}

/// An operator comes behind an operand.
#[tactic(auto, using(crate::proofs::Places::laws))]
pub fn place(
    alloc: Global,
    op: RawOp,
    value: RawExpr,
    from: u64,
    to: u64,
    stack: &mut Stack,
) -> Result<Mode, Stop>
    ensures exact { Steps result stack.new (place (operator op) true (expression value) from to (frames stack.old)) }
    ensures bounded { IfOk result (λ m. Bounded m stack.new) }
{
    let mut value = value;
    let mut from = from;
    let mut fits = true;
    'heads: while let Some(head) = pop_first(stack, op, fits) {
        fits = head.level() <= op.left_at_most();
        from = head.begin();
        value = head.governing(alloc, value, to)?;
    }
    shift(op, fits, value, from, stack)
}

/// A `)` that ends at `behind` comes behind an operand.
#[tactic(auto, unfolding(vern_grammar::specs::Machine::close))]
pub fn close(
    alloc: Global,
    value: RawExpr,
    to: u64,
    behind: u64,
    stack: &mut Stack,
) -> Result<Mode, Stop>
    ensures exact { Steps result stack.new (close (expression value) to behind (frames stack.old)) }
    ensures bounded { IfOk result (λ m. Bounded m stack.new) }
{
    let mut value = value;
    'frames: while let Some(frame) = stack.pop() {
        match frame {
            Frame::Governor(head) => {
                value = head.governing(alloc, value, to)?;
            }
            Frame::Parenthesis(from) => {
                return Ok(Mode::After(value, from, behind));
            }
            Frame::Argument(name, arguments) => {
                let mut arguments = arguments;
                arguments.push(value)?;
                return Ok(Mode::Applying(name, arguments, behind));
            }
            _ => {
                return Err(Stop::Refused);
            }
        }
    }
    Err(Stop::Refused)
}

/// The tree behind all heads that wait for the operand.
#[tactic(auto, unfolding(vern_grammar::specs::Machine::whole))]
fn settle(alloc: Global, value: RawExpr, to: u64, stack: &mut Stack) -> Result<RawExpr, NoMemory>
    ensures whole { IfOk result (λ t. whole (expression value) to (frames stack.old) ≡ whole (expression t) to (frames stack.new)) }
    ensures heads { IfOk result (λ t. is_governed (frames stack.new) ≡ false) }
{
    let mut value = value;
    'heads: while let Some(head) = pop_head(stack) {
        value = head.governing(alloc, value, to)?;
    }
    Ok(value)
}

/// Takes the newest frame where it is a head.
fn pop_head(stack: &mut Stack) -> Option<Head>
    ensures { MatchOption result
        ((stack.new ≡ stack.old) × (is_governed (frames stack.old) ≡ false))
        (λ h. stack.old ≡ Governor h ∷ stack.new) }
{
    if !matches!(stack.first(), Some(Frame::Governor(_))) {
        return None;
    }
    match stack.pop() {
        Some(Frame::Governor(head)) => Some(head),
        _ => None,
    }
}

/// The expression that ends with an operand, where no token is left.
#[tactic(auto, using(crate::proofs::Ends::expressions))]
pub fn whole_expression(
    alloc: Global,
    value: RawExpr,
    to: u64,
    stack: &mut Stack,
) -> Result<RawExpr, Stop>
    ensures { EndsExpression result (expression_in (whole (expression value) to (frames stack.old))) }
{
    let value = settle(alloc, value, to, stack)?;
    match stack.first() {
        None => Ok(value),
        Some(_) => Err(Stop::Refused),
    }
}

/// The shape that ends with an operand, where no token is left.
pub fn whole_shape(alloc: Global, value: RawExpr, to: u64, stack: &mut Stack) -> Result<Shape, Stop>
    ensures { EndsShape result (shape_in (whole (expression value) to (frames stack.old))) }
{
    let value = settle(alloc, value, to, stack)?;
    chain(alloc, Shape::Plain(value), stack)
}

/// The shape whose last part is given.
#[tactic(auto, using(crate::proofs::Trees::chains), unfolding(vern_grammar::specs::Machine::chain))]
pub fn chain(alloc: Global, last: Shape, stack: &mut Stack) -> Result<Shape, Stop>
    ensures { EndsShape result (shape_in (chain (shape last) (frames stack.old))) }
{
    let mut shape = last;
    'links: while let Some(frame) = stack.pop() {
        match frame {
            Frame::Link(value) => {
                shape = Shape::Arrow(value, Box::new(alloc, shape)?);
            }
            Frame::Outline => {
                return Ok(shape);
            }
            _ => {
                return Err(Stop::Refused);
            }
        }
    }
    Err(Stop::Refused)
}
