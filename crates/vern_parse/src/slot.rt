//! The expressions, shapes and evidence that stand in a sentence.
ghost use Rattle.std.specs.Prelude.{◌≡◌, [], ◌∷◌};
ghost use Rattle.vern_lex.specs.declared.span.Span.{Span};
ghost use Rattle.vern_grammar.specs.Grammar.{tok};
ghost use Rattle.vern_grammar.specs.Machine.{at as state, want};
ghost use Rattle.vern_sentence.specs.Patterns.{part_front};
ghost use Rattle.vern_sentence.specs.Slots.{enclosed as enclosed_slot, evidence as evidence_slot, expression as expression_slot, is_simple};
ghost use Rattle.vern_sentence.specs.Slots.{shape as shape_slot};
ghost use Rattle.vern_parse.specs.Answers.{Bounded, is_taken};
ghost use Rattle.vern_parse.specs.Meaning.{expression as expression_of, frames, kind as kind_of, mode as mode_of, shape as shape_of};
ghost use Rattle.vern_parse.specs.Sources.{Gives, rest, with_rest};
ghost use Rattle.vern_parse.specs.Pieces.{Stands, cut_in, next_in};

use crate::fault::{ParseFault, Stop};
use crate::frames::{Frame, Mode};
use crate::kind::Kind;
use crate::raw::{RawExpr, Shape};
use crate::read::{end_expression, end_shape, take_kind};
use crate::source::Source;
use crate::stack::Stack;
use crate::takes::takes;
use std::alloc::Global;

/// The parts of sentences that have no end of their own: an expression, or one with the `)` behind it; a shape;
/// evidence.
#[derive(Clone, Copy, Debug, PartialEq, Eq)]
pub enum Part {
    Expression,
    Enclosed,
    Shape,
    Evidence,
}

/// An expression from a token on, and the number of the token behind it.
pub fn expression_at(
    alloc: Global,
    source: &Source<'_>,
    at: usize,
) -> Result<(RawExpr, usize), ParseFault>
    ensures { Gives (with_rest expression_of source.now) source.now result (part_front expression_slot (rest source.now at)) }
{
    let mut stack = Stack::new(alloc);
    let (mode, end) = read_part(alloc, source, at, Part::Expression, &mut stack)?;
    match end_expression(alloc, mode, &mut stack) {
        Ok(found) => Ok((found, end)),
        Err(Stop::Refused) => Err(source.fault_at(end)),
        Err(Stop::NoMemory) => Err(ParseFault::NoMemory),
    }
}

/// Evidence: a name with arguments, each a name or evidence in parentheses.
pub fn evidence_at(
    alloc: Global,
    source: &Source<'_>,
    at: usize,
) -> Result<(RawExpr, usize), ParseFault>
    ensures { Gives (with_rest expression_of source.now) source.now result (part_front evidence_slot (rest source.now at)) }
{
    let mut stack = Stack::new(alloc);
    let (mode, end) = read_part(alloc, source, at, Part::Evidence, &mut stack)?;
    match end_expression(alloc, mode, &mut stack) {
        Ok(found) => Ok((found, end)),
        Err(Stop::Refused) => Err(source.fault_at(end)),
        Err(Stop::NoMemory) => Err(ParseFault::NoMemory),
    }
}

/// An expression behind a `(`, with its `)`.
pub fn enclosed_at(
    alloc: Global,
    source: &Source<'_>,
    at: usize,
) -> Result<(RawExpr, usize), ParseFault>
    ensures { Gives (with_rest expression_of source.now) source.now result (part_front enclosed_slot (rest source.now at)) }
{
    let mut stack = Stack::new(alloc);
    stack.push(Frame::Parenthesis(0))?;
    let (mode, end) = read_part(alloc, source, at, Part::Enclosed, &mut stack)?;
    match mode {
        Mode::After(found, _, _) if stack.first().is_none() => Ok((found, end)),
        _ => Err(source.fault_at(end)),
    }
}

/// A shape from a token on, and the number of the token behind it.
pub fn shape_at(alloc: Global, source: &Source<'_>, at: usize) -> Result<(Shape, usize), ParseFault>
    ensures { Gives (with_rest shape_of source.now) source.now result (part_front shape_slot (rest source.now at)) }
{
    let mut stack = Stack::new(alloc);
    stack.push(Frame::Outline)?;
    let (mode, end) = read_part(alloc, source, at, Part::Shape, &mut stack)?;
    match end_shape(alloc, mode, &mut stack) {
        Ok(found) => Ok((found, end)),
        Err(Stop::Refused) => Err(source.fault_at(end)),
        Err(Stop::NoMemory) => Err(ParseFault::NoMemory),
    }
}

/// The state where the next token isn't of the part, and the number of that token.
#[tactic(auto, using(crate::proofs::Parts::laws))]
fn read_part(
    alloc: Global,
    source: &Source<'_>,
    at: usize,
    part: Part,
    stack: &mut Stack,
) -> Result<(Mode, usize), ParseFault>
    ensures { Stands source.now result stack.new (cut_in part (state want (frames stack.old)) (rest source.now at)) }
{
    let mut mode = Mode::Want;
    let mut at = at;
    'tokens: while let Some(token) = source.token_at(at) {
        let kind = Kind::of(alloc, token, source.sentence())?;
        if !goes_on(part, &mode, stack, &kind) {
            break;
        }
        mode = take_kind(alloc, mode, stack, kind, token)?;
        at += 1;
    }
    Ok((mode, at))
}

/// Whether a part goes on with a token of a kind.
fn goes_on(part: Part, mode: &Mode, stack: &Stack, kind: &Kind) -> bool
    requires { Bounded mode.now stack.now }
    ensures { (span : Span) → is_taken (next_in part (state (mode_of mode.now) (frames stack.now)) (tok (kind_of kind.now) span)) ≡ result }
{
    match part {
        Part::Expression | Part::Shape => takes(mode, stack, kind),
        Part::Enclosed => stack.first().is_some() && takes(mode, stack, kind),
        Part::Evidence => is_simple(kind) && takes(mode, stack, kind),
    }
}

/// Whether evidence has tokens of a kind.
fn is_simple(kind: &Kind) -> bool
    ensures { is_simple (kind_of kind.now) ≡ result }
{
    matches!(kind, Kind::Name(_) | Kind::Opening | Kind::Closing)
}
