//! Reading expressions and shapes.
ghost use Rattle.std.specs.Prelude.{◌≡◌, All, IfErr, IfOk, Some, [], ◌∷◌};
ghost use Rattle.vern_lex.specs.Tokens.{IsTokenOf};
ghost use Rattle.vern_grammar.specs.Grammar.{IsExpression, IsShape};
ghost use Rattle.vern_grammar.specs.Kinds.{kind_of, lexemes, slice};
ghost use Rattle.vern_grammar.specs.Machine.{at, on, outline, result as phrase, run, start};
ghost use Rattle.vern_parse.specs.Meaning.{expression as expression_of, frames, kind as kind_in, mode as mode_of, shape as shape_of};
ghost use Rattle.vern_sentence.specs.Slots.{expression_in, shape_in};
ghost use Rattle.vern_parse.specs.Answers.{Bounded, EndsExpression, EndsShape, IsFaultOf, StopsAt, Takes};

use crate::fault::{ParseFault, Stop};
use crate::frames::{Frame, Mode};
use crate::kind::Kind;
use crate::raw::{RawExpr, Shape};
use crate::reduce::{chain, whole_expression, whole_shape};
use crate::stack::Stack;
use crate::step::{application, step};
use std::alloc::Global;
use vern_lex::Token;

/// The expression that tokens of a sentence are. The fault is at the first token with which the tokens so far
/// begin no expression, or at the sentence's length where all of them begin one and are none. Its work grows
/// with the tokens; it keeps the 256 openings that are open at most on a stack of its own.
pub fn expression(alloc: Global, tokens: &[Token], sentence: &[u8]) -> Result<RawExpr, ParseFault>
    requires { All (IsTokenOf sentence.now) tokens.now }
    ensures tree { IfOk result (λ t. IsExpression (lexemes sentence.now tokens.now) (expression_of t)) }
    ensures fault { IfErr result (λ e. IsFaultOf IsExpression sentence.now tokens.now e) }
{
    let mut stack = Stack::new(alloc);
    let mode = read(alloc, tokens, sentence, &mut stack)?;
    match end_expression(alloc, mode, &mut stack) {
        Ok(found) => Ok(found),
        Err(Stop::Refused) => Err(ParseFault::At(sentence.len() as u64)),
        Err(Stop::NoMemory) => Err(ParseFault::NoMemory),
    }
}

/// The shape that tokens of a sentence are, and its faults in the same way.
pub fn shape(alloc: Global, tokens: &[Token], sentence: &[u8]) -> Result<Shape, ParseFault>
    requires { All (IsTokenOf sentence.now) tokens.now }
    ensures tree { IfOk result (λ t. IsShape (lexemes sentence.now tokens.now) (shape_of t)) }
    ensures fault { IfErr result (λ e. IsFaultOf IsShape sentence.now tokens.now e) }
{
    let mut stack = Stack::new(alloc);
    stack.push(Frame::Outline)?;
    let mode = read(alloc, tokens, sentence, &mut stack)?;
    match end_shape(alloc, mode, &mut stack) {
        Ok(found) => Ok(found),
        Err(Stop::Refused) => Err(ParseFault::At(sentence.len() as u64)),
        Err(Stop::NoMemory) => Err(ParseFault::NoMemory),
    }
}

/// The state behind all tokens, from a state that has read none.
fn read(
    alloc: Global,
    tokens: &[Token],
    sentence: &[u8],
    stack: &mut Stack,
) -> Result<Mode, ParseFault>
    requires { All (IsTokenOf sentence.now) tokens.now }
    ensures state { IfOk result (λ m. run (start (frames stack.old)) (lexemes sentence.now tokens.now)
        ≡ Some (at (mode_of m) (frames stack.new))) }
    ensures fault { IfErr result (λ e. StopsAt (frames stack.old) sentence.now tokens.now e) }
{
    let mut mode = Mode::Want;
    'tokens: for i in 0..tokens.len() {
        mode = take_token(alloc, mode, stack, tokens[i], sentence)?;
    }
    Ok(mode)
}

/// The state behind one token more.
fn take_token(
    alloc: Global,
    mode: Mode,
    stack: &mut Stack,
    token: Token,
    sentence: &[u8],
) -> Result<Mode, ParseFault>
    requires token { IsTokenOf sentence.now token }
    requires bounded { Bounded mode stack.old }
    ensures exact { Takes result stack.new token (on (mode_of mode) (frames stack.old)
        (kind_of token.kind (slice sentence.now token.span)) token.span) }
    ensures bounded { IfOk result (λ m. Bounded m stack.new) }
{
    let kind = Kind::of(alloc, token, sentence)?;
    take_kind(alloc, mode, stack, kind, token)
}

/// The state behind a token of a kind.
pub fn take_kind(
    alloc: Global,
    mode: Mode,
    stack: &mut Stack,
    kind: Kind,
    token: Token,
) -> Result<Mode, ParseFault>
    requires { Bounded mode stack.old }
    ensures exact { Takes result stack.new token (on (mode_of mode) (frames stack.old) (kind_in kind) token.span) }
    ensures bounded { IfOk result (λ m. Bounded m stack.new) }
{
    match step(alloc, mode, stack, kind, token.span) {
        Ok(next) => Ok(next),
        Err(Stop::Refused) => Err(ParseFault::At(token.span.from)),
        Err(Stop::NoMemory) => Err(ParseFault::NoMemory),
    }
}

/// The expression where no token is left.
#[tactic(auto, using(crate::proofs::Ends::no_expression))]
pub fn end_expression(alloc: Global, mode: Mode, stack: &mut Stack) -> Result<RawExpr, Stop>
    ensures { EndsExpression result (expression_in (phrase (mode_of mode) (frames stack.old))) }
{
    match mode {
        Mode::Applying(name, arguments, to) => {
            whole_expression(alloc, application(name, arguments, to), to, stack)
        }
        Mode::After(value, _, to) => whole_expression(alloc, value, to, stack),
        _ => Err(Stop::Refused),
    }
}

/// The shape where no token is left.
pub fn end_shape(alloc: Global, mode: Mode, stack: &mut Stack) -> Result<Shape, Stop>
    ensures { EndsShape result (shape_in (phrase (mode_of mode) (frames stack.old))) }
{
    match mode {
        Mode::Applying(name, arguments, to) => {
            whole_shape(alloc, application(name, arguments, to), to, stack)
        }
        Mode::After(value, _, to) => whole_shape(alloc, value, to, stack),
        Mode::Ended(last) => chain(alloc, last, stack),
        _ => Err(Stop::Refused),
    }
}
