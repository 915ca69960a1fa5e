//! One token.
ghost use Rattle.std.specs.Prelude.{◌≡◌, ◌+◌, ◌<◌, ◌≤◌, [], ◌∷◌, ◌++◌, map, IfOk, Some};
ghost use Rattle.vern_lex.specs.declared.span.Span.{Span};
ghost use Rattle.vern_grammar.specs.Grammar.{application, named, quantifier, single};
ghost use Rattle.vern_grammar.specs.Levels.{limit};
ghost use Rattle.vern_grammar.specs.Machine as machine;
ghost use Rattle.vern_grammar.specs.Machine.{at, behind, counted, depth, on, weight, with_group, within};
ghost use Rattle.vern_parse.specs.Meaning.{binder as binder_of, expression, frame as frame_of, frames, kind as kind_of, mode as mode_of};
ghost use Rattle.vern_parse.specs.Meaning.{name as name_of};
ghost use Rattle.vern_parse.specs.Answers.{Bounded, Steps};

use crate::fault::Stop;
use crate::frames::{Binder, Frame, Head, Mode};
use crate::kind::Kind;
use crate::levels::{LIMIT, TILDE};
use crate::raw::{RawExpr, RawExprs, RawGroup, RawName, RawNames, Shape};
use crate::reduce::{close, place};
use crate::stack::Stack;
use base_core::{NoMemory, SharedBytes};
use std::alloc::Global;
use vern_lex::Span;

/// The next token.
pub fn step(
    alloc: Global,
    mode: Mode,
    stack: &mut Stack,
    kind: Kind,
    span: Span,
) -> Result<Mode, Stop>
    requires { Bounded mode stack.old }
    ensures exact { Steps result stack.new (on (mode_of mode) (frames stack.old) (kind_of kind) span) }
    ensures bounded { IfOk result (λ m. Bounded m stack.new) }
{
    match mode {
        Mode::Want => want(alloc, stack, kind, span),
        Mode::Applying(name, arguments, to) => applying(
            alloc, name, arguments, to, stack, kind, span,
        ),
        Mode::After(value, from, to) => after(alloc, value, from, to, stack, kind, span),
        Mode::Ended(_) => Err(Stop::Refused),
        Mode::InNames(binder, names) => in_names(alloc, binder, names, stack, kind, span),
        Mode::NamesSort(binder, names) => names_sort(binder, names, stack, kind, span),
        Mode::NamesEnd(binder) => names_end(binder, stack, kind),
        Mode::InGroup(binder, names) => in_group(binder, names, stack, kind, span),
        Mode::GroupSort(binder, names) => group_sort(binder, names, stack, kind, span),
        Mode::GroupEnd(binder) => group_end(binder, stack, kind),
        Mode::InGroups(binder) => in_groups(alloc, binder, stack, kind),
    }
}

/// A token comes where an operand must, or `Set` or `Prop` may.
#[tactic(auto, using(crate::proofs::Trees::constants, crate::proofs::Trees::words))]
fn want(alloc: Global, stack: &mut Stack, kind: Kind, span: Span) -> Result<Mode, Stop>
    ensures exact { Steps result stack.new (on machine.want (frames stack.old) (kind_of kind) span) }
    ensures bounded { IfOk result (λ m. Bounded m stack.new) }
{
    match kind {
        Kind::Name(text) => Ok(Mode::Applying(RawName { text, span }, Vec::new(alloc), span.to)),
        Kind::Constant(true) => Ok(Mode::After(RawExpr::True(span), span.from, span.to)),
        Kind::Constant(false) => Ok(Mode::After(RawExpr::False(span), span.from, span.to)),
        Kind::Opening => open(stack, Frame::Parenthesis(span.from)),
        Kind::Tilde if stack.room() >= TILDE => {
            open(stack, Frame::Governor(Head::Tilde(span.from)))
        }
        Kind::Quantifier(all) if stack.depth() < LIMIT => {
            let binder = Binder {
                all,
                from: span.from,
                groups: Vec::new(alloc),
                bound: 0,
            };
            Ok(Mode::InNames(binder, Vec::new(alloc)))
        }
        Kind::Set if stack.in_shape() => Ok(Mode::Ended(Shape::Set(span))),
        Kind::Prop if stack.in_shape() => Ok(Mode::Ended(Shape::Prop(span))),
        _ => Err(Stop::Refused),
    }
}

/// A frame that is one opening, and behind it an operand.
fn open(stack: &mut Stack, frame: Frame) -> Result<Mode, Stop>
    requires { weight (frame_of frame) ≡ 1 }
    ensures exact { Steps result stack.new (within (depth (frames stack.old)) (at machine.want (frame_of frame ∷ frames stack.old))) }
    ensures bounded { IfOk result (λ m. Bounded m stack.new) }
{
    if stack.depth() >= LIMIT {
        return Err(Stop::Refused);
    }
    stack.push(frame)?;
    Ok(Mode::Want)
}

/// A token comes behind a name with arguments, which takes further arguments.
fn applying(
    alloc: Global,
    name: RawName,
    arguments: RawExprs,
    to: u64,
    stack: &mut Stack,
    kind: Kind,
    span: Span,
) -> Result<Mode, Stop>
    ensures exact { Steps result stack.new (on (machine.applying (name_of name) (map expression arguments.items) to) (frames stack.old)
        (kind_of kind) span) }
    ensures bounded { IfOk result (λ m. Bounded m stack.new) }
{
    match kind {
        Kind::Name(text) => {
            let mut arguments = arguments;
            arguments.push(single(alloc, text, span))?;
            Ok(Mode::Applying(name, arguments, span.to))
        }
        Kind::Opening => open(stack, Frame::Argument(name, arguments)),
        _ => {
            let from = name.span.from;
            let value = application(name, arguments, to);
            after(alloc, value, from, to, stack, kind, span)
        }
    }
}

/// The tree of a name with its arguments, which end at `to`.
#[tactic(auto, using(crate::proofs::Trees::applications))]
pub fn application(name: RawName, arguments: RawExprs, to: u64) -> RawExpr
    ensures { expression result ≡ application (name_of name) (map expression arguments.items) to }
{
    let span = Span {
        from: name.span.from,
        to,
    };
    RawExpr::App(name, arguments, span)
}

/// The tree of a name alone.
#[tactic(auto, using(crate::proofs::Trees::applications))]
fn single(alloc: Global, text: SharedBytes, span: Span) -> RawExpr
    ensures { expression result ≡ single text span }
{
    RawExpr::App(RawName { text, span }, Vec::new(alloc), span)
}

/// A token comes behind an operand that takes no argument.
fn after(
    alloc: Global,
    value: RawExpr,
    from: u64,
    to: u64,
    stack: &mut Stack,
    kind: Kind,
    span: Span,
) -> Result<Mode, Stop>
    ensures exact { Steps result stack.new (behind (expression value) from to (frames stack.old) (kind_of kind) span) }
    ensures bounded { IfOk result (λ m. Bounded m stack.new) }
{
    match kind {
        Kind::Sign(op) => place(alloc, op, value, from, to, stack),
        Kind::Closing => close(alloc, value, to, span.to, stack),
        _ => Err(Stop::Refused),
    }
}

/// A quantifier with one name more.
fn named(
    binder: Binder,
    names: RawNames,
    text: SharedBytes,
    span: Span,
) -> Result<(Binder, RawNames), NoMemory>
    requires { binder.bound < limit }
    ensures { IfOk result (λ r. (binder_of r.0 ≡ counted (binder_of binder))
        × (map name_of r.1.items ≡ map name_of names.items ++ named text span ∷ []) × (r.0.bound ≡ binder.bound + 1)) }
{
    let mut names = names;
    names.push(RawName { text, span })?;
    let mut binder = binder;
    binder.bound += 1;
    Ok((binder, names))
}

/// A quantifier with the names and their sort.
fn with_group(binder: Binder, names: RawNames, sort: RawName) -> Result<Binder, NoMemory>
    ensures { IfOk result (λ b. (binder_of b ≡ with_group (binder_of binder) (map name_of names.items) (name_of sort))
        × (b.bound ≡ binder.bound)) }
{
    let mut binder = binder;
    binder.groups.push(RawGroup { names, sort })?;
    Ok(binder)
}

/// A token comes behind a quantifier's word and the names behind it.
fn in_names(
    alloc: Global,
    binder: Binder,
    names: RawNames,
    stack: &mut Stack,
    kind: Kind,
    span: Span,
) -> Result<Mode, Stop>
    requires { depth (frames stack.old) + binder.bound ≤ limit }
    ensures exact { Steps result stack.new (on (machine.in_names (binder_of binder) (map name_of names.items)) (frames stack.old)
        (kind_of kind) span) }
    ensures bounded { IfOk result (λ m. Bounded m stack.new) }
{
    match kind {
        Kind::Name(text) if stack.depth() + binder.bound < LIMIT => {
            let (binder, names) = named(binder, names, text, span)?;
            Ok(Mode::InNames(binder, names))
        }
        Kind::Opening if names.is_empty() => open_group(alloc, binder, stack),
        Kind::Colon if !names.is_empty() => Ok(Mode::NamesSort(binder, names)),
        _ => Err(Stop::Refused),
    }
}

/// A group opens, where a name has room in it.
fn open_group(alloc: Global, binder: Binder, stack: &mut Stack) -> Result<Mode, Stop>
    requires { depth (frames stack.old) + binder.bound ≤ limit }
    ensures exact { Steps result stack.new (within (depth (frames stack.old) + binder.bound + 1)
        (at (machine.in_group (binder_of binder) []) (frames stack.old))) }
    ensures bounded { IfOk result (λ m. Bounded m stack.new) }
{
    if stack.depth() + binder.bound + 1 >= LIMIT {
        return Err(Stop::Refused);
    }
    Ok(Mode::InGroup(binder, Vec::new(alloc)))
}

/// A token comes behind the `:` of a quantifier's names.
fn names_sort(
    binder: Binder,
    names: RawNames,
    stack: &mut Stack,
    kind: Kind,
    span: Span,
) -> Result<Mode, Stop>
    requires { depth (frames stack.old) + binder.bound ≤ limit }
    ensures exact { Steps result stack.new (on (machine.names_sort (binder_of binder) (map name_of names.items)) (frames stack.old)
        (kind_of kind) span) }
    ensures bounded { IfOk result (λ m. Bounded m stack.new) }
{
    match kind {
        Kind::Name(text) => Ok(Mode::NamesEnd(with_group(binder, names, RawName { text, span })?)),
        _ => Err(Stop::Refused),
    }
}

/// A token comes behind the sort of a quantifier's names.
fn names_end(binder: Binder, stack: &mut Stack, kind: Kind) -> Result<Mode, Stop>
    requires { depth (frames stack.old) + binder.bound ≤ limit }
    ensures exact { (span : Span) → Steps result stack.new
        (on (machine.names_end (binder_of binder)) (frames stack.old) (kind_of kind) span) }
    ensures bounded { IfOk result (λ m. Bounded m stack.new) }
{
    match kind {
        Kind::Comma => govern(binder, stack),
        _ => Err(Stop::Refused),
    }
}

/// The body of a quantifier begins.
fn govern(binder: Binder, stack: &mut Stack) -> Result<Mode, Stop>
    requires { depth (frames stack.old) + binder.bound ≤ limit }
    ensures exact { Steps result stack.new (Some (at machine.want (machine.governor (quantifier (binder_of binder)) ∷ frames stack.old))) }
    ensures bounded { IfOk result (λ m. Bounded m stack.new) }
{
    stack.push(Frame::Governor(Head::Quantifier(binder)))?;
    Ok(Mode::Want)
}

/// A token comes in a group, behind its names.
fn in_group(
    binder: Binder,
    names: RawNames,
    stack: &mut Stack,
    kind: Kind,
    span: Span,
) -> Result<Mode, Stop>
    requires { depth (frames stack.old) + binder.bound ≤ limit }
    ensures exact { Steps result stack.new (on (machine.in_group (binder_of binder) (map name_of names.items)) (frames stack.old)
        (kind_of kind) span) }
    ensures bounded { IfOk result (λ m. Bounded m stack.new) }
{
    match kind {
        Kind::Name(text) if stack.depth() + binder.bound + 1 < LIMIT => {
            let (binder, names) = named(binder, names, text, span)?;
            Ok(Mode::InGroup(binder, names))
        }
        Kind::Colon if !names.is_empty() => Ok(Mode::GroupSort(binder, names)),
        _ => Err(Stop::Refused),
    }
}

/// A token comes behind the `:` of a group.
fn group_sort(
    binder: Binder,
    names: RawNames,
    stack: &mut Stack,
    kind: Kind,
    span: Span,
) -> Result<Mode, Stop>
    requires { depth (frames stack.old) + binder.bound ≤ limit }
    ensures exact { Steps result stack.new (on (machine.group_sort (binder_of binder) (map name_of names.items)) (frames stack.old)
        (kind_of kind) span) }
    ensures bounded { IfOk result (λ m. Bounded m stack.new) }
{
    match kind {
        Kind::Name(text) => Ok(Mode::GroupEnd(with_group(binder, names, RawName { text, span })?)),
        _ => Err(Stop::Refused),
    }
}

/// A token comes behind the sort of a group.
fn group_end(binder: Binder, stack: &mut Stack, kind: Kind) -> Result<Mode, Stop>
    requires { depth (frames stack.old) + binder.bound ≤ limit }
    ensures exact { (span : Span) → Steps result stack.new
        (on (machine.group_end (binder_of binder)) (frames stack.old) (kind_of kind) span) }
    ensures bounded { IfOk result (λ m. Bounded m stack.new) }
{
    match kind {
        Kind::Closing => Ok(Mode::InGroups(binder)),
        _ => Err(Stop::Refused),
    }
}

/// A token comes behind whole groups.
fn in_groups(alloc: Global, binder: Binder, stack: &mut Stack, kind: Kind) -> Result<Mode, Stop>
    requires { depth (frames stack.old) + binder.bound ≤ limit }
    ensures exact { (span : Span) → Steps result stack.new
        (on (machine.in_groups (binder_of binder)) (frames stack.old) (kind_of kind) span) }
    ensures bounded { IfOk result (λ m. Bounded m stack.new) }
{
    match kind {
        Kind::Opening => open_group(alloc, binder, stack),
        Kind::Comma => govern(binder, stack),
        _ => Err(Stop::Refused),
    }
}
