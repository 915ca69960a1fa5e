//! Whether the machine takes a token. Nothing is changed: heads that an operator or a `)` would pass are only
//! looked at.
ghost use Rattle.std.specs.Prelude.{◌≡◌, ◌+◌, ◌<◌, ◌≤◌, ◌∷◌, ℕ, List, MatchOption, false, length, map, true};
ghost use Rattle.vern_lex.specs.declared.span.Span.{Span};
ghost use Rattle.vern_grammar.specs.Trees.{Expression, Name};
ghost use Rattle.vern_grammar.specs.Levels.{limit};
ghost use Rattle.vern_grammar.specs.Machine as machine;
ghost use Rattle.vern_grammar.specs.Machine.{behind, close, depth, depth as opened, on, place};
ghost use Rattle.vern_parse.specs.Meaning.{binder as binder_of, frames, frames as meaning, kind as kind_of, mode as mode_of, name, operator};
ghost use Rattle.vern_parse.specs.Answers.{Bounded, is_taken, stacked, takes_first};
ghost use Rattle.vern_parse.specs.declared.frames.Frame.TheVariants.{Governor};

use crate::frames::{Binder, Frame, Head, Mode};
use crate::kind::Kind;
use crate::levels::{LIMIT, TILDE};
use crate::raw::{RawNames, RawOp};
use crate::stack::Stack;

/// Whether the next token may be of a kind.
pub fn takes(mode: &Mode, stack: &Stack, kind: &Kind) -> bool
    requires { Bounded mode.now stack.now }
    ensures { (span : Span) → is_taken (on (mode_of mode.now) (frames stack.now) (kind_of kind.now) span) ≡ result }
{
    match mode {
        Mode::Want => takes_operand(stack, kind),
        Mode::Applying(_, _, _) => takes_argument(stack, kind),
        Mode::After(_, _, _) => takes_behind(stack, kind),
        Mode::Ended(_) => false,
        Mode::InNames(binder, names) => takes_in_names(binder, names, stack, kind),
        Mode::InGroup(binder, names) => takes_in_group(binder, names, stack, kind),
        Mode::NamesSort(_, _) => matches!(kind, Kind::Name(_)),
        Mode::GroupSort(_, _) => matches!(kind, Kind::Name(_)),
        Mode::NamesEnd(_) => matches!(kind, Kind::Comma),
        Mode::GroupEnd(_) => matches!(kind, Kind::Closing),
        Mode::InGroups(binder) => match kind {
            Kind::Opening => stack.depth() + binder.bound + 1 < LIMIT,
            Kind::Comma => true,
            _ => false,
        },
    }
}

/// The same where an operand must begin, or `Set` or `Prop` may stand.
fn takes_operand(stack: &Stack, kind: &Kind) -> bool
    ensures { (span : Span) → is_taken (on machine.want (frames stack.now) (kind_of kind.now) span) ≡ result }
{
    match kind {
        Kind::Name(_) | Kind::Constant(_) => true,
        Kind::Opening | Kind::Quantifier(_) => stack.depth() < LIMIT,
        Kind::Tilde => stack.room() >= TILDE && stack.depth() < LIMIT,
        Kind::Set | Kind::Prop => stack.in_shape(),
        _ => false,
    }
}

/// The same behind a name with arguments, which takes further arguments.
fn takes_argument(stack: &Stack, kind: &Kind) -> bool
    ensures { (x : Name) (ys : List Expression) (to : ℕ) (span : Span)
        → is_taken (on (machine.applying x ys to) (frames stack.now) (kind_of kind.now) span) ≡ result }
{
    match kind {
        Kind::Name(_) => true,
        Kind::Opening => stack.depth() < LIMIT,
        Kind::Sign(_) => takes_behind(stack, kind),
        Kind::Closing => takes_behind(stack, kind),
        _ => false,
    }
}

/// The same behind an operand that takes no argument.
fn takes_behind(stack: &Stack, kind: &Kind) -> bool
    ensures { (v : Expression) (from to : ℕ) (span : Span) → is_taken (behind v from to (frames stack.now) (kind_of kind.now) span) ≡ result }
{
    match kind {
        Kind::Sign(op) => places(stack.frames(), stack.depth(), *op),
        Kind::Closing => closes(stack.frames()),
        _ => false,
    }
}

/// The same behind a quantifier's word and the names behind it.
fn takes_in_names(binder: &Binder, names: &RawNames, stack: &Stack, kind: &Kind) -> bool
    requires { depth (frames stack.now) + binder.now.bound ≤ limit }
    ensures { (span : Span) → is_taken (on (machine.in_names (binder_of binder.now) (map name names.now.items)) (frames stack.now)
        (kind_of kind.now) span) ≡ result }
{
    match kind {
        Kind::Name(_) => stack.depth() + binder.bound < LIMIT,
        Kind::Opening => names.is_empty() && stack.depth() + binder.bound + 1 < LIMIT,
        Kind::Colon => !names.is_empty(),
        _ => false,
    }
}

/// The same in a group, behind its names.
fn takes_in_group(binder: &Binder, names: &RawNames, stack: &Stack, kind: &Kind) -> bool
    requires { depth (frames stack.now) + binder.now.bound ≤ limit }
    ensures { (span : Span) → is_taken (on (machine.in_group (binder_of binder.now) (map name names.now.items)) (frames stack.now)
        (kind_of kind.now) span) ≡ result }
{
    match kind {
        Kind::Name(_) => stack.depth() + binder.bound + 1 < LIMIT,
        Kind::Colon => !names.is_empty(),
        _ => false,
    }
}

/// The newest head and the frames before it, where it takes the operand behind it before the operator could; `fits`
/// says whether the operator may have the operand on its left.
#[tactic(auto, using(crate::proofs::Stacks::laws))]
pub fn passed(frames: &[Frame], op: RawOp, fits: bool) -> Option<(&Head, &[Frame])>
    ensures { MatchOption result
        (takes_first (operator op) fits (meaning (stacked frames.now)) ≡ false)
        (λ p. (stacked frames.now ≡ Governor p.0.now ∷ stacked p.1.now)
        × (length p.1.now < length frames.now)
        × (takes_first (operator op) fits (meaning (stacked frames.now)) ≡ true)) }
{
    let (newest, before) = frames.split_last()?;
    match newest {
        Frame::Governor(head) if !(fits && op.level() <= head.room()) => Some((head, before)),
        _ => None,
    }
}

/// Whether an operator may come behind an operand, where so many openings are open.
#[tactic(auto, using(crate::proofs::Taken::operators))]
fn places(frames: &[Frame], depth: u64, op: RawOp) -> bool
    requires { depth ≡ opened (meaning (stacked frames.now)) }
    ensures { (v : Expression) (from to : ℕ) → is_taken (place (operator op) true v from to (meaning (stacked frames.now))) ≡ result }
{
    let mut before = frames;
    let mut depth = depth;
    let mut fits = true;
    'heads: while let Some((head, rest)) = passed(before, op, fits) {
        fits = head.level() <= op.left_at_most();
        depth -= head.openings();
        before = rest;
    }
    fits && depth < LIMIT
}

/// Whether a `)` may come behind an operand.
#[tactic(auto, using(crate::proofs::Stacks::laws, crate::proofs::Taken::closings))]
fn closes(frames: &[Frame]) -> bool
    ensures { (v : Expression) (to behind : ℕ) → is_taken (close v to behind (meaning (stacked frames.now))) ≡ result }
{
    let mut before = frames;
    'heads: while let Some((frame, rest)) = before.split_last() {
        match frame {
            Frame::Governor(_) => {
                before = rest;
            }
            Frame::Parenthesis(_) => {
                return true;
            }
            Frame::Argument(_, _) => {
                return true;
            }
            _ => {
                return false;
            }
        }
    }
    false
}
