//! Scopes as numbers of frames.
ghost use Rattle.std.specs.Prelude.{◌≡◌, ℕ, ◌+◌, ◌<◌, ◌≤◌, ◌^◌, length};
ghost use Rattle.term_core.specs.Term.{meaning, list_meaning};
ghost use Rattle.env_theory.specs.Normal.{argument};
ghost use Rattle.env_theory.specs.Machine.{leads, Holds, unders};
ghost use Rattle.conv_core.specs.Frames.{scope_of, Ordered, spot_of, Within};

use term_core::Term;

/// A body with its arguments, or a quantifier, and the number of the scope outside.
#[derive(Clone, Copy)]
pub enum Frame<'a> {
    Body(&'a [Term], usize),
    Under(usize),
}

/// Where a variable leads.
#[derive(Clone, Copy)]
pub enum Found<'a> {
    Free(u64),
    Argument(usize, u64, &'a Term),
}

/// The argument for a variable: the last is for the variable 0.
#[tactic(auto, using(env_core::proofs::Filling::argument_at))]
pub fn argument_of<'a>(ts: &'a [Term], index: u64) -> &'a Term
    requires { index < length ts.now }
    ensures { meaning result.now ≡ argument (list_meaning ts.now) index }
{
    &ts[ts.len() - 1 - index as usize]
}

/// Where a variable leads: out of all quantifiers, or to an argument.
pub fn follow<'a>(frames: &[Frame<'a>], mut scope: usize, mut by: u64, mut index: u64) -> Found<'a>
    requires ordered { Ordered frames.now }
    requires scope { scope ≤ length frames.now }
    requires holds { Holds (scope_of frames.now scope) index }
    requires room { by + unders (scope_of frames.now scope) < 2 ^ 64 }
    requires free { (j : ℕ) → leads (scope_of frames.now scope) by index ≡ Rattle.env_theory.specs.Machine.free j → j < 2 ^ 64 }
    ensures spot { spot_of frames.now result ≡ leads (scope_of frames.now scope) by index }
    ensures within { Within frames.now result }
{
    while scope > 0 {
        match frames[scope - 1] {
            Frame::Body(ts, outer) => {
                return Found::Argument(outer, by, argument_of(ts, index));
            }
            Frame::Under(outer) => {
                if index == 0 {
                    return Found::Free(by);
                }
                index -= 1;
                by += 1;
                scope = outer;
            }
        }
    }
    Found::Free(index + by)
}
