//! Heads of normal forms.
ghost use Rattle.std.specs.Prelude.{◌≡◌, ℕ, IfOk};
ghost use Rattle.term_core.specs.Term.{meaning};
ghost use Rattle.env_theory.specs.Typing.{Environment};
ghost use Rattle.env_core.specs.Meaning.{declarations};
ghost use Rattle.conv_core.specs.Frames.{scope_of, Ordered, Extends};
ghost use Rattle.conv_core.specs.Heads.{Standing, Headed};

use crate::frame::{Found, Frame, argument_of, follow};
use base_core::NoMemory;
use env_core::Env;
use term_core::{Name, Term};

/// What a normal form begins with: a variable, or a function, whose arguments are read in a scope, under so many
/// quantifiers more.
#[derive(Clone, Copy)]
pub enum Head<'a> {
    Variable(u64),
    Function(&'a Name, &'a [Term], usize, u64),
}

/// The head of the normal form of a term in a scope. A definition whose normal form is a parameter is read as that
/// argument, so that a chain of heads comes to each definition once.
pub fn head_of<'a>(
    env: &'a Env,
    frames: &mut Vec<Frame<'a>>,
    mut scope: usize,
    mut by: u64,
    term: &'a Term,
) -> Result<Head<'a>, NoMemory>
    requires environment { Environment (declarations env.now) }
    requires standing { Standing (declarations env.now) frames.old.items scope by (meaning term.now) }
    ensures ordered { Ordered frames.new.items }
    ensures extends { Extends frames.old.items frames.new.items }
    ensures head { IfOk result (λ h. Headed (declarations env.now) frames.new.items (scope_of frames.old.items scope) by
        (meaning term.now) h) }
{
    let mut t = term;
    loop {
        match t {
            Term::Var(i) => match follow(frames.as_slice(), scope, by, *i) {
                Found::Free(j) => return Ok(Head::Variable(j)),
                Found::Argument(outer, binders, u) => {
                    scope = outer;
                    by = binders;
                    t = u;
                }
            },
            Term::App(f, ts) => match env.definition(f) {
                None => return Ok(Head::Function(f, ts.as_slice(), scope, by)),
                Some(definition) => match definition.projects {
                    Some(i) => t = argument_of(ts.as_slice(), i),
                    None => {
                        frames.push(Frame::Body(ts.as_slice(), scope))?;
                        scope = frames.len();
                        t = definition.body;
                    }
                },
            },
        }
    }
}
