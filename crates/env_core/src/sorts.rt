//! The sorts of arguments.
ghost use Rattle.std.specs.Prelude.{◌≡◌, ◌<◌, [], length, get_or};
ghost use Rattle.env_core.specs.Sorts.{sorts_as};

use crate::declaration::Parameter;
use term_core::Name;

/// The sorts of the arguments that a name takes: of what is declared alone a list of names, of a definition those of
/// its parameters.
#[derive(Clone, Copy)]
pub enum Sorts<'a> {
    Names(&'a [Name]),
    Params(&'a [Parameter]),
}

impl<'a> Sorts<'a> {
    /// How many there are.
    #[tactic(auto, using(crate::proofs::Sorted::counting))]
    pub fn len(self) -> usize
        ensures { result ≡ length (sorts_as self.entry) }
    {
        match self {
            Sorts::Names(names) => names.len(),
            Sorts::Params(params) => params.len(),
        }
    }

    /// The sort at a place, counted from 0.
    #[tactic(auto, using(crate::proofs::Sorted::counting))]
    pub fn at(self, i: usize) -> &'a Name
        requires { i < length (sorts_as self) }
        ensures { result.now ≡ get_or (sorts_as self.entry) i [] }
    {
        match self {
            Sorts::Names(names) => &names[i],
            Sorts::Params(params) => &params[i].sort,
        }
    }
}
