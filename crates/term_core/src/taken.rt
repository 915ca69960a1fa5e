//! Names that are taken.
ghost use Rattle.std.specs.Prelude.{◌≡◌, ℕ, List};
ghost use Rattle.std.specs.List.{list_any};
ghost use Rattle.fol_theory.specs.Syntax.{is_name};

use crate::{Name, Names};

/// Names that nothing new may have: told by a list, or by an index that finds one of them without going through all.
pub trait Taken {
    /// The names, in any order.
    ghost taken: { Self → List (List ℕ) };

    /// Whether a name is one of them.
    fn is_taken(&self, name: &Name) -> bool
        ensures { result ≡ list_any (is_name name.now) (taken self.now) };
}

/// A list is gone through from its front.
impl Taken for Names {
    ghost taken = { λ s. s.items };

    fn is_taken(&self, name: &Name) -> bool
        ensures { result ≡ list_any (is_name name.now) self.now.items }
    {
        self.iter().any(|other| other == name)
    }
}
