//! Declarations.
ghost use Rattle.std.specs.Prelude.{◌≡◌};
ghost use Rattle.env_theory.specs.Declarations.{name_of};
ghost use Rattle.env_core.specs.Meaning.{declaration};

use term_core::{Formula, Name, Names, Term};

/// A parameter of a definition: the name that is printed for it, and its sort.
#[derive(Drop)]
pub struct Parameter {
    pub name: Name,
    pub sort: Name,
}

/// Parameters in the order in which they are written. In the body the last of them is the variable 0.
pub type Params = Vec<Parameter>;

/// A declaration: a sort; a function or a predicate with the sorts of its arguments; a formula that is stated; a
/// function that a term defines, or a predicate that a formula defines.
#[derive(Drop)]
pub enum Decl {
    Sort {
        name: Name,
    },
    Fun {
        name: Name,
        sorts: Names,
        result: Name,
    },
    Pred {
        name: Name,
        sorts: Names,
    },
    Stated {
        name: Name,
        formula: Formula,
    },
    DefFun {
        name: Name,
        params: Params,
        result: Name,
        body: Term,
    },
    DefPred {
        name: Name,
        params: Params,
        body: Formula,
    },
}

impl Decl {
    /// What it declares.
    pub fn name(&self) -> &Name
        ensures { result.now ≡ name_of (declaration self.now) }
    {
        match self {
            Decl::Sort { name } => name,
            Decl::Fun { name, .. } => name,
            Decl::Pred { name, .. } => name,
            Decl::Stated { name, .. } => name,
            Decl::DefFun { name, .. } => name,
            Decl::DefPred { name, .. } => name,
        }
    }
}
