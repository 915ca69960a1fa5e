//! What is kept of a declaration.
ghost use Rattle.std.specs.Prelude.{◌≡◌, List, Some, option_map, MatchOption};
ghost use Rattle.term_core.specs.Term.{meaning};
ghost use Rattle.env_theory.specs.Declarations.{Declaration};
ghost use Rattle.env_theory.specs.Machine.{term_body};
ghost use Rattle.env_core.specs.Meaning.{declaration};
ghost use Rattle.env_core.specs.Summaries.{Projects, TellsParameter, function_in, predicate_in};

use crate::declaration::Decl;
use crate::summary::Summary;
use term_core::Term;

/// A declaration with its summary.
#[derive(Drop)]
pub struct Entry {
    pub decl: Decl,
    pub summary: Summary,
}

/// A function's definition: its body, and where the body's normal form is a parameter, that one, as a variable of
/// the body.
#[derive(Clone, Copy)]
pub struct Definition<'a> {
    pub body: &'a Term,
    pub projects: Option<u64>,
}

impl Entry {
    /// The summary of a function's definition.
    pub fn function(&self) -> Option<&Summary>
        ensures { option_map (λ s. s.now) result ≡ function_in self.now.decl self.now.summary }
    {
        match &self.decl {
            Decl::DefFun { .. } => Some(&self.summary),
            _ => None,
        }
    }

    /// The summary of a predicate's definition.
    pub fn predicate(&self) -> Option<&Summary>
        ensures { option_map (λ s. s.now) result ≡ predicate_in self.now.decl self.now.summary }
    {
        match &self.decl {
            Decl::DefPred { .. } => Some(&self.summary),
            _ => None,
        }
    }

    /// A function's definition.
    pub fn definition(&self) -> Option<Definition<'_>>
        ensures body { option_map (λ d. meaning d.body.now) result ≡ term_body (Some (declaration self.now.decl)) }
        ensures parameter { MatchOption result (Unit {0}) (λ d. (E : List Declaration)
            → TellsParameter E (declaration self.now.decl) self.now.summary → Projects E (meaning d.body.now) d.projects) }
    {
        match &self.decl {
            Decl::DefFun { body, .. } => Some(Definition {
                body,
                projects: self.summary.projects,
            }),
            _ => None,
        }
    }
}
