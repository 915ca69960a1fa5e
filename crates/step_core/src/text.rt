//! The text of a declaration.
ghost use Rattle.std.specs.Prelude.{◌≡◌, ◌++◌, [], codes, map, IfOk, OnOk};
ghost use Rattle.std.specs.List.{list_any};
ghost use Rattle.fol_theory.specs.Syntax.{is_name};
ghost use Rattle.term_core.specs.Formula.{meaning};
ghost use Rattle.term_core.specs.Term.{meaning as term_meaning};
ghost use Rattle.env_core.specs.Meaning.{declaration, declarations, parameter};
ghost use Rattle.print_theory.specs.Spelling.{formula_text, term_text};
ghost use Rattle.step_theory.specs.Texts.{arrows, declaration_text, declared_names, names_back, parameters_text};

use crate::verdict::put;
use base_core::{Bytes, NoMemory};
use env_core::{Decl, Env, Parameter};
use std::alloc::Global;
use term_core::{Formula, Name, Names, Taken, Term};
use term_print::{show_term, show_with};

/// The declared names of an environment, found by its index.
#[derive(Clone, Copy)]
struct Declared<'a> {
    env: &'a Env,
}

impl<'a> Taken for Declared<'a> {
    ghost use Rattle.env_core.specs.Meaning.{declarations};
    ghost use Rattle.step_theory.specs.Texts.{declared_names};

    ghost taken = { λ s. declared_names (declarations s.env.now) };

    #[tactic(auto, using(crate::proofs::Named::finding))]
    fn is_taken(&self, name: &Name) -> bool
        ensures { result ≡ list_any (is_name name.now) (declared_names (declarations self.now.env.now)) }
    {
        self.env.find(name).is_some()
    }
}

/// The text of a declaration, as answers have it: its name, and behind a colon what it is. No bound name in it is one
/// that the environment declares; the rules are docs/LANGUAGE.md's, "Texts of declarations".
pub fn decl_text(alloc: Global, env: &Env, decl: &Decl) -> Result<Bytes, NoMemory>
    ensures { IfOk result (λ text. text ≡ declaration_text (declared_names (declarations env.now)) (declaration decl.now)) }
{
    let mut text = Vec::new(alloc);
    match decl {
        Decl::Sort { name } => put_sort(&mut text, name)?,
        Decl::Fun {
            name,
            sorts,
            result,
        } => put_typed(&mut text, name, sorts, result.as_slice())?,
        Decl::Pred { name, sorts } => put_typed(&mut text, name, sorts, b"Prop")?,
        Decl::Stated { name, formula } => put_stated(alloc, &mut text, env, name, formula)?,
        Decl::DefFun {
            name,
            params,
            result,
            body,
        } => put_function(alloc, &mut text, name, params, result, body)?,
        Decl::DefPred { name, params, body } => {
            put_predicate(alloc, &mut text, env, name, params, body)?
        }
    }
    Ok(Bytes::from_vec(text))
}

/// A sort.
fn put_sort(text: &mut Vec<u8>, name: &Name) -> Result<(), NoMemory>
    ensures { OnOk result (text.new.items ≡ text.old.items ++ (name.now ++ codes " : Set")) }
{
    put(text, name.as_slice())?;
    put(text, b" : Set")
}

/// A function or a predicate: the sorts of its arguments, and behind them what it gives.
fn put_typed(text: &mut Vec<u8>, name: &Name, sorts: &Names, last: &[u8]) -> Result<(), NoMemory>
    ensures { OnOk result (text.new.items ≡ text.old.items ++ (name.now ++ (codes " : " ++ (arrows sorts.now.items ++ last.now)))) }
{
    put(text, name.as_slice())?;
    put(text, b" : ")?;
    put_arrows(text, sorts.as_slice())?;
    put(text, last)
}

/// Sorts, each with an arrow behind it.
fn put_arrows(text: &mut Vec<u8>, sorts: &[Name]) -> Result<(), NoMemory>
    ensures { OnOk result (text.new.items ≡ text.old.items ++ arrows sorts.now) }
{
    for sort in sorts {
        put(text, sort.as_slice())?;
        put(text, b" -> ")?;
    }
    Ok(())
}

/// A formula that is stated.
fn put_stated(
    alloc: Global,
    text: &mut Vec<u8>,
    env: &Env,
    name: &Name,
    formula: &Formula,
) -> Result<(), NoMemory>
    ensures { OnOk result (text.new.items ≡ text.old.items
        ++ (name.now ++ (codes " : " ++ formula_text [] (declared_names (declarations env.now)) (meaning formula.now)))) }
{
    put(text, name.as_slice())?;
    put(text, b" : ")?;
    put_formula(text, env, &Names::new(alloc), formula)
}

/// A function that is defined.
fn put_function(
    alloc: Global,
    text: &mut Vec<u8>,
    name: &Name,
    params: &[Parameter],
    sort: &Name,
    body: &Term,
) -> Result<(), NoMemory>
    ensures { OnOk result (text.new.items ≡ text.old.items ++ (name.now ++ (parameters_text (map parameter params.now)
        ++ (codes " : " ++ (sort.now ++ (codes " := " ++ term_text (names_back (map parameter params.now)) (term_meaning body.now))))))) }
{
    put(text, name.as_slice())?;
    put_parameters(text, params)?;
    put(text, b" : ")?;
    put(text, sort.as_slice())?;
    put(text, b" := ")?;
    let names = names_back(alloc, params)?;
    let shown = show_term(body, &names, &Names::new(alloc))?;
    put(text, shown.as_slice())
}

/// A predicate that is defined.
fn put_predicate(
    alloc: Global,
    text: &mut Vec<u8>,
    env: &Env,
    name: &Name,
    params: &[Parameter],
    body: &Formula,
) -> Result<(), NoMemory>
    ensures { OnOk result (text.new.items ≡ text.old.items ++ (name.now ++ (parameters_text (map parameter params.now)
        ++ (codes " : Prop := " ++ formula_text (names_back (map parameter params.now)) (declared_names (declarations env.now))
        (meaning body.now))))) }
{
    put(text, name.as_slice())?;
    put_parameters(text, params)?;
    put(text, b" : Prop := ")?;
    put_formula(text, env, &names_back(alloc, params)?, body)
}

/// Parameters, each in parentheses with a blank before it.
fn put_parameters(text: &mut Vec<u8>, params: &[Parameter]) -> Result<(), NoMemory>
    ensures { OnOk result (text.new.items ≡ text.old.items ++ parameters_text (map parameter params.now)) }
{
    for p in params {
        put(text, b" (")?;
        put(text, p.name.as_slice())?;
        put(text, b" : ")?;
        put(text, p.sort.as_slice())?;
        put(text, b")")?;
    }
    Ok(())
}

/// The names of parameters, the newest first.
fn names_back(alloc: Global, params: &[Parameter]) -> Result<Names, NoMemory>
    ensures { IfOk result (λ names. names.items ≡ names_back (map parameter params.now)) }
{
    let mut names = Names::new(alloc);
    for p in params {
        names.push(p.name.copy()?)?;
    }
    names.reverse();
    Ok(names)
}

/// A formula, in which no bound name is declared.
fn put_formula(
    text: &mut Vec<u8>,
    env: &Env,
    names: &Names,
    formula: &Formula,
) -> Result<(), NoMemory>
    ensures { OnOk result (text.new.items ≡ text.old.items
        ++ formula_text names.now.items (declared_names (declarations env.now)) (meaning formula.now)) }
{
    let shown = show_with(formula, names, &Declared { env })?;
    put(text, shown.as_slice())
}
