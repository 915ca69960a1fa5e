//! Terms and formulas that values spell.
use base_core::NoMemory;
use sexp_core::Sexp;
use std::alloc::{AllocError, AllocFailed, Global};
use std::sync::{Arc, ArcSlice};
use term_core::{Formula, Name, Term, Terms};

/// Why a value gives nothing.
#[derive(Clone, Copy)]
pub enum Unread {
    /// It spells nothing of the kind that is read.
    Misspelled,
    /// Memory was wanting.
    NoMemory,
}

impl From<NoMemory> for Unread {
    fn from(_: NoMemory) -> Unread {
        Unread::NoMemory
    }
}

impl From<AllocError> for Unread {
    fn from(_: AllocError) -> Unread {
        Unread::NoMemory
    }
}

impl<T: Drop> From<AllocFailed<T>> for Unread {
    fn from(_: AllocFailed<T>) -> Unread {
        Unread::NoMemory
    }
}

/// What a list of a formula's parts is, by its first atom: `(and A B)`, `(or A B)`, `(imp A B)`, `(all T B)`, `(ex T B)`,
/// `(= T t u)`, and else a predicate with its arguments.
#[derive(Clone, Copy)]
enum Form {
    And,
    Or,
    Imp,
    All,
    Ex,
    Eq,
    Pred,
}

fn form_of(word: &[u8]) -> Form {
    match word {
        b"and" => Form::And,
        b"or" => Form::Or,
        b"imp" => Form::Imp,
        b"all" => Form::All,
        b"ex" => Form::Ex,
        b"=" => Form::Eq,
        _ => Form::Pred,
    }
}

/// The bytes of the atom at a place of a list.
pub fn word_at(parts: &[Sexp], i: usize) -> Result<&[u8], Unread> {
    match parts.get(i) {
        Some(Sexp::Atom(bytes)) => Ok(bytes.as_slice()),
        _ => Err(Unread::Misspelled),
    }
}

/// The name at a place of a list.
pub fn name_at(alloc: Global, parts: &[Sexp], i: usize) -> Result<Name, Unread> {
    let word = word_at(parts, i)?;
    Ok(Name::from_slice(alloc, word)?)
}

/// The number that a word spells.
pub fn number_of(word: &[u8]) -> Option<u64> {
    match str::from_utf8(word) {
        Ok(text) => text.parse::<u64>().ok(),
        Err(_) => None,
    }
}

/// A variable by its index, where an atom is a number, or else a constant.
fn atom_term(alloc: Global, word: &[u8]) -> Result<Term, Unread> {
    if let Some(index) = number_of(word) {
        return Ok(Term::Var(index));
    }
    let none = ArcSlice::from_vec(Vec::new(alloc))?;
    Ok(Term::App(Name::from_slice(alloc, word)?, none))
}

/// The term that a value spells: an atom, or a list of a function and its arguments.
#[cycle(term)]
pub fn term_of(value: &Sexp, alloc: Global) -> Result<Term, Unread> {
    match value {
        Sexp::Atom(bytes) => atom_term(alloc, bytes.as_slice()),
        Sexp::List(parts) => {
            let arguments = arguments_of(parts.as_slice(), alloc)?;
            Ok(Term::App(name_at(alloc, parts.as_slice(), 0)?, arguments))
        }
    }
}

/// The terms behind the first part.
#[cycle(term)]
fn arguments_of(parts: &[Sexp], alloc: Global) -> Result<Terms, Unread> {
    let mut terms = Vec::new(alloc);
    for i in 1..parts.len() {
        terms.push(term_of(&parts[i], alloc)?)?;
    }
    Ok(ArcSlice::from_vec(terms)?)
}

/// The term at a place of a list.
pub fn term_at(alloc: Global, parts: &[Sexp], i: usize) -> Result<Term, Unread> {
    match parts.get(i) {
        Some(value) => term_of(value, alloc),
        None => Err(Unread::Misspelled),
    }
}

fn share(alloc: Global, a: Formula) -> Result<Arc<Formula>, Unread> {
    Ok(Arc::new(alloc, a)?)
}

/// True, False, or a predicate without arguments.
fn atom_formula(alloc: Global, word: &[u8]) -> Result<Arc<Formula>, Unread> {
    match word {
        b"True" => share(alloc, Formula::True),
        b"False" => share(alloc, Formula::False),
        _ => {
            let none = ArcSlice::from_vec(Vec::new(alloc))?;
            share(alloc, Formula::Pred(Name::from_slice(alloc, word)?, none))
        }
    }
}

fn equation(alloc: Global, parts: &[Sexp]) -> Result<Arc<Formula>, Unread> {
    let t = term_at(alloc, parts, 2)?;
    let u = term_at(alloc, parts, 3)?;
    share(alloc, Formula::Eq(name_at(alloc, parts, 1)?, t, u))
}

fn predicate(alloc: Global, parts: &[Sexp]) -> Result<Arc<Formula>, Unread> {
    let arguments = arguments_of(parts, alloc)?;
    share(alloc, Formula::Pred(name_at(alloc, parts, 0)?, arguments))
}

fn quantifier(
    alloc: Global,
    parts: &[Sexp],
    form: Form,
    body: Arc<Formula>,
) -> Result<Arc<Formula>, Unread> {
    let sort = name_at(alloc, parts, 1)?;
    let name = Name::from_slice(alloc, b"x")?;
    match form {
        Form::All => share(alloc, Formula::All(sort, name, body)),
        _ => share(alloc, Formula::Ex(sort, name, body)),
    }
}

fn connective(
    alloc: Global,
    form: Form,
    a: Arc<Formula>,
    b: Arc<Formula>,
) -> Result<Arc<Formula>, Unread> {
    match form {
        Form::And => share(alloc, Formula::And(a, b)),
        Form::Or => share(alloc, Formula::Or(a, b)),
        _ => share(alloc, Formula::Imp(a, b)),
    }
}

/// The formula that a value spells.
#[cycle(formula)]
pub fn formula_of(value: &Sexp, alloc: Global) -> Result<Arc<Formula>, Unread> {
    match value {
        Sexp::Atom(bytes) => atom_formula(alloc, bytes.as_slice()),
        Sexp::List(parts) => list_formula(parts.as_slice(), alloc),
    }
}

#[cycle(formula)]
fn list_formula(parts: &[Sexp], alloc: Global) -> Result<Arc<Formula>, Unread> {
    let form = form_of(word_at(parts, 0)?);
    match form {
        Form::Pred => predicate(alloc, parts),
        Form::Eq => equation(alloc, parts),
        _ => {
            if parts.len() != 3 {
                return Err(Unread::Misspelled);
            }
            let body = formula_of(&parts[2], alloc)?;
            match form {
                Form::All | Form::Ex => quantifier(alloc, parts, form, body),
                _ => connective(alloc, form, formula_of(&parts[1], alloc)?, body),
            }
        }
    }
}

/// The formula at a place of a list.
pub fn formula_at(alloc: Global, parts: &[Sexp], i: usize) -> Result<Arc<Formula>, Unread> {
    match parts.get(i) {
        Some(value) => formula_of(value, alloc),
        None => Err(Unread::Misspelled),
    }
}
