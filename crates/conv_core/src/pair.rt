//! What is still to be compared.
use term_core::{Formula, Term};

/// Two terms, each in a scope, under so many quantifiers more.
#[derive(Clone, Copy)]
pub struct TermPair<'a> {
    pub first_scope: usize,
    pub first_by: u64,
    pub first: &'a Term,
    pub second_scope: usize,
    pub second_by: u64,
    pub second: &'a Term,
}

/// Two formulas, each in a scope.
#[derive(Clone, Copy)]
pub struct FormulaPair<'a> {
    pub first_scope: usize,
    pub first: &'a Formula,
    pub second_scope: usize,
    pub second: &'a Formula,
}

/// What is still to be compared: two terms or two formulas.
#[derive(Clone, Copy)]
pub enum Pair<'a> {
    Terms(TermPair<'a>),
    Formulas(FormulaPair<'a>),
}
