//! Rules.
use term_core::{Formula, Name, Names, Term};

/// A rule of the kernel with what it names, or an open leaf. Hypotheses are told by their number, counted from the
/// oldest, from 0. A `Leaf` has the names of all entries of its place's context, from the oldest on. What a rule asks,
/// and the sequents that it leads to, are logic_theory's `Asks` and `children`.
#[derive(Drop)]
pub enum Rule {
    Leaf(Names),
    Hyp(u64),
    Stated(Name),
    TrueI,
    FalseE,
    AndI(Formula, Formula),
    AndE(Formula, Formula),
    OrI1(Formula, Formula),
    OrI2(Formula, Formula),
    OrE(Formula, Formula),
    ImpI(Formula, Formula),
    ImpE(Formula),
    AllI(Name, Formula),
    AllE(Name, Formula, Term),
    ExI(Name, Formula, Term),
    ExE(Name, Formula),
    EqI(Name, Term),
    EqE(Name, Formula, Term, Term),
    Cut(Formula),
    Drop(u64),
    Conv(Formula),
}
