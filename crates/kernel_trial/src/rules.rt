//! Rules that values spell, as the table of rules writes them: `(AndI A B)`, `(Hyp 0)`, `(EqE T B t u)`.
use crate::spell::{Unread, formula_at, name_at, number_of, term_at, word_at};
use base_core::NoMemory;
use proof_tree::Rule;
use sexp_core::Sexp;
use std::alloc::Global;
use term_core::{Formula, Name, Term};

/// What a rule is, by its first atom and by what it names.
#[derive(Clone, Copy)]
enum Kind {
    Leaf,
    Stated,
    Plain(Plain),
    Numbered(Numbered),
    One(One),
    Two(Two),
    Bound(Bound),
    Instance(Instance),
    EqI,
    EqE,
}

#[derive(Clone, Copy)]
enum Plain {
    TrueI,
    FalseE,
}

#[derive(Clone, Copy)]
enum Numbered {
    Hyp,
    Drop,
}

#[derive(Clone, Copy)]
enum One {
    ImpE,
    Cut,
    Conv,
}

#[derive(Clone, Copy)]
enum Two {
    AndI,
    AndE,
    OrI1,
    OrI2,
    OrE,
    ImpI,
}

#[derive(Clone, Copy)]
enum Bound {
    AllI,
    ExE,
}

#[derive(Clone, Copy)]
enum Instance {
    AllE,
    ExI,
}

fn kind_of(word: &[u8]) -> Option<Kind> {
    match word {
        b"Leaf" => Some(Kind::Leaf),
        b"Hyp" => Some(Kind::Numbered(Numbered::Hyp)),
        b"Stated" => Some(Kind::Stated),
        b"TrueI" => Some(Kind::Plain(Plain::TrueI)),
        b"FalseE" => Some(Kind::Plain(Plain::FalseE)),
        b"AndI" => Some(Kind::Two(Two::AndI)),
        b"AndE" => Some(Kind::Two(Two::AndE)),
        b"OrI1" => Some(Kind::Two(Two::OrI1)),
        b"OrI2" => Some(Kind::Two(Two::OrI2)),
        b"OrE" => Some(Kind::Two(Two::OrE)),
        b"ImpI" => Some(Kind::Two(Two::ImpI)),
        b"ImpE" => Some(Kind::One(One::ImpE)),
        b"AllI" => Some(Kind::Bound(Bound::AllI)),
        b"AllE" => Some(Kind::Instance(Instance::AllE)),
        b"ExI" => Some(Kind::Instance(Instance::ExI)),
        b"ExE" => Some(Kind::Bound(Bound::ExE)),
        b"EqI" => Some(Kind::EqI),
        b"EqE" => Some(Kind::EqE),
        b"Cut" => Some(Kind::One(One::Cut)),
        b"Drop" => Some(Kind::Numbered(Numbered::Drop)),
        b"Conv" => Some(Kind::One(One::Conv)),
        _ => None,
    }
}

/// Puts the rule that a value spells behind the others.
pub fn push_rule(rules: &mut Vec<Rule>, alloc: Global, value: &Sexp) -> Result<(), Unread> {
    let Sexp::List(parts) = value else {
        return Err(Unread::Misspelled);
    };
    let parts = parts.as_slice();
    match kind_of(word_at(parts, 0)?) {
        None => Err(Unread::Misspelled),
        Some(Kind::Leaf) => push_leaf(rules, alloc),
        Some(Kind::Stated) => push_stated(rules, name_at(alloc, parts, 1)?),
        Some(Kind::Plain(kind)) => push_plain(rules, kind),
        Some(Kind::Numbered(kind)) => push_numbered(rules, kind, word_at(parts, 1)?),
        Some(Kind::One(kind)) => {
            let a = formula_at(alloc, parts, 1)?;
            push_one(rules, kind, &a)
        }
        Some(Kind::Two(kind)) => {
            let a = formula_at(alloc, parts, 1)?;
            let b = formula_at(alloc, parts, 2)?;
            push_two(rules, kind, &a, &b)
        }
        Some(Kind::Bound(kind)) => {
            let body = formula_at(alloc, parts, 2)?;
            push_bound(rules, kind, name_at(alloc, parts, 1)?, &body)
        }
        Some(Kind::Instance(kind)) => push_instance_at(rules, alloc, kind, parts),
        Some(Kind::EqI) => {
            let t = term_at(alloc, parts, 2)?;
            push_reflexive(rules, name_at(alloc, parts, 1)?, t)
        }
        Some(Kind::EqE) => push_equation_at(rules, alloc, parts),
    }
}

fn push_leaf(rules: &mut Vec<Rule>, alloc: Global) -> Result<(), Unread> {
    rules.push(Rule::Leaf(Vec::new(alloc)))?;
    Ok(())
}

fn push_stated(rules: &mut Vec<Rule>, name: Name) -> Result<(), Unread> {
    rules.push(Rule::Stated(name))?;
    Ok(())
}

fn push_plain(rules: &mut Vec<Rule>, kind: Plain) -> Result<(), Unread> {
    rules.push(match kind {
        Plain::TrueI => Rule::TrueI,
        Plain::FalseE => Rule::FalseE,
    })?;
    Ok(())
}

fn push_numbered(rules: &mut Vec<Rule>, kind: Numbered, word: &[u8]) -> Result<(), Unread> {
    let Some(number) = number_of(word) else {
        return Err(Unread::Misspelled);
    };
    rules.push(match kind {
        Numbered::Hyp => Rule::Hyp(number),
        Numbered::Drop => Rule::Drop(number),
    })?;
    Ok(())
}

fn push_one(rules: &mut Vec<Rule>, kind: One, a: &Formula) -> Result<(), Unread> {
    rules.push(of_one(kind, a.copy()?))?;
    Ok(())
}

fn of_one(kind: One, a: Formula) -> Rule {
    match kind {
        One::ImpE => Rule::ImpE(a),
        One::Cut => Rule::Cut(a),
        One::Conv => Rule::Conv(a),
    }
}

fn push_two(rules: &mut Vec<Rule>, kind: Two, a: &Formula, b: &Formula) -> Result<(), Unread> {
    let a = a.copy()?;
    rules.push(of_two(kind, a, b.copy()?))?;
    Ok(())
}

fn of_two(kind: Two, a: Formula, b: Formula) -> Rule {
    match kind {
        Two::AndI => Rule::AndI(a, b),
        Two::AndE => Rule::AndE(a, b),
        Two::OrI1 => Rule::OrI1(a, b),
        Two::OrI2 => Rule::OrI2(a, b),
        Two::OrE => Rule::OrE(a, b),
        Two::ImpI => Rule::ImpI(a, b),
    }
}

fn push_bound(
    rules: &mut Vec<Rule>,
    kind: Bound,
    sort: Name,
    body: &Formula,
) -> Result<(), Unread> {
    rules.push(binding(kind, sort, body.copy()?))?;
    Ok(())
}

fn binding(kind: Bound, sort: Name, body: Formula) -> Rule {
    match kind {
        Bound::AllI => Rule::AllI(sort, body),
        Bound::ExE => Rule::ExE(sort, body),
    }
}

fn push_instance_at(
    rules: &mut Vec<Rule>,
    alloc: Global,
    kind: Instance,
    parts: &[Sexp],
) -> Result<(), Unread> {
    let body = formula_at(alloc, parts, 2)?;
    let t = term_at(alloc, parts, 3)?;
    push_instance(rules, kind, name_at(alloc, parts, 1)?, &body, t)
}

fn push_instance(
    rules: &mut Vec<Rule>,
    kind: Instance,
    sort: Name,
    body: &Formula,
    t: Term,
) -> Result<(), Unread> {
    rules.push(at_term(kind, sort, body.copy()?, t))?;
    Ok(())
}

fn at_term(kind: Instance, sort: Name, body: Formula, t: Term) -> Rule {
    match kind {
        Instance::AllE => Rule::AllE(sort, body, t),
        Instance::ExI => Rule::ExI(sort, body, t),
    }
}

fn push_reflexive(rules: &mut Vec<Rule>, sort: Name, t: Term) -> Result<(), Unread> {
    rules.push(Rule::EqI(sort, t))?;
    Ok(())
}

fn push_equation_at(rules: &mut Vec<Rule>, alloc: Global, parts: &[Sexp]) -> Result<(), Unread> {
    let body = formula_at(alloc, parts, 2)?;
    let t = term_at(alloc, parts, 3)?;
    let u = term_at(alloc, parts, 4)?;
    let sort = name_at(alloc, parts, 1)?;
    rules.push(Rule::EqE(sort, body.copy()?, t, u))?;
    Ok(())
}
