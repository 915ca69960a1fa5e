//! Refinements, told.

use crate::formulas::expression;
use crate::told::Told;
use vern_parse::{RawExpr, RawName, RawTac};

/// A word, and an expression behind it.
fn with(told: &mut Told, word: &str, tree: &RawExpr) {
    told.put(word);
    expression(told, tree);
}

/// A word, and a name behind it.
fn named(told: &mut Told, word: &str, name: &RawName) {
    told.put(word);
    told.name(name);
}

pub fn tactic(told: &mut Told, tree: &RawTac) {
    match tree {
        RawTac::Intro(None) => told.put("intro"),
        RawTac::Intro(Some(name)) => named(told, "intro ", name),
        RawTac::Intros(names) => {
            told.put("intros");
            told.names(names);
        }
        RawTac::Exact(value) => with(told, "exact ", value),
        RawTac::Apply(value) => with(told, "apply ", value),
        RawTac::Exists(value) => with(told, "exists ", value),
        RawTac::DestructAnd(value, first, second) => {
            with(told, "destruct ", value);
            named(told, " and ", first);
            named(told, " ", second);
        }
        RawTac::DestructOr(value, first, second) => {
            with(told, "destruct ", value);
            named(told, " or ", first);
            named(told, " ", second);
        }
        RawTac::DestructFalse(value) => with(told, "destruct ", value),
        RawTac::Assert(name, value) => {
            named(told, "assert ", name);
            with(told, " ", value);
        }
        other => simple(told, other),
    }
}

fn simple(told: &mut Told, tree: &RawTac) {
    match tree {
        RawTac::Assumption => told.put("assumption"),
        RawTac::Split => told.put("split"),
        RawTac::Left => told.put("left"),
        RawTac::Right => told.put("right"),
        RawTac::Exfalso => told.put("exfalso"),
        RawTac::Reflexivity => told.put("reflexivity"),
        RawTac::Symmetry => told.put("symmetry"),
        RawTac::Clear(name) => named(told, "clear ", name),
        RawTac::Rewrite(value, true) => with(told, "rewrite back ", value),
        RawTac::Rewrite(value, false) => with(told, "rewrite ", value),
        RawTac::Unfold(name, place) => {
            named(told, "unfold ", name);
            if let Some(place) = place {
                named(told, " in ", place);
            }
        }
        _ => told.put("told elsewhere"),
    }
}
