//! Sentences, told.

use crate::formulas::{expression, shape};
use crate::tactics::tactic;
use crate::told::Told;
use vern_parse::{Closer, Raw};

fn closer(closer: Closer) -> &'static str {
    match closer {
        Closer::Qed => "close Qed",
        Closer::Defined => "close Defined",
        Closer::Admitted => "close Admitted",
        Closer::Abort => "close Abort",
    }
}

pub fn sentence(told: &mut Told, raw: &Raw) {
    match raw {
        Raw::Declare(name, tree) => {
            told.put("declare ");
            told.name(name);
            told.put(" ");
            shape(told, tree);
        }
        Raw::Define(name, groups, sort, body) => {
            told.put("define ");
            told.name(name);
            told.groups(groups);
            told.put(" : ");
            match sort {
                Some(sort) => told.name(sort),
                None => told.put("Prop"),
            }
            told.put(" := ");
            expression(told, body);
        }
        Raw::Begin(name, formula) => {
            told.put("begin ");
            told.name(name);
            told.put(" ");
            expression(told, formula);
        }
        Raw::ProofWord => told.put("proof"),
        Raw::Refinement(tree) => tactic(told, tree),
        Raw::Bullet(byte, count) => {
            told.put("bullet ");
            told.byte(*byte);
            told.put(" ");
            told.number(*count);
        }
        Raw::BraceIn => told.put("brace in"),
        Raw::BraceOut => told.put("brace out"),
        Raw::Close(word) => told.put(closer(*word)),
    }
}
