//! Expressions and shapes, told.

use crate::told::Told;
use vern_parse::{RawExpr, RawOp, Shape, Span};

fn sign(op: RawOp) -> &'static str {
    match op {
        RawOp::Imp => " -> ",
        RawOp::Iff => " <-> ",
        RawOp::Or => " \\/ ",
        RawOp::And => " /\\ ",
        RawOp::Eq => " = ",
        RawOp::Ne => " <> ",
    }
}

/// Each name has its span behind it, and each other tree stands in parentheses: `(a[0-1] -> b[5-6])[0-6]`.
pub fn expression(told: &mut Told, tree: &RawExpr) {
    let span = match tree {
        RawExpr::True(span) => return word(told, "True", *span),
        RawExpr::False(span) => return word(told, "False", *span),
        RawExpr::App(name, arguments, span) => {
            if arguments.is_empty() && *span == name.span {
                return told.name(name);
            }
            told.put("(");
            told.name(name);
            for argument in arguments {
                told.put(" ");
                expression(told, argument);
            }
            *span
        }
        RawExpr::Binary(op, left, right, span) => {
            told.put("(");
            expression(told, left);
            told.put(sign(*op));
            expression(told, right);
            *span
        }
        RawExpr::Not(operand, span) => {
            told.put("(~ ");
            expression(told, operand);
            *span
        }
        RawExpr::Quant(all, groups, body, span) => {
            told.put(if *all { "(forall" } else { "(exists" });
            told.groups(groups);
            told.put(" ");
            expression(told, body);
            *span
        }
    };
    word(told, ")", span);
}

fn word(told: &mut Told, piece: &str, span: Span) {
    told.put(piece);
    told.span(span);
}

/// An arrow of the shape itself is written `=>`.
pub fn shape(told: &mut Told, tree: &Shape) {
    match tree {
        Shape::Set(span) => word(told, "Set", *span),
        Shape::Prop(span) => word(told, "Prop", *span),
        Shape::Arrow(operand, rest) => {
            expression(told, operand);
            told.put(" => ");
            shape(told, rest);
        }
        Shape::Plain(tree) => expression(told, tree),
    }
}
