//! A row, and its answer.
ghost use Rattle.std.specs.Prelude.{All, IfOk, ◌≡◌};
ghost use Rattle.vern_lex.specs.Tokens.{IsTokenOf, tokens_of};

use crate::told::Told;
use crate::{formulas, sentences};
use base_core::NoMemory;
use std::alloc::Global;
use vern_lex::{Tokens, tokens, tokens_are_slices};
use vern_parse::{ParseFault, expression, parse, shape};

/// The tree of a row's text, or its fault.
pub fn answer(alloc: Global, row: &str) -> Result<String, NoMemory> {
    let (kind, text) = row.split_once('\t').unwrap_or((row, ""));
    let text = text_of(alloc, text)?;
    let mut told = Told::new(alloc);
    let fault = match read(alloc, kind, text.as_bytes(), &mut told) {
        Ok(()) => return told.end(),
        Err(fault) => fault,
    };
    match fault {
        ParseFault::NoMemory => Err(NoMemory),
        ParseFault::At(offset) => {
            told.put("at ");
            told.number(offset);
            told.end()
        }
    }
}

/// The text of a row: one field, or what stands in front, how often a piece comes, the piece, what stands behind, and
/// what closes each piece.
fn text_of(alloc: Global, fields: &str) -> Result<String, NoMemory> {
    let (front, fields) = fields.split_once('\t').unwrap_or((fields, ""));
    let (count, fields) = fields.split_once('\t').unwrap_or((fields, ""));
    let (piece, fields) = fields.split_once('\t').unwrap_or((fields, ""));
    let (behind, end) = fields.split_once('\t').unwrap_or((fields, ""));
    let count = count.parse::<u32>().unwrap_or(0);
    let mut text = String::from_str(alloc, front)?;
    repeat(&mut text, piece, count)?;
    text.push_str(behind)?;
    repeat(&mut text, end, count)?;
    Ok(text)
}

fn repeat(text: &mut String, piece: &str, count: u32) -> Result<(), NoMemory> {
    for _ in 0..count {
        text.push_str(piece)?;
    }
    Ok(())
}

/// The tokens of a text, each of which is a slice of it.
fn tokens_in(alloc: Global, text: &[u8]) -> Result<Tokens, NoMemory>
    ensures slices { IfOk result (λ found. All (IsTokenOf text.now) found) }
    ensures all { IfOk result (λ found. found ≡ tokens_of text.now) }
{
    tokens_are_slices();
    tokens(alloc, text)
}

/// Reads a text as what its row says, and tells its tree.
fn read(alloc: Global, kind: &str, text: &[u8], told: &mut Told) -> Result<(), ParseFault> {
    let found = tokens_in(alloc, text)?;
    if kind == "sentence" {
        sentences::sentence(told, &parse(alloc, &found, text)?);
    } else if kind == "shape" {
        formulas::shape(told, &shape(alloc, found.as_slice(), text)?);
    } else if kind == "expression" {
        formulas::expression(told, &expression(alloc, found.as_slice(), text)?);
    } else {
        let _tree = expression(alloc, found.as_slice(), text)?;
        told.put("read");
    }
    Ok(())
}
