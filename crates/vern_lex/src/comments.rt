//! Blanks and comments.
ghost use Rattle.std.specs.Prelude.{◌≡◌, ◌+◌, ◌-◌, ◌<◌, ◌≤◌, ◌^◌, length, drop, slice_index, if◌then◌else◌, IfOk, Option, Some, None};
ghost use Rattle.std.specs.Prelude.{MatchOption};
ghost use Rattle.vern_lex.specs.Closers.{IsTable};
ghost use Rattle.vern_lex.specs.Comments.{behind, begins, comment_length, first_place, closes_comment, is_blank, opens_comment, outside};

use base_core::NoMemory;
use std::alloc::Global;

/// How many blanks and bytes of whole comments a text begins with. Where a table of its ends' closers is at
/// hand, no comment is looked through that doesn't end.
pub fn gap_length(text: &[u8], table: Option<&[usize]>) -> usize
    requires { MatchOption table (Unit {0}) (λ t. IsTable text.now t.now) }
    ensures value { result ≡ first_place begins (outside text.now) }
    ensures within { result ≤ length text.now }
{
    let mut at = 0;
    'gap: loop {
        let (_, rest) = text.split_at(at);
        let passed = passed_length(rest, table);
        if passed == 0 {
            return at;
        }
        at += passed;
    }
}

/// The length of the blank or the whole comment that a text begins with, or 0.
fn passed_length(text: &[u8], table: Option<&[usize]>) -> usize
    requires { MatchOption table (Unit {0}) (λ t. IsTable text.now t.now) }
    ensures within { result ≤ length text.now }
    ensures place { first_place begins (outside text.now) ≡ result + first_place begins (outside (drop result text.now)) }
    ensures begun { result ≡ 0 → first_place begins (outside text.now) ≡ 0 }
{
    match text {
        [first, ..] if is_blank(*first) => 1,
        _ => known_comment_length(text, table),
    }
}

/// The length of the comment that a text begins with, or 0, as `comment_length` answers it.
fn known_comment_length(text: &[u8], table: Option<&[usize]>) -> usize
    requires { MatchOption table (Unit {0}) (λ t. IsTable text.now t.now) }
    ensures value { result ≡ comment_length text.now }
    ensures within { result ≤ length text.now }
{
    match table {
        Some(closers) if opens_comment(text) && closers_inside(text, closers) == 0 => 0,
        _ => comment_length(text),
    }
}

/// How many comments are closed behind the first two bytes of a text, by its table.
fn closers_inside(text: &[u8], table: &[usize]) -> usize
    ensures { result ≡ slice_index table.now (length text.now - 2) }
{
    table
        .get(text.len().saturating_sub(2))
        .copied()
        .unwrap_or(0)
}

/// The table that is kept, if one is.
pub fn table_of(kept: &Option<Vec<usize>>) -> Option<&[usize]>
    ensures { MatchOption result (kept.now ≡ None) (λ table. MatchOption kept.now ⊥ (λ k. table.now ≡ k.items)) }
{
    match kept {
        Some(table) => Some(table.as_slice()),
        None => None,
    }
}

/// The closers of each end of a text, the shortest end first. It goes over the text once.
pub fn closers_table(alloc: Global, text: &[u8]) -> Result<Vec<usize>, NoMemory>
    ensures { IfOk result (λ table. IsTable text.now table.items) }
{
    let mut table = Vec::new(alloc);
    table.push(0)?;
    let mut place = text.len();
    let mut next = 0;
    let mut second = 0;
    'ends: while place > 0 {
        place -= 1;
        let here = closers_here(text.split_at(place).1, next, second);
        table.push(here)?;
        second = next;
        next = here;
    }
    Ok(table)
}

/// The closers of a text, from those behind its first byte and behind its second.
fn closers_here(text: &[u8], next: usize, second: usize) -> usize
    requires { second < 2 ^ 63 }
    ensures { result ≡ (if opens_comment text.now then second - 1 else (if closes_comment text.now then second + 1 else next)) }
{
    if opens_comment(text) {
        second.saturating_sub(1)
    } else if closes_comment(text) {
        second + 1
    } else {
        next
    }
}

/// The length of the comment that a text begins with, or 0 where it begins with none that ends.
pub fn comment_length(text: &[u8]) -> usize
    ensures value { result ≡ comment_length text.now }
    ensures within { result ≤ length text.now }
{
    match text {
        [b'(', b'*', inside @ ..] => match behind_comment(inside) {
            Some(rest) => text.len() - rest.len(),
            None => 0,
        },
        _ => 0,
    }
}

/// What stands behind a comment, of a text that begins inside of it.
fn behind_comment(text: &[u8]) -> Option<&[u8]>
    ensures value { MatchOption result (behind 1 text.now ≡ None) (λ rest. behind 1 text.now ≡ Some rest.now) }
    ensures within { MatchOption result (Unit {0}) (λ rest. length rest.now ≤ length text.now) }
{
    let mut depth: usize = 1;
    let mut rest = text;
    'bytes: while depth > 0 {
        if opens_comment(rest) {
            depth += 1;
            rest = rest.split_at(2).1;
        } else if closes_comment(rest) {
            depth -= 1;
            rest = rest.split_at(2).1;
        } else if rest.is_empty() {
            return None;
        } else {
            rest = rest.split_at(1).1;
        }
    }
    Some(rest)
}

/// Whether a text begins with the opening of a comment.
pub fn opens_comment(text: &[u8]) -> bool
    ensures { result ≡ opens_comment text.now }
{
    matches!(text, [b'(', b'*', ..])
}

/// Whether a text begins with the end of a comment.
fn closes_comment(text: &[u8]) -> bool
    ensures { result ≡ closes_comment text.now }
{
    matches!(text, [b'*', b')', ..])
}

/// Whether a byte is a tab, a line feed, a form feed, a carriage return or a space.
pub fn is_blank(byte: u8) -> bool
    ensures { result ≡ is_blank byte }
{
    matches!(byte, b'\t' | b'\n' | 12 | b'\r' | b' ')
}
