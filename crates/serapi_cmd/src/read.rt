//! Values read as commands.
ghost use Rattle.std.specs.Prelude.{◌≡◌, IfOk, [], option_map};
ghost use Rattle.std.specs.Fmt.{decimal};
ghost use Rattle.sexp_core.specs.Sexp.{meaning};
ghost use Rattle.serapi_cmd.specs.Faults.{Reads, ReadsWhere};
ghost use Rattle.serapi_cmd.specs.Fields.{read_each};
ghost use Rattle.serapi_cmd.specs.Meanings.{meanings, word_meaning};
ghost use Rattle.serapi_cmd.specs.Words.{word_of};
ghost use Rattle.serapi_cmd.specs.Commands.{
  add,
  add_id,
  ids,
  cancel,
  exec,
  plain_kind,
  kind,
  query,
  list_form,
  atom_form,
  untagged,
  reading,
};

use crate::fault::bad_field;
use crate::fields::{copy_atom, one_field, pair_of, two_fields};
use crate::number::read_number;
use crate::options::{read_add_options, read_query_options};
use crate::{CmdFault, Command, QueryKind, Tagged};
use base_core::{Bytes, Ids, NoMemory, SharedBytes};
use sexp_core::Sexp;
use std::alloc::Global;

/// The words that commands begin with.
#[derive(Clone, Copy)]
enum Word {
    Add,
    Cancel,
    Exec,
    Query,
    Join,
    Quit,
}

impl Word {
    fn of(bytes: &[u8]) -> Option<Word>
        ensures { option_map word_meaning result ≡ word_of bytes.now }
    {
        if bytes == b"Add".as_slice() {
            Some(Word::Add)
        } else if bytes == b"Cancel".as_slice() {
            Some(Word::Cancel)
        } else if bytes == b"Exec".as_slice() {
            Some(Word::Exec)
        } else if bytes == b"Query".as_slice() {
            Some(Word::Query)
        } else if bytes == b"Join".as_slice() {
            Some(Word::Join)
        } else if bytes == b"Quit".as_slice() {
            Some(Word::Quit)
        } else {
            None
        }
    }

    /// The command that an atom alone is.
    fn alone(self) -> Option<Command>
        ensures { result ≡ atom_form (word_meaning self) }
    {
        match self {
            Word::Join => Some(Command::Join),
            Word::Quit => Some(Command::Quit),
            _ => None,
        }
    }
}

/// Reads the value of the item with this number, counted from 0, as a command with its tag. The tables are those of
/// docs/PROTOCOL.md: the first row that fits, then the first fault of its fields from left to right. A command
/// without a tag has its number as tag.
pub fn read_command(alloc: Global, sexp: &Sexp, number: u64) -> Result<Tagged, CmdFault>
    ensures { Reads result (reading number (meaning sexp.now)) }
{
    if let Some(read) = read_untagged(alloc, sexp) {
        let command = read?;
        let tag = number_tag(alloc, number)?;
        return Ok(Tagged { tag, command });
    }
    let Some((tag, value)) = pair_of(sexp) else {
        return Err(CmdFault::UnknownCommand);
    };
    let Some(read) = read_untagged(alloc, value) else {
        return Err(CmdFault::UnknownCommand);
    };
    let command = read?;
    let tag = SharedBytes::from_slice(alloc, tag)?;
    Ok(Tagged { tag, command })
}

/// The tag of a command without one: the number of its item in decimal.
fn number_tag(alloc: Global, number: u64) -> Result<SharedBytes, NoMemory>
    ensures { IfOk result (λ tag. tag ≡ decimal number) }
{
    SharedBytes::from_vec(number.to_string(alloc)?.into_bytes())
}

/// A command without a tag, or None where the value has not the form of one.
fn read_untagged(alloc: Global, value: &Sexp) -> Option<Result<Command, CmdFault>>
    ensures { ReadsWhere result (untagged (meaning value.now)) }
{
    match value {
        Sexp::Atom(word) => Some(Ok(Word::of(word.as_slice())?.alone()?)),
        Sexp::List(values) => {
            let (Sexp::Atom(word), fields) = values.split_first()? else {
                return None;
            };
            Some(read_list(alloc, Word::of(word.as_slice())?, fields))
        }
    }
}

/// A list that begins with a command word, of its fields behind that.
fn read_list(alloc: Global, word: Word, fields: &[Sexp]) -> Result<Command, CmdFault>
    ensures { Reads result (list_form (word_meaning word) (meanings fields.now)) }
{
    match word {
        Word::Add => read_add(alloc, fields),
        Word::Cancel => read_cancel(alloc, fields),
        Word::Exec => read_exec(alloc, fields),
        Word::Query => read_query(alloc, fields),
        Word::Join => bad_field(alloc, b"Join"),
        Word::Quit => bad_field(alloc, b"Quit"),
    }
}

fn read_add(alloc: Global, fields: &[Sexp]) -> Result<Command, CmdFault>
    ensures { Reads result (add (meanings fields.now)) }
{
    let Some((options, text)) = two_fields(fields) else {
        return bad_field(alloc, b"Add");
    };
    let options = read_add_options(alloc, options)?;
    let text = copy_atom(alloc, text)?;
    Ok(Command::Add(options, text))
}

fn read_cancel(alloc: Global, fields: &[Sexp]) -> Result<Command, CmdFault>
    ensures { Reads result (cancel (meanings fields.now)) }
{
    let Some(ids) = one_field(fields) else {
        return bad_field(alloc, b"Cancel");
    };
    Ok(Command::Cancel(read_ids(alloc, ids)?))
}

fn read_ids(alloc: Global, field: &Sexp) -> Result<Ids, CmdFault>
    ensures { Reads result (ids (meaning field.now)) }
{
    match field {
        Sexp::List(values) => read_numbers(alloc, values),
        Sexp::Atom(_) => bad_field(alloc, b"ids"),
    }
}

fn read_numbers(alloc: Global, values: &[Sexp]) -> Result<Ids, CmdFault>
    ensures { Reads result (read_each add_id [] (meanings values.now)) }
{
    let mut ids = Ids::new(alloc);
    for value in values {
        ids.push(read_number(value)?)?;
    }
    Ok(ids)
}

fn read_exec(alloc: Global, fields: &[Sexp]) -> Result<Command, CmdFault>
    ensures { Reads result (exec (meanings fields.now)) }
{
    let Some(id) = one_field(fields) else {
        return bad_field(alloc, b"Exec");
    };
    Ok(Command::Exec(read_number(id)?))
}

fn read_query(alloc: Global, fields: &[Sexp]) -> Result<Command, CmdFault>
    ensures { Reads result (query (meanings fields.now)) }
{
    let Some((options, kind)) = two_fields(fields) else {
        return bad_field(alloc, b"Query");
    };
    let options = read_query_options(alloc, options)?;
    let kind = read_kind(alloc, kind)?;
    Ok(Command::Query(options, kind))
}

fn read_kind(alloc: Global, field: &Sexp) -> Result<QueryKind, CmdFault>
    ensures { Reads result (kind (meaning field.now)) }
{
    if let Sexp::Atom(word) = field {
        if let Some(kind) = plain_kind(word.as_slice()) {
            return Ok(kind);
        }
        return bad_field(alloc, b"kind");
    }
    if let Some((word, Sexp::Atom(name))) = pair_of(field)
        && word == b"Definition".as_slice()
    {
        return Ok(QueryKind::Definition(Bytes::from_slice(alloc, name.as_slice())?));
    }
    bad_field(alloc, b"kind")
}

fn plain_kind(word: &[u8]) -> Option<QueryKind>
    ensures { result ≡ plain_kind word.now }
{
    if word == b"Goals".as_slice() {
        Some(QueryKind::Goals)
    } else if word == b"Ast".as_slice() {
        Some(QueryKind::Ast)
    } else if word == b"Env".as_slice() {
        Some(QueryKind::Env)
    } else {
        None
    }
}
