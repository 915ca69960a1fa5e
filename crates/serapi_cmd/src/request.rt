//! The requests of an input.
ghost use Rattle.std.specs.Prelude.{◌≡◌, IfOk};
ghost use Rattle.sexp_core.specs.Sexp.{meaning};
ghost use Rattle.sexp_theory.specs.Items.{bad_item};
ghost use Rattle.serapi_cmd.specs.Requests.{value_request, request_of, reader_fault, is_quit};

use crate::{CmdFault, Command, Tagged, read_command};
use base_core::{Bytes, NoMemory};
use sexp_core::{BadKind, Sexp};
use std::alloc::Global;

/// What an item of the input asks for: a command to do, or a bad line, which is answered by one line alone.
#[derive(Debug, Drop)]
pub enum Request {
    Do(Tagged),
    Bad(BadLine),
}

/// An item that is no command: its number among the items, from 0; why; and where, the offset in bytes of the input
/// from 0. That is the bad place, or the first byte of a value that is no command.
#[derive(Debug, Drop)]
pub struct BadLine {
    pub number: u64,
    pub kind: InputFault,
    pub offset: u64,
}

/// Why an item is no command: a bad place of the text, as `BadKind`, or a fault of its value, as `CmdFault`.
#[derive(Debug, Drop)]
pub enum InputFault {
    StrayClose,
    BadEscape,
    TooDeep,
    TooLong,
    HashBar,
    UnknownCommand,
    BadField(Bytes),
    BadNumber,
}

impl Request {
    /// Whether it is the command Quit, behind which no request counts.
    pub fn is_quit(&self) -> bool
        ensures { result ≡ is_quit self.now }
    {
        match self {
            Request::Do(tagged) => match &tagged.command {
                Command::Quit => true,
                _ => false,
            },
            Request::Bad(_) => false,
        }
    }
}

/// The request of the item with a number that is a value, whose first byte has the offset `first`.
pub fn request_of_value(
    alloc: Global,
    sexp: &Sexp,
    number: u64,
    first: u64,
) -> Result<Request, NoMemory>
    ensures { IfOk result (λ request. request ≡ value_request number (meaning sexp.now) first) }
{
    let kind = match read_command(alloc, sexp, number) {
        Ok(tagged) => return Ok(Request::Do(tagged)),
        Err(CmdFault::UnknownCommand) => InputFault::UnknownCommand,
        Err(CmdFault::BadField(name)) => InputFault::BadField(name),
        Err(CmdFault::BadNumber) => InputFault::BadNumber,
        Err(CmdFault::NoMemory) => return Err(NoMemory),
    };
    Ok(Request::Bad(BadLine {
        number,
        kind,
        offset: first,
    }))
}

/// The request of the item with a number that is a bad place, at this offset.
pub fn request_of_bad_place(kind: BadKind, number: u64, offset: u64) -> Request
    ensures { result ≡ request_of number (bad_item offset kind) }
{
    Request::Bad(BadLine {
        number,
        kind: reader_fault(kind),
        offset,
    })
}

fn reader_fault(kind: BadKind) -> InputFault
    ensures { result ≡ reader_fault kind }
{
    match kind {
        BadKind::StrayClose => InputFault::StrayClose,
        BadKind::BadEscape => InputFault::BadEscape,
        BadKind::TooDeep => InputFault::TooDeep,
        BadKind::TooLong => InputFault::TooLong,
        BadKind::HashBar => InputFault::HashBar,
    }
}
