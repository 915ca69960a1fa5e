//! The options of an Add and of a Query.
ghost use Rattle.std.specs.Prelude.{◌≡◌};
ghost use Rattle.sexp_core.specs.Sexp.{meaning};
ghost use Rattle.sexp_theory.specs.Values.{list};
ghost use Rattle.serapi_cmd.specs.Faults.{Reads};
ghost use Rattle.serapi_cmd.specs.Fields.{read_each};
ghost use Rattle.serapi_cmd.specs.Meanings.{meanings};
ghost use Rattle.serapi_cmd.specs.Options.{
  flag,
  add_setting,
  add_option,
  add_options,
  no_add_option,
  is_format,
  is_printing,
  query_setting,
  query_option,
  query_options,
  no_query_option,
};

use crate::fault::bad_field;
use crate::fields::{one_field, pair_of};
use crate::number::read_number;
use crate::{AddOpts, CmdFault, QueryOpts};
use sexp_core::Sexp;
use std::alloc::Global;
use std::marker::Model;

/// What the options of an Add have given so far.
#[derive(Drop)]
struct AddGiven {
    ontop: Option<u64>,
    lim: Option<u64>,
    verb: Option<bool>,
}

impl Model for AddGiven {
    ghost use Rattle.serapi_cmd.specs.Options.{AddSettings};

    ghost Value = { AddSettings };

    ghost view = { λ g. record { ontop = g.ontop; lim = g.lim; verb = g.verb } };
}

/// What the options of a Query have given so far.
#[derive(Drop)]
struct QueryGiven {
    sid: Option<u64>,
    pp: bool,
}

impl Model for QueryGiven {
    ghost use Rattle.serapi_cmd.specs.Options.{QuerySettings};

    ghost Value = { QuerySettings };

    ghost view = { λ g. record { sid = g.sid; pp = g.pp } };
}

/// The options of an Add: the first that has a fault gives it.
pub fn read_add_options(alloc: Global, options: &Sexp) -> Result<AddOpts, CmdFault>
    ensures { Reads result (add_options (meaning options.now)) }
{
    let Sexp::List(options) = options else {
        return bad_field(alloc, b"opts");
    };
    let given = read_add_list(alloc, options)?;
    Ok(AddOpts {
        ontop: given.ontop,
        lim: given.lim,
        verb: given.verb.unwrap_or(false),
    })
}

fn read_add_list(alloc: Global, options: &[Sexp]) -> Result<AddGiven, CmdFault>
    ensures { Reads result (read_each add_option no_add_option (meanings options.now)) }
{
    let mut given = AddGiven {
        ontop: None,
        lim: None,
        verb: None,
    };
    for option in options {
        given = read_add_option(alloc, given, option)?;
    }
    Ok(given)
}

fn read_add_option(alloc: Global, given: AddGiven, option: &Sexp) -> Result<AddGiven, CmdFault>
    ensures { Reads result (add_option given (meaning option.now)) }
{
    match pair_of(option) {
        Some((word, value)) => read_add_setting(alloc, given, word, value),
        None => bad_field(alloc, b"opts"),
    }
}

fn read_add_setting(
    alloc: Global,
    given: AddGiven,
    word: &[u8],
    value: &Sexp,
) -> Result<AddGiven, CmdFault>
    ensures { Reads result (add_setting given word.now (meaning value.now)) }
{
    if word == b"ontop".as_slice() && given.ontop.is_none() {
        let ontop = Some(read_number(value)?);
        return Ok(AddGiven { ontop, ..given });
    }
    if word == b"lim".as_slice() && given.lim.is_none() {
        let lim = Some(read_number(value)?);
        return Ok(AddGiven { lim, ..given });
    }
    if word == b"verb".as_slice() && given.verb.is_none() {
        let verb = Some(read_flag(alloc, value)?);
        return Ok(AddGiven { verb, ..given });
    }
    bad_field(alloc, word)
}

fn read_flag(alloc: Global, value: &Sexp) -> Result<bool, CmdFault>
    ensures { Reads result (flag (meaning value.now)) }
{
    if let Sexp::Atom(word) = value {
        if word.as_slice() == b"true".as_slice() {
            return Ok(true);
        }
        if word.as_slice() == b"false".as_slice() {
            return Ok(false);
        }
    }
    bad_field(alloc, b"verb")
}

/// The options of a Query: the first that has a fault gives it.
pub fn read_query_options(alloc: Global, options: &Sexp) -> Result<QueryOpts, CmdFault>
    ensures { Reads result (query_options (meaning options.now)) }
{
    let Sexp::List(options) = options else {
        return bad_field(alloc, b"opts");
    };
    let given = read_query_list(alloc, options)?;
    Ok(QueryOpts { sid: given.sid })
}

fn read_query_list(alloc: Global, options: &[Sexp]) -> Result<QueryGiven, CmdFault>
    ensures { Reads result (read_each query_option no_query_option (meanings options.now)) }
{
    let mut given = QueryGiven {
        sid: None,
        pp: false,
    };
    for option in options {
        given = read_query_option(alloc, given, option)?;
    }
    Ok(given)
}

fn read_query_option(
    alloc: Global,
    given: QueryGiven,
    option: &Sexp,
) -> Result<QueryGiven, CmdFault>
    ensures { Reads result (query_option given (meaning option.now)) }
{
    match pair_of(option) {
        Some((word, value)) => read_query_setting(alloc, given, word, value),
        None => bad_field(alloc, b"opts"),
    }
}

fn read_query_setting(
    alloc: Global,
    given: QueryGiven,
    word: &[u8],
    value: &Sexp,
) -> Result<QueryGiven, CmdFault>
    ensures { Reads result (query_setting given word.now (meaning value.now)) }
{
    if word == b"sid".as_slice() && given.sid.is_none() {
        let sid = Some(read_number(value)?);
        return Ok(QueryGiven { sid, ..given });
    }
    if word == b"pp".as_slice() && !given.pp && is_printing(value) {
        return Ok(QueryGiven { pp: true, ..given });
    }
    bad_field(alloc, word)
}

/// Whether a value is the fields of `pp`: nothing, or the format `PpStr`.
fn is_printing(fields: &Sexp) -> bool
    ensures { result ≡ is_printing (meaning fields.now) }
{
    match fields {
        Sexp::List(fields) => are_printing(fields),
        Sexp::Atom(_) => false,
    }
}

#[tactic(auto, using(crate::proofs::FieldLists::printing_of_other))]
fn are_printing(fields: &[Sexp]) -> bool
    ensures { result ≡ is_printing (list (meanings fields.now)) }
{
    match one_field(fields) {
        Some(field) => is_format(field),
        None => fields.is_empty(),
    }
}

fn is_format(field: &Sexp) -> bool
    ensures { result ≡ is_format (meaning field.now) }
{
    match pair_of(field) {
        Some((word, Sexp::Atom(format))) => {
            word == b"pp_format".as_slice() && format.as_slice() == b"PpStr".as_slice()
        }
        _ => false,
    }
}
