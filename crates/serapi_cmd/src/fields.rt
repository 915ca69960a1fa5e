//! The fields of a command.
ghost use Rattle.std.specs.Prelude.{◌≡◌, option_map};
ghost use Rattle.serapi_cmd.specs.Fields.{one, two, pair, text};
ghost use Rattle.serapi_cmd.specs.Meanings.{meanings, of_one, of_two, of_pair};
ghost use Rattle.sexp_core.specs.Sexp.{meaning};
ghost use Rattle.serapi_cmd.specs.Faults.{Reads};

use crate::CmdFault;
use crate::fault::bad_field;
use base_core::Bytes;
use sexp_core::Sexp;
use std::alloc::Global;

/// The one field, if there is one alone.
#[tactic(auto, using(crate::proofs::FieldLists::one_of_other))]
pub fn one_field(fields: &[Sexp]) -> Option<&Sexp>
    ensures { option_map of_one result ≡ one (meanings fields.now) }
{
    if fields.len() == 1 {
        Some(&fields[0])
    } else {
        None
    }
}

/// The two fields, if there are two.
#[tactic(auto, using(crate::proofs::FieldLists::two_of_other))]
pub fn two_fields(fields: &[Sexp]) -> Option<(&Sexp, &Sexp)>
    ensures { option_map of_two result ≡ two (meanings fields.now) }
{
    if fields.len() == 2 {
        Some((&fields[0], &fields[1]))
    } else {
        None
    }
}

/// The atom and the value of a list of two whose first is an atom.
pub fn pair_of(value: &Sexp) -> Option<(&[u8], &Sexp)>
    ensures { option_map of_pair result ≡ pair (meaning value.now) }
{
    let Sexp::List(fields) = value else {
        return None;
    };
    match two_fields(fields) {
        Some((Sexp::Atom(word), field)) => Some((word.as_slice(), field)),
        _ => None,
    }
}

/// A copy of an atom's bytes, for a field that is a text.
pub fn copy_atom(alloc: Global, field: &Sexp) -> Result<Bytes, CmdFault>
    ensures { Reads result (text (meaning field.now)) }
{
    match field {
        Sexp::Atom(text) => Ok(Bytes::from_slice(alloc, text.as_slice())?),
        Sexp::List(_) => bad_field(alloc, b"text"),
    }
}
