//! Values.
ghost use Rattle.std.specs.Prelude.{◌<◌, map};
ghost use Rattle.std.specs.List.{All};
ghost use Rattle.sexp_theory.specs.Values.{HasBytes, HaveBytes, values};
ghost use Rattle.sexp_core.specs.Sexp.{meaning};

use base_core::Bytes;

/// A value: an atom or a list of values. Atoms with the same bytes are the same value, with quotes or without.
#[derive(Debug, Drop)]
pub enum Sexp {
    Atom(Bytes),
    List(Sexps),
}

pub type Sexps = Vec<Sexp>;

/// Every value of this type is of bytes, the premise of the laws of written values. The call does nothing but walk
/// through the value; it is made where a proof wants the fact.
#[cycle(values_are_of_bytes)]
pub fn values_are_of_bytes(sexp: &Sexp)
    ensures { HasBytes (meaning sexp.now) }
{
    match sexp {
        Sexp::Atom(bytes) => are_bytes(bytes.as_slice()),
        Sexp::List(sexps) => all_are_of_bytes(sexps),
    }
}

#[cycle(values_are_of_bytes)]
fn all_are_of_bytes(sexps: &[Sexp])
    ensures { HaveBytes (values (map meaning sexps.now)) }
{
    for sexp in sexps {
        values_are_of_bytes(sexp);
    }
}

fn are_bytes(bytes: &[u8])
    ensures { All (λ b. b < 256) bytes.now }
{}
