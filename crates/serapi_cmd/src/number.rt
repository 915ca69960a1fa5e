//! Numbers.
ghost use Rattle.std.specs.Prelude.{◌≡◌};
ghost use Rattle.sexp_core.specs.Sexp.{meaning};
ghost use Rattle.serapi_cmd.specs.Faults.{Reads};
ghost use Rattle.serapi_cmd.specs.Numbers.{number_of, number, with_digit};

use crate::CmdFault;
use sexp_core::Sexp;

/// The number that a value is, or BadNumber.
pub fn read_number(value: &Sexp) -> Result<u64, CmdFault>
    ensures { Reads result (number (meaning value.now)) }
{
    match value {
        Sexp::Atom(digits) => number_of(digits.as_slice()).ok_or(CmdFault::BadNumber),
        Sexp::List(_) => Err(CmdFault::BadNumber),
    }
}

/// The value of one or more decimal digits, if it is below 2^64.
fn number_of(digits: &[u8]) -> Option<u64>
    ensures { result ≡ number_of digits.now }
{
    if digits.is_empty() {
        return None;
    }
    let mut number: u64 = 0;
    for digit in digits {
        number = with_digit(number, *digit)?;
    }
    Some(number)
}

/// The value of a number's digits and one digit more, if it is below 2^64.
fn with_digit(number: u64, digit: u8) -> Option<u64>
    ensures { result ≡ with_digit number digit }
{
    if !digit.is_ascii_digit() {
        return None;
    }
    number.checked_mul(10)?.checked_add(u64::from(digit - b'0'))
}
