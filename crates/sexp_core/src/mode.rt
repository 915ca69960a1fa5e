//! Where the bytes of an item so far end.
ghost use Rattle.std.specs.Prelude.{◌<◌};

/// A hexadecimal digit's value.
#[derive(Clone, Copy)]
pub(crate) struct Nibble {
    pub(crate) value: u8,
    ghost is_digit: { value < 16 },
}

/// Where the bytes of an item so far end: between values, in a comment, in a run of plain bytes whose last is no
/// `#` or is one, between quotes, or in an escape: behind its backslash, behind its first or second decimal digit
/// (with the number so far), behind its `x`, or behind its first hexadecimal digit.
#[derive(Clone, Copy)]
pub(crate) enum Mode {
    Between,
    Commented,
    Run,
    Hash,
    Quoted,
    Escaped,
    Decimal1(u8),
    Decimal2(u8),
    Hexadecimal0,
    Hexadecimal1(Nibble),
}
