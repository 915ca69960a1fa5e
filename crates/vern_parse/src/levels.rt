//! How tightly expressions bind.
ghost use Rattle.std.specs.Prelude.{◌≡◌};
ghost use Rattle.vern_grammar.specs.Levels.{left_at_most, op_level, right_at_most};
ghost use Rattle.vern_parse.specs.Meaning.{operator};

use crate::raw::RawOp;

/// The level of `~`.
pub const TILDE: u64 = 75;
/// The level of a quantifier without parentheses, above all others.
pub const BARE: u64 = 100;
/// The most level of an operand of a shape.
pub const OUTER: u64 = 98;
/// The most openings that are open at one token.
pub const LIMIT: u64 = 256;

impl RawOp {
    pub fn level(self) -> u64
        ensures { result ≡ op_level (operator self) }
    {
        match self {
            RawOp::Imp => 99,
            RawOp::Iff => 95,
            RawOp::Or => 85,
            RawOp::And => 80,
            RawOp::Eq | RawOp::Ne => 70,
        }
    }

    /// The most level of a left operand.
    pub fn left_at_most(self) -> u64
        ensures { result ≡ left_at_most (operator self) }
    {
        self.level() - 1
    }

    /// The most level of a right operand, but for a quantifier.
    pub fn right_at_most(self) -> u64
        ensures { result ≡ right_at_most (operator self) }
    {
        match self {
            RawOp::Imp | RawOp::Or | RawOp::And => self.level(),
            RawOp::Iff | RawOp::Eq | RawOp::Ne => self.level() - 1,
        }
    }
}
