//! The trees of sentences.

use base_core::SharedBytes;
use vern_lex::Span;

/// A name as it stands in a sentence. Its text can be shared without memory.
#[derive(Drop)]
pub struct RawName {
    pub text: SharedBytes,
    pub span: Span,
}

pub type RawNames = Vec<RawName>;

/// Names of one sort, and that sort.
#[derive(Drop)]
pub struct RawGroup {
    pub names: RawNames,
    pub sort: RawName,
}

pub type RawGroups = Vec<RawGroup>;

/// An operator with two operands.
#[derive(Clone, Copy, Debug, PartialEq, Eq)]
pub enum RawOp {
    /// `->`
    Imp,
    /// `<->`
    Iff,
    /// `\/`
    Or,
    /// `/\`
    And,
    /// `=`
    Eq,
    /// `<>`
    Ne,
}

/// An expression. Its span runs from its first byte to behind its last, without parentheses round the whole
/// of it, so that of `(A) /\ B` begins at the parenthesis and that of its left operand at `A`. The flag of a
/// quantifier is true for `forall`. A name alone is an application of no arguments.
#[derive(Drop)]
pub enum RawExpr {
    True(Span),
    False(Span),
    App(RawName, RawExprs, Span),
    Binary(RawOp, Box<RawExpr>, Box<RawExpr>, Span),
    Not(Box<RawExpr>, Span),
    Quant(bool, RawGroups, Box<RawExpr>, Span),
}

pub type RawExprs = Vec<RawExpr>;

/// What is declared: `Set`, `Prop`, an expression with an arrow and a shape, or any other expression.
#[derive(Drop)]
pub enum Shape {
    Set(Span),
    Prop(Span),
    Arrow(RawExpr, Box<Shape>),
    Plain(RawExpr),
}

/// How a proof is closed.
#[derive(Clone, Copy, Debug, PartialEq, Eq)]
pub enum Closer {
    Qed,
    Defined,
    Admitted,
    Abort,
}

/// A refinement sentence. `intros.` has no names; `DestructAnd` is the form `[a b]`, `DestructOr` the form
/// `[a | b]`, and `DestructFalse` the form without `as`; the flag of `Rewrite` is true for `<-`.
#[derive(Drop)]
pub enum RawTac {
    Intro(Option<RawName>),
    Intros(RawNames),
    Exact(RawExpr),
    Assumption,
    Apply(RawExpr),
    Split,
    Left,
    Right,
    Exists(RawExpr),
    DestructAnd(RawExpr, RawName, RawName),
    DestructOr(RawExpr, RawName, RawName),
    DestructFalse(RawExpr),
    Exfalso,
    Assert(RawName, RawExpr),
    Clear(RawName),
    Reflexivity,
    Symmetry,
    Rewrite(RawExpr, bool),
    Unfold(RawName, Option<RawName>),
}

/// A sentence. The third part of `Define` is its sort, or none for `Prop`; a bullet has its byte and how often
/// it stands.
#[derive(Drop)]
pub enum Raw {
    Declare(RawName, Shape),
    Define(RawName, RawGroups, Option<RawName>, RawExpr),
    Begin(RawName, RawExpr),
    ProofWord,
    Refinement(RawTac),
    Bullet(u8, u64),
    BraceIn,
    BraceOut,
    Close(Closer),
}
