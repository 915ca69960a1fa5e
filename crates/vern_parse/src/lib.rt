//! The trees of sentences, and the code that reads them from tokens.
//!
//! A tree (`Raw`, and in it `RawTac`, `Shape`, `RawExpr`) stands for a value of the data types in vern_sentence and
//! vern_grammar, by the functions of specs/Sentences.antt and specs/Meaning.antt, and every contract speaks through
//! them. `parse` answers the one tree that the grammar gives to a sentence's tokens, or the offset of the first
//! token with which the tokens so far begin no sentence; `expression` and `shape` do so for parts of sentences.
//! Inside, one function for each form goes straight through the tokens, and expressions, shapes and evidence are
//! read by the grammar's machine: a mode, a stack of frames, one step for each token. Nothing here knows
//! declarations or types.
#![tactic(auto)]

mod fault;
mod frames;
mod groups;
mod kind;
mod levels;
mod raw;
mod read;
mod reduce;
mod refine;
mod sentence;
mod slot;
mod source;
mod stack;
mod step;
mod takes;
mod words;

pub use fault::ParseFault;
pub use raw::{
    Closer, Raw, RawExpr, RawExprs, RawGroup, RawGroups, RawName, RawNames, RawOp, RawTac, Shape,
};
pub use read::{expression, shape};
pub use sentence::parse;
pub use vern_lex::Span;
