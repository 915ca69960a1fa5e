//! Where the sentences of a vernacular text begin and end, and the tokens of a sentence.
//!
//! A text is a list of bytes, whatever they are, and so is a sentence. `cut_sentences` answers the spans of a
//! text's sentences up to the first fault, and `tokens` the kinds and spans of a sentence's tokens;
//! docs/LANGUAGE.md has the rules. There is no grammar here: what tokens mean, and whether they are a
//! sentence, the parser above says. A parser takes `tokens`, whose answer is the definition `tokens_of`; who
//! reads a text takes `cut_sentences`, whose answer is `sentences_of`. `tokens_are_slices` and
//! `spans_are_of_sentences` have their laws.
#![tactic(auto)]

mod comments;
mod sentence_tokens;
mod sentences;
mod signs;
mod span;
mod token;
mod words;

pub use sentence_tokens::{tokens, tokens_are_slices};
pub use sentences::{CutFault, SentenceCut, cut_sentences, spans_are_of_sentences};
pub use span::{Span, Spans};
pub use token::{Token, TokenKind, Tokens};
