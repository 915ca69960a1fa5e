//! Sentences that were read.
ghost use Rattle.std.specs.Prelude.{◌≡◌, ◌≤◌, ℕ, List, Ok, Err, IfErr, IfOk, IfSome, length};
ghost use Rattle.base_core.specs.Answers.{Answers};
ghost use Rattle.vern_lex.specs.Tokens.{tokens_of};
ghost use Rattle.vern_grammar.specs.Grammar.{IsFault};
ghost use Rattle.vern_sentence.specs.Trees.{Sentence as Tree};
ghost use Rattle.vern_sentence.specs.Sentences.{IsSentence};
ghost use Rattle.vern_parse.specs.Answers.{offset};
ghost use Rattle.vern_parse.specs.Sentences.{sentence as sentence_of};
ghost use Rattle.vern_step.specs.Parsed.{IsReading, kind_in, parsed, place_of_fault, words};

use crate::kind::Kind;
use base_core::{NoMemory, SharedBytes};
use std::alloc::Global;
use std::marker::Model;
use std::sync::Arc;
use vern_lex::tokens;
use vern_parse::{ParseFault, Raw, parse};

/// A sentence: its bytes, of which there are at most 65,536, with its tree, which is the one that parsing gives to them.
/// Contracts see the bytes. Bytes and tree are shared by the copies.
#[derive(Drop)]
pub struct Sentence {
    bytes: SharedBytes,
    tree: Arc<Raw>,
}

impl Model for Sentence {
    ghost use Rattle.std.specs.Prelude.{List, ℕ};
    ghost use Rattle.std.specs.Arc.{arc_value};
    ghost use Rattle.vern_parse.specs.Sentences.{sentence as sentence_of};
    ghost use Rattle.vern_step.specs.Parsed.{IsWhole};

    ghost Value = { List ℕ };

    ghost view = { λ s. s.bytes };

    ghost invariant = { λ s. IsWhole s.bytes (sentence_of (arc_value s.tree)) };
}

impl Sentence {
    /// Reads the bytes of one sentence, as cutting gives them. A fault's offset counts from the first of them; it is
    /// their number where they are only the beginning of a sentence. The bytes are copied.
    pub fn read(alloc: Global, bytes: &[u8]) -> Result<Sentence, ParseFault>
        requires { length bytes.now ≤ 65536 }
        ensures reads { IsReading result bytes.now }
        ensures within { IfErr result (λ e. IfSome (place_of_fault e) (λ p. p ≤ length bytes.now)) }
    {
        match read_tree(alloc, bytes) {
            Ok(tree) => match Sentence::of_tree(alloc, bytes, tree) {
                Ok(sentence) => Ok(sentence),
                Err(_) => Err(ParseFault::NoMemory),
            },
            Err(fault) => Err(fault),
        }
    }

    /// The sentence of these bytes, whose tree this is.
    fn of_tree(alloc: Global, bytes: &[u8], tree: Raw) -> Result<Sentence, NoMemory>
        requires limit { length bytes.now ≤ 65536 }
        requires tree { parsed bytes.now ≡ Ok (sentence_of tree) }
        ensures { IfOk result (λ s. s ≡ bytes.now) }
    {
        Ok(Sentence {
            bytes: SharedBytes::from_slice(alloc, bytes)?,
            tree: Arc::new(alloc, tree)?,
        })
    }

    /// An equal sentence, which shares bytes and tree. `NoMemory` comes only where 2^63 - 1 holders are there.
    pub fn copy(&self) -> Result<Sentence, NoMemory>
        ensures { IfOk result (λ s. s ≡ self.now) }
    {
        Ok(Sentence {
            bytes: self.bytes.share()?,
            tree: self.tree.clone()?,
        })
    }

    /// Its bytes.
    pub fn bytes(&self) -> &[u8]
        ensures bytes { result.now ≡ self.now }
        ensures limit { length result.now ≤ 65536 }
    {
        self.bytes.as_slice()
    }

    /// Its tree.
    pub fn tree(&self) -> &Raw
        ensures { parsed self.now ≡ Ok (sentence_of result.now) }
    {
        &self.tree
    }

    /// Where it stands in a document.
    pub fn kind(&self) -> Kind
        ensures { result ≡ kind_in self.now }
    {
        Kind::of(&self.tree)
    }
}

/// The tree of a sentence's bytes.
fn read_tree(alloc: Global, bytes: &[u8]) -> Result<Raw, ParseFault>
    ensures tree { Answers sentence_of place_of_fault result (parsed bytes.now) }
    ensures within { IfErr result (λ e. IfSome (place_of_fault e) (λ p. p ≤ length bytes.now)) }
{
    match tokens(alloc, bytes) {
        Ok(tokens) => parse(alloc, &tokens, bytes),
        Err(_) => Err(ParseFault::NoMemory),
    }
}

/// What parsing gives to bytes is what the grammar says of their tokens: a tree exactly where they are a sentence, and
/// else the place of the grammar's fault.
pub fn parsing_is_by_the_grammar()
    ensures tree { (bytes : List ℕ) (t : Tree) → parsed bytes ≡ Ok t → IsSentence bytes (words bytes) t }
    ensures read { (bytes : List ℕ) (t : Tree) → IsSentence bytes (words bytes) t → parsed bytes ≡ Ok t }
    ensures fault { (bytes : List ℕ) (p : ℕ) → parsed bytes ≡ Err p
        → (i : ℕ) × IsFault (IsSentence bytes) (words bytes) i × (p ≡ offset bytes (tokens_of bytes) i) }
    ensures refused { (bytes : List ℕ) (i : ℕ) → IsFault (IsSentence bytes) (words bytes) i
        → parsed bytes ≡ Err (offset bytes (tokens_of bytes) i) }
{}
