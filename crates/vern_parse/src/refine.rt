//! Refinement sentences, behind their first token and up to their end.
ghost use Rattle.vern_lex.specs.declared.span.Span.{Span};
ghost use Rattle.vern_sentence.specs.Trees as made;
ghost use Rattle.vern_sentence.specs.Words as word;
ghost use Rattle.vern_sentence.specs.Patterns.{reading};
ghost use Rattle.vern_sentence.specs.Reading.{arguing, ends_as, following, two_names};
ghost use Rattle.vern_parse.specs.Meaning.{expression};
ghost use Rattle.vern_parse.specs.Sentences.{refinement, sentence as sentence_of, tactic_word};
ghost use Rattle.vern_parse.specs.Sources.{Gives, no_span, rest};

use crate::fault::ParseFault;
use crate::raw::{Raw, RawExpr, RawTac};
use crate::slot::{enclosed_at, evidence_at, expression_at};
use crate::source::Source;
use crate::words::{Sign, Tactic};
use std::alloc::Global;

/// The refinement of a word, behind that word.
pub fn refinement_behind(
    alloc: Global,
    source: &Source<'_>,
    word: Tactic,
    at: usize,
) -> Result<Raw, ParseFault>
    ensures { (c : Span) → Gives sentence_of source.now result
        (reading (following source.now.1 c (tactic_word word)) (rest source.now at)) }
{
    match word {
        Tactic::Intro => intro(alloc, source, at),
        Tactic::Intros => intros(alloc, source, at),
        Tactic::Exact => exact(alloc, source, at),
        Tactic::Apply => apply(alloc, source, at),
        Tactic::Destruct => destruct(alloc, source, at),
        Tactic::Assert => assert_name(alloc, source, at),
        Tactic::Clear => clear(alloc, source, at),
        Tactic::Rewrite => rewrite(alloc, source, at),
        Tactic::Unfold => unfold(alloc, source, at),
        Tactic::Assumption => source.finish(at, Raw::Refinement(RawTac::Assumption)),
        Tactic::Split => source.finish(at, Raw::Refinement(RawTac::Split)),
        Tactic::Left => source.finish(at, Raw::Refinement(RawTac::Left)),
        Tactic::Right => source.finish(at, Raw::Refinement(RawTac::Right)),
        Tactic::Exfalso => source.finish(at, Raw::Refinement(RawTac::Exfalso)),
        Tactic::Reflexivity => source.finish(at, Raw::Refinement(RawTac::Reflexivity)),
        Tactic::Symmetry => source.finish(at, Raw::Refinement(RawTac::Symmetry)),
    }
}

/// Behind `exists`: an expression.
pub fn witness(alloc: Global, source: &Source<'_>, at: usize) -> Result<Raw, ParseFault>
    ensures { Gives sentence_of source.now result (reading (following source.now.1 no_span word.exists) (rest source.now at)) }
{
    let (value, at) = expression_at(alloc, source, at)?;
    source.finish(at, Raw::Refinement(RawTac::Exists(value)))
}

/// Behind `intro`: nothing, or a name.
fn intro(alloc: Global, source: &Source<'_>, at: usize) -> Result<Raw, ParseFault>
    ensures { Gives sentence_of source.now result (reading (following source.now.1 no_span word.intro) (rest source.now at)) }
{
    if let Some(at) = source.skip(at, Sign::FullStop) {
        return source.end(at, Raw::Refinement(RawTac::Intro(None)));
    }
    let (name, at) = source.name_at(alloc, at)?;
    source.finish(at, Raw::Refinement(RawTac::Intro(Some(name))))
}

/// Behind `intros`: names, as many as there are.
fn intros(alloc: Global, source: &Source<'_>, at: usize) -> Result<Raw, ParseFault>
    ensures { Gives sentence_of source.now result (reading (following source.now.1 no_span word.intros) (rest source.now at)) }
{
    let (names, at) = source.names_at(alloc, at)?;
    source.finish(at, Raw::Refinement(RawTac::Intros(names)))
}

/// Behind `exact`: evidence.
fn exact(alloc: Global, source: &Source<'_>, at: usize) -> Result<Raw, ParseFault>
    ensures { Gives sentence_of source.now result (reading (following source.now.1 no_span word.exact) (rest source.now at)) }
{
    let (value, at) = evidence_at(alloc, source, at)?;
    source.finish(at, Raw::Refinement(RawTac::Exact(value)))
}

/// Behind `apply`: evidence.
fn apply(alloc: Global, source: &Source<'_>, at: usize) -> Result<Raw, ParseFault>
    ensures { Gives sentence_of source.now result (reading (following source.now.1 no_span word.apply) (rest source.now at)) }
{
    let (value, at) = evidence_at(alloc, source, at)?;
    source.finish(at, Raw::Refinement(RawTac::Apply(value)))
}

/// Behind `destruct`: evidence, and then nothing, or `as` and two names in brackets.
fn destruct(alloc: Global, source: &Source<'_>, at: usize) -> Result<Raw, ParseFault>
    ensures { Gives sentence_of source.now result (reading (following source.now.1 no_span word.destruct) (rest source.now at)) }
{
    let (value, at) = evidence_at(alloc, source, at)?;
    match source.skip(at, Sign::As) {
        Some(at) => destruct_as(alloc, source, value, at),
        None => source.finish(at, Raw::Refinement(RawTac::DestructFalse(value))),
    }
}

/// Behind `as`: two names in brackets, with a bar between them or none.
fn destruct_as(
    alloc: Global,
    source: &Source<'_>,
    value: RawExpr,
    at: usize,
) -> Result<Raw, ParseFault>
    ensures { Gives sentence_of source.now result (reading (two_names (expression value)) (rest source.now at)) }
{
    let at = source.expect(at, Sign::LeftBracket)?;
    let (first, at) = source.name_at(alloc, at)?;
    if let Some(at) = source.skip(at, Sign::Bar) {
        let (second, at) = source.name_at(alloc, at)?;
        let at = source.expect(at, Sign::RightBracket)?;
        let tactic = RawTac::DestructOr(value, first, second);
        return source.finish(at, Raw::Refinement(tactic));
    }
    let (second, at) = source.name_at(alloc, at)?;
    let at = source.expect(at, Sign::RightBracket)?;
    let tactic = RawTac::DestructAnd(value, first, second);
    source.finish(at, Raw::Refinement(tactic))
}

/// Behind `assert`: a name and an expression in parentheses.
fn assert_name(alloc: Global, source: &Source<'_>, at: usize) -> Result<Raw, ParseFault>
    ensures { Gives sentence_of source.now result (reading (following source.now.1 no_span word.assert) (rest source.now at)) }
{
    let at = source.expect(at, Sign::LeftParenthesis)?;
    let (name, at) = source.name_at(alloc, at)?;
    let at = source.expect(at, Sign::Colon)?;
    let (formula, at) = enclosed_at(alloc, source, at)?;
    source.finish(at, Raw::Refinement(RawTac::Assert(name, formula)))
}

/// Behind `clear`: a name.
fn clear(alloc: Global, source: &Source<'_>, at: usize) -> Result<Raw, ParseFault>
    ensures { Gives sentence_of source.now result (reading (following source.now.1 no_span word.clear) (rest source.now at)) }
{
    let (name, at) = source.name_at(alloc, at)?;
    source.finish(at, Raw::Refinement(RawTac::Clear(name)))
}

/// Behind `rewrite`: an arrow or none, and evidence.
fn rewrite(alloc: Global, source: &Source<'_>, at: usize) -> Result<Raw, ParseFault>
    ensures { Gives sentence_of source.now result (reading (following source.now.1 no_span word.rewrite) (rest source.now at)) }
{
    if let Some(at) = source.skip(at, Sign::Arrow) {
        return rewrite_by(alloc, source, false, at);
    }
    match source.skip(at, Sign::BackArrow) {
        Some(at) => rewrite_by(alloc, source, true, at),
        None => rewrite_by(alloc, source, false, at),
    }
}

/// Behind an arrow of `rewrite`, or none: evidence.
fn rewrite_by(alloc: Global, source: &Source<'_>, back: bool, at: usize) -> Result<Raw, ParseFault>
    ensures { Gives sentence_of source.now result (reading (arguing (λ t. made.rewrite t back)) (rest source.now at)) }
{
    let (value, at) = evidence_at(alloc, source, at)?;
    source.finish(at, Raw::Refinement(RawTac::Rewrite(value, back)))
}

/// Behind `unfold`: a name, and then nothing, or `in` and a name.
fn unfold(alloc: Global, source: &Source<'_>, at: usize) -> Result<Raw, ParseFault>
    ensures { Gives sentence_of source.now result (reading (following source.now.1 no_span word.unfold_word) (rest source.now at)) }
{
    let (name, at) = source.name_at(alloc, at)?;
    match source.skip(at, Sign::In) {
        Some(at) => {
            let (hypothesis, at) = source.name_at(alloc, at)?;
            source.finish(at, Raw::Refinement(RawTac::Unfold(name, Some(hypothesis))))
        }
        None => source.finish(at, Raw::Refinement(RawTac::Unfold(name, None))),
    }
}
