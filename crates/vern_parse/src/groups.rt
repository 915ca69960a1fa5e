//! The groups of a definition.
ghost use Rattle.std.specs.Prelude.{◌<◌, IfOk};
ghost use Rattle.vern_sentence.specs.Patterns.{part_front};
ghost use Rattle.vern_sentence.specs.Slots.{groups as groups_slot};
ghost use Rattle.vern_parse.specs.Sentences.{groups_of};
ghost use Rattle.vern_parse.specs.Pieces.{a_group};
ghost use Rattle.vern_parse.specs.Sources.{Gives, rest, with_rest};

use crate::fault::ParseFault;
use crate::raw::{RawGroup, RawGroups};
use crate::source::Source;
use crate::words::Sign;
use std::alloc::Global;

/// As many groups as stand there.
#[tactic(auto, using(crate::proofs::Grouped::laws))]
pub fn groups_at(
    alloc: Global,
    source: &Source<'_>,
    at: usize,
) -> Result<(RawGroups, usize), ParseFault>
    ensures { Gives (with_rest groups_of source.now) source.now result (part_front groups_slot (rest source.now at)) }
{
    let mut groups = Vec::new(alloc);
    let mut at = at;
    'groups: while let Some(behind) = source.skip(at, Sign::LeftParenthesis) {
        (groups, at) = with_group(alloc, source, behind, groups)?;
    }
    Ok((groups, at))
}

/// The groups with one more, behind its parenthesis.
fn with_group(
    alloc: Global,
    source: &Source<'_>,
    at: usize,
    groups: RawGroups,
) -> Result<(RawGroups, usize), ParseFault>
    ensures exact { Gives (with_rest groups_of source.now) source.now result (a_group (groups_of groups) (rest source.now at)) }
    ensures further { IfOk result (λ r. at < r.1) }
{
    let (names, at) = source.some_names_at(alloc, at)?;
    let at = source.expect(at, Sign::Colon)?;
    let (sort, at) = source.name_at(alloc, at)?;
    let at = source.close_at(at)?;
    let mut groups = groups;
    groups.push(RawGroup { names, sort })?;
    Ok((groups, at))
}
