//! Cancel: ids go, one after the other.
ghost use Rattle.std.specs.Prelude.{◌≡◌, ◌≤◌, ◌++◌, [], ◌∷◌, length, map, IfOk, OnOk, OnErr};
ghost use Rattle.line_theory.specs.Lines.{ids};
ghost use Rattle.line_theory.specs.Edits.{removed, cancelled, lost};
ghost use Rattle.edit_core.specs.Told.{told_outcome, line_after};
ghost use Rattle.edit_core.specs.Choices.{narrows};
ghost use Rattle.edit_core.specs.Cancels.{as_cancelled, as_removal, end_of};

use crate::edit::{Edited, Edits, tell};
use base_core::{Ids, NoMemory, SparedSequence};
use vcs_graph::{Graph, Site};

/// What a Cancel came to.
#[derive(Drop)]
pub struct Cancelled {
    /// How each edit is told, in order.
    pub edits: Edits,
    /// The ids that went, edit after edit, each in the order of the line.
    pub removed: Ids,
    /// How many of the given ids were treated; those that weren't in the line are among them.
    pub treated: u64,
    /// The id that ended it, which is the kept closer of a zone or stands behind it, and that closer.
    pub stopped: Option<(u64, u64)>,
}

/// What the removal of one id came to.
#[derive(Clone, Copy)]
pub enum Removal {
    /// The id isn't in the line, which is as it was.
    Unknown,
    /// The id is the kept closer of a zone, which is this id, or stands behind it; the line is as it was.
    Refused(u64),
    /// The id went, and the line is told so.
    Removed(Edited),
}

/// Where a Cancel ended.
#[derive(Clone, Copy)]
struct End {
    treated: u64,
    stopped: Option<(u64, u64)>,
}

/// The ids are taken from left to right, each in the line that the ones before it left: one that isn't in it is skipped, and one at
/// or behind the kept closer of a zone ends it. With `Err` the graph is as before.
pub fn cancel(graph: &mut Graph, ids: &Ids) -> Result<Cancelled, NoMemory>
    ensures line { OnOk result (graph.new ≡ (cancelled ids.now graph.old).line) }
    ensures told { IfOk result (λ c. c ≡ as_cancelled (cancelled ids.now graph.old)) }
    ensures err { OnErr result (graph.new ≡ graph.old) }
{
    let alloc = graph.allocator();
    let mut removed = SparedSequence::new(alloc);
    removed.reserve(graph.len())?;
    let mut edits = SparedSequence::new(alloc);
    edits.reserve(ids.len())?;
    let end = remove_all(graph, ids.as_slice(), &mut edits, &mut removed);
    Ok(Cancelled {
        edits: Edits::from_vec(edits.into_vec()),
        removed: Ids::from_vec(removed.into_vec()),
        treated: end.treated,
        stopped: end.stopped,
    })
}

/// The ids go, from left to right; the edits and the ids that went are listed.
fn remove_all(
    graph: &mut Graph,
    list: &[u64],
    edits: &mut SparedSequence<Edited>,
    removed: &mut SparedSequence<u64>,
) -> End
    requires room { length (ids graph.old) ≤ removed.old.spare }
    requires edits { length list.now ≤ edits.old.spare }
    ensures line { graph.new ≡ (cancelled list.now graph.old).line }
    ensures edits { edits.new.items ≡ edits.old.items ++ map told_outcome (cancelled list.now graph.old).edits }
    ensures removed { removed.new.items ≡ removed.old.items ++ (cancelled list.now graph.old).gone }
    ensures end { result ≡ end_of (cancelled list.now graph.old) }
{
    let mut treated: u64 = 0;
    for id in list {
        match remove(graph, *id, removed) {
            Removal::Unknown => {}
            Removal::Refused(stop) => {
                return End {
                    treated,
                    stopped: Some((*id, stop)),
                };
            }
            Removal::Removed(edit) => edits.push_reserved(edit),
        }
        treated += 1;
    }
    End {
        treated,
        stopped: None,
    }
}

/// An id goes, with what has to go with it, which are listed in order. It takes no memory.
pub fn remove(graph: &mut Graph, id: u64, gone: &mut SparedSequence<u64>) -> Removal
    requires room { length (ids graph.old) ≤ gone.old.spare }
    ensures line { graph.new ≡ line_after (removed id graph.old) graph.old }
    ensures told { result ≡ as_removal (removed id graph.old) }
    ensures gone { gone.new.items ≡ gone.old.items ++ lost graph.old graph.new }
    ensures room { length (ids graph.new) ≤ gone.new.spare }
{
    let site = graph.site(id);
    match site {
        Site::Nowhere => return Removal::Unknown,
        Site::Behind(stop) => return Removal::Refused(stop),
        _ => {}
    }
    if narrows(site, graph.zone().is_some()) {
        graph.zone_before(id, gone);
    } else {
        graph.cut_before(id, gone);
    }
    Removal::Removed(tell(graph))
}

/// Whether such an id goes with what stands between it and the closer, or the cursor, where a zone is open or not, and not with all
/// behind it.
fn narrows(site: Site, zone: bool) -> bool
    ensures { result ≡ narrows site zone }
{
    match site {
        Site::Inner(opaque) => opaque && !zone,
        Site::OpenInner => zone,
        _ => false,
    }
}
