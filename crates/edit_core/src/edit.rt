//! The edit at an id.
ghost use Rattle.std.specs.Prelude.{◌≡◌, IsOk, IfOk};
ghost use Rattle.line_theory.specs.Edits.{edited, outcome};
ghost use Rattle.edit_core.specs.Told.{told, told_outcome, line_after};
ghost use Rattle.edit_core.specs.Choices.{opens_zone};

use base_core::{NoMemory, Sequence};
use vcs_graph::{Graph, Site};

/// How an edit is told.
#[derive(Clone, Copy)]
pub enum Edited {
    /// All behind the id went: this is the cursor, at the end of the line.
    NewTip(u64),
    /// A zone is open behind the id: the block's lemma, its kept closer, and the last id of the line.
    Focus(u64, u64, u64),
    /// The id is the kept closer of the zone, which is this id, or stands behind it; nothing changed.
    ZoneOpen(u64),
    /// The id isn't in the line, and isn't 1; nothing changed.
    NoSuchState,
}

/// Edits in order.
pub type Edits = Sequence<Edited>;

/// The line is edited at an id: what stands behind it goes, in an opaque block only up to the closer. It takes no memory.
pub fn edit_at(graph: &mut Graph, id: u64) -> Result<Edited, NoMemory>
    ensures line { graph.new ≡ line_after (edited id graph.old) graph.old }
    ensures told { IfOk result (λ t. t ≡ told (edited id graph.old)) }
    ensures ok { IsOk result }
{
    if id == 1 {
        graph.drop_after(1);
        return Ok(tell(graph));
    }
    let site = graph.site(id);
    match site {
        Site::Nowhere => return Ok(Edited::NoSuchState),
        Site::Behind(stop) => return Ok(Edited::ZoneOpen(stop)),
        _ => {}
    }
    if opens_zone(site, graph.zone().is_some()) {
        graph.open_zone(id);
    } else {
        graph.drop_after(id);
    }
    Ok(tell(graph))
}

/// Whether an edit at such an id opens a zone, where one is open or not, and doesn't cut the line.
fn opens_zone(site: Site, zone: bool) -> bool
    ensures { result ≡ opens_zone site zone }
{
    match site {
        Site::Lemma(opaque) => opaque && !zone,
        Site::Inner(opaque) => opaque && !zone,
        Site::OpenLemma => zone,
        Site::OpenInner => zone,
        _ => false,
    }
}

/// How the line is told that an edit left.
pub(crate) fn tell(graph: &Graph) -> Edited
    ensures { result ≡ told_outcome (outcome graph.now) }
{
    match graph.zone() {
        Some((start, stop)) => Edited::Focus(start, stop, graph.tip()),
        None => Edited::NewTip(graph.cursor()),
    }
}
