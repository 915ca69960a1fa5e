//! A document of live sentences.
ghost use Rattle.std.specs.Prelude.{
  ◌≡◌,
  ◌≤◌,
  ◌<◌,
  ◌++◌,
  ◌∷◌,
  [],
  ◌⊎◌,
  ℕ,
  suc,
  true,
  length,
  option_map,
  IfOk,
  OnOk,
  OnErr,
  IsOk,
  IsSome,
};
ghost use Rattle.line_theory.specs.Lists.{has, Every};
ghost use Rattle.line_theory.specs.Lines.{Line, refolded, InZone};
ghost use Rattle.doc_theory.specs.Lists.{Member};
ghost use Rattle.doc_theory.specs.Documents.{Entry, cursor, empty, ids, is_state, live, tell, tip};
ghost use Rattle.doc_theory.specs.Editing.{attempt, is_full, lost, remove};
ghost use Rattle.edit_core.specs.Steps.{Fits, stepped, stop_in};
ghost use Rattle.vern_step.specs.Parsed.{kind_in};
ghost use Rattle.check_theory.specs.Pieces.{closer_of, sentence_of};
ghost use Rattle.doc_theory.specs.Documents as theory;
ghost use Rattle.doc_store.specs.Slots.{entry_of, slot_at};
ghost use Rattle.doc_store.specs.Cases.{bad_closer, closes, grown_at, left_at, refolded_at, refusal_by, step_of, too_many};
ghost use Rattle.doc_store.specs.Stored.{Fewer, IfRefused, IsRemoval, Note, Outside, tried_of};

use crate::slots::{Slot, Slots};
use base_core::{Ids, NoMemory, SharedBytes, SparedSequence};
use doc_theory::documents_are_lines;
use edit_core::{Removal, Step, add_at_cursor, close_zone, remove};
use serapi_ans::Exn;
use std::alloc::Global;
use std::marker::Model;
use vcs_graph::Graph;
use vern_step::{Closer, Kind, Sentence};

/// The first id that isn't given.
const ID_LIMIT: u64 = 4_611_686_018_427_387_904;

/// What became of a sentence that was to be added.
#[derive(Debug, Drop)]
pub enum Tried {
    /// It was refused; nothing changed.
    Refused(Exn),
    /// It has this id; and where it closed a zone, the last live id.
    Added(u64, Option<u64>),
}

/// Live sentences. Contracts see doc_theory's document and the verdicts of its entries that are told.
#[derive(Drop)]
pub struct Store {
    graph: Graph,
    slots: Slots,
    limit: u64,
}

impl Model for Store {
    ghost use Rattle.doc_store.specs.Stored.{IsKept, Stored, document_of, stored};

    ghost Value = { Stored };

    ghost view = { λ s. stored s.graph s.slots s.limit };

    ghost invariant = { λ s. IsKept s.graph s.slots (document_of s.graph s.slots s.limit) };
}

impl Store {
    /// No sentences; at most so many may live.
    pub fn new(alloc: Global, limit: u64) -> Result<Store, NoMemory>
        ensures document { IfOk result (λ s. s.document ≡ empty limit) }
        ensures notes { IfOk result (λ s. s.notes ≡ []) }
    {
        let graph = Graph::new(alloc)?;
        let slots = Slots::new(alloc)?;
        Ok(Store {
            graph,
            slots,
            limit,
        })
    }

    /// The id before the cursor, or 1.
    pub fn cursor(&self) -> u64
        ensures { result ≡ cursor self.now.document }
    {
        documents_are_lines();
        self.graph.cursor()
    }

    /// The last live id, or 1.
    pub fn tip(&self) -> u64
        ensures { result ≡ tip self.now.document }
    {
        documents_are_lines();
        self.graph.tip()
    }

    /// Whether an id is live or 1.
    pub fn is_state(&self, id: u64) -> bool
        ensures { result ≡ is_state id self.now.document }
    {
        documents_are_lines();
        id == 1 || self.graph.live(id)
    }

    /// How many sentences live.
    pub fn len(&self) -> usize
        ensures { result ≡ length (ids self.now.document) }
    {
        documents_are_lines();
        self.graph.len()
    }

    /// The live ids in the order of the document.
    pub fn line(&self) -> Result<Ids, NoMemory>
        ensures { IfOk result (λ line. line ≡ ids self.now.document) }
    {
        documents_are_lines();
        self.graph.line()
    }

    /// Whether no further sentence gets an id.
    pub fn is_full(&self) -> bool
        ensures { result ≡ is_full self.now.document }
    {
        documents_are_lines();
        let has_room = (self.graph.len() as u64) < self.limit;
        let has_id = self.slots.next() < ID_LIMIT;
        !has_room || !has_id
    }

    /// A sentence that begins at this offset of its text is added behind the cursor, or closes the zone there, or is
    /// refused. With `Err` nothing changes.
    pub fn attempt(&mut self, offset: u64, sentence: Sentence) -> Result<Tried, NoMemory>
        ensures tried { IfOk result (λ t. tried_of t self.new.document ≡ attempt self.old.document offset (sentence_of sentence)) }
        ensures refused { IfOk result (λ t. IfRefused t (self.new ≡ self.old)) }
        ensures notes { Fewer self.old.notes self.new.notes }
        ensures err { OnErr result (self.new ≡ self.old) }
    {
        documents_are_lines();
        let kind = sentence.kind();
        if let Some(refusal) = refusal(&self.graph, self.is_full(), offset, kind) {
            return Ok(Tried::Refused(refusal));
        }
        match closes(kind, self.graph.zone()) {
            Some(stop) => {
                refold(&mut self.graph, &mut self.slots, sentence)?;
                Ok(Tried::Added(stop, Some(self.graph.tip())))
            }
            None => {
                let id = grow(&mut self.graph, &mut self.slots, sentence)?;
                Ok(Tried::Added(id, None))
            }
        }
    }

    /// The sentence with an id goes, with what has to go with it; the ids that went are listed. It takes no memory.
    pub fn remove(&mut self, id: u64, gone: &mut SparedSequence<u64>) -> Removal
        requires room { length (ids self.old.document) ≤ gone.old.spare }
        ensures removed { IsRemoval result (remove self.old.document id) self.old.document self.new.document }
        ensures gone { gone.new.items ≡ gone.old.items ++ lost self.old.document self.new.document }
        ensures room { length (ids self.new.document) ≤ gone.new.spare }
        ensures notes { Fewer self.old.notes self.new.notes }
    {
        documents_are_lines();
        let from = gone.len();
        let removal = remove(&mut self.graph, id, gone);
        if let Removal::Removed(_) = removal {
            leave(&self.graph, &mut self.slots, &gone.as_slice()[from..]);
        }
        removal
    }

    /// The verdict of the sentence with an id is told: its text, or None where it is good.
    pub fn tell(&mut self, id: u64, text: Option<SharedBytes>)
        requires live { has id (ids self.old.document) ≡ true }
        requires outside { Outside id self.old.document }
        ensures document { self.new.document ≡ tell (id ∷ []) self.old.document }
        ensures notes { (n : Note) → Member n self.new.notes → Member n self.old.notes ⊎ (n ≡ record { id = id; text = text }) }
    {
        self.slots.tell(id, text);
    }

    /// What is kept of an id: Some where it is live, and then its sentence and whether that is told.
    pub fn entry(&self, id: u64) -> Option<&Slot>
        ensures live { has id (ids self.now.document) ≡ true → IsSome result }
        ensures entry { Every (λ e. e.id ≡ id → entry_of id (option_map (λ s. s.now) result) ≡ e) (live self.now.document) }
    {
        self.slots.at(id)
    }
}

/// Why a sentence of this kind isn't added.
fn refusal(graph: &Graph, full: bool, offset: u64, kind: Kind) -> Option<Exn>
    ensures { result ≡ refusal_by kind graph.now.focus full offset }
{
    match kind {
        Kind::Plain | Kind::Begin => match graph.open_lemma() {
            Some(lemma) => Some(Exn::ProofOpen(offset, lemma)),
            None => too_many(full, offset),
        },
        Kind::Inner => match graph.open_lemma() {
            Some(_) => too_many(full, offset),
            None => Some(Exn::NoOpenProof(offset)),
        },
        Kind::Close(closer) => match (graph.zone(), graph.open_lemma()) {
            (Some((_, stop)), _) => bad_closer(closer, offset, stop),
            (None, Some(_)) => too_many(full, offset),
            (None, None) => Some(Exn::NoOpenProof(offset)),
        },
    }
}

/// The refusal where no further sentence gets an id.
fn too_many(full: bool, offset: u64) -> Option<Exn>
    ensures { result ≡ too_many full offset }
{
    if full {
        Some(Exn::TooMany(offset))
    } else {
        None
    }
}

/// The refusal of a closer that can't close a zone with this kept closer.
fn bad_closer(closer: Closer, offset: u64, stop: u64) -> Option<Exn>
    ensures { result ≡ bad_closer closer offset stop }
{
    match closer {
        Closer::Qed | Closer::Admitted => None,
        Closer::Defined | Closer::Abort => Some(Exn::BadCloser(offset, stop)),
    }
}

/// The kept closer's id, where a closer comes in a zone.
fn closes(kind: Kind, zone: Option<(u64, u64)>) -> Option<u64>
    ensures { result ≡ closes kind zone }
{
    match (kind, zone) {
        (Kind::Close(_), Some((_, stop))) => Some(stop),
        _ => None,
    }
}

/// What a sentence of a kind is to the graph.
fn step_of(kind: Kind) -> Step
    ensures { result ≡ step_of kind }
{
    match kind {
        Kind::Plain | Kind::Inner => Step::Plain,
        Kind::Begin => Step::Begin,
        Kind::Close(closer) => Step::Close(reopens(closer)),
    }
}

/// Whether a block with such a closer can be opened again.
fn reopens(closer: Closer) -> bool
    ensures { result ≡ theory.reopens (theory.close (closer_of closer)) }
{
    matches!(closer, Closer::Qed | Closer::Admitted)
}

/// Whether a block with such a closer is checked apart.
fn delegates(closer: Closer) -> bool
    ensures { result ≡ theory.delegates (theory.close (closer_of closer)) }
{
    !matches!(closer, Closer::Defined)
}

/// A sentence comes in behind the cursor with the next id, which is answered. With `Err` nothing changes.
fn grow(graph: &mut Graph, slots: &mut Slots, sentence: Sentence) -> Result<u64, NoMemory>
    requires { Fits (length slots.old) (step_of (kind_in sentence)) graph.old }
    ensures id { IfOk result (λ id. id ≡ length slots.old) }
    ensures line { OnOk result (graph.new ≡ stepped (length slots.old) (step_of (kind_in sentence)) graph.old) }
    ensures slots { OnOk result ((i : ℕ) → slot_at slots.new i ≡ grown_at (kind_in sentence) graph.old.focus sentence slots.old i) }
    ensures length { OnOk result (length slots.new ≡ suc (length slots.old)) }
    ensures graph { OnErr result (graph.new ≡ graph.old) }
    ensures kept { OnErr result (slots.new ≡ slots.old) }
{
    let id = slots.next();
    let kind = sentence.kind();
    let zone = graph.zone();
    slots.push(sentence)?;
    if add_at_cursor(graph, id, step_of(kind)).is_err() {
        slots.pop();
        return Err(NoMemory);
    }
    match (kind, zone) {
        (Kind::Close(closer), _) => {
            if delegates(closer) {
                slots.lower_all(graph.closed_inside());
            }
        }
        (Kind::Inner, Some((_, stop))) => slots.lower(stop),
        _ => {}
    }
    Ok(id)
}

/// A closer closes the zone: it takes the kept closer's id, and what is inside of the block isn't told any more. It takes
/// no memory.
fn refold(graph: &mut Graph, slots: &mut Slots, sentence: Sentence) -> Result<u64, NoMemory>
    requires zone { InZone graph.old.focus }
    requires kept { stop_in graph.old.focus < length slots.old }
    ensures ok { IsOk result }
    ensures line { graph.new ≡ refolded graph.old }
    ensures slots { (i : ℕ) → slot_at slots.new i ≡ refolded_at graph.old.focus sentence slots.old i }
    ensures length { length slots.new ≡ length slots.old }
{
    slots.lower_all(graph.open_inside());
    let stop = close_zone(graph)?;
    slots.replace(stop, sentence);
    Ok(stop)
}

/// These sentences went; and a kept closer isn't told any more.
fn leave(graph: &Graph, slots: &mut Slots, gone: &[u64])
    ensures slots { (i : ℕ) → slot_at slots.new i ≡ left_at gone.now graph.now.focus slots.old i }
    ensures length { length slots.new ≡ length slots.old }
{
    slots.clear_all(gone);
    if let Some((_, stop)) = graph.zone() {
        slots.lower(stop);
    }
}
