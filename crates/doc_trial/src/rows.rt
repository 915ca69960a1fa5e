//! A row, and its answer.
ghost use Rattle.std.specs.Prelude.{◌≡◌, ◌<◌, [], IfOk};
ghost use Rattle.doc_theory.specs.Histories.{IsNumbered};
ghost use Rattle.doc_core.specs.Kept.{IsReserved};

use base_core::{Bytes, NoMemory, SharedBytes, Steps};
use doc_core::{Document, LIVE_LIMIT};
use serapi_cmd::{AddOpts, Command, Request, Tagged};
use std::alloc::Global;
use std::marker::Brand;
use std::sync::ledger::{Blank, Ledger};
use stm_base::{Out, Sink};

/// Puts what a document of a row's limit answers to an Add of the row's text.
pub fn answer<K: Sink>(alloc: Global, row: &str, out: &mut Out<K>) -> Result<(), NoMemory> {
    let (limit, text) = row.split_once('\t').unwrap_or((row, ""));
    let limit = limit.parse::<u64>().unwrap_or(0).min(LIVE_LIMIT);
    let mut document = Document::new(alloc, limit)?;
    document.reserve()?;
    let request = add_of(alloc, text)?;
    answer_first::<Brand, K>(alloc, &mut document, request, out, Blank::new(1))
}

/// An Add of a text, without options.
fn add_of(alloc: Global, text: &str) -> Result<Request, NoMemory>
    ensures { IfOk result (λ request. IsNumbered 0 request) }
{
    let opts = AddOpts {
        ontop: None,
        lim: None,
        verb: false,
    };
    Ok(Request::Do(Tagged {
        tag: SharedBytes::from_slice(alloc, b"0")?,
        command: Command::Add(opts, Bytes::from_slice(alloc, text.as_bytes())?),
    }))
}

/// Has a document answer its first request.
fn answer_first<L: Ledger, K: Sink>(
    alloc: Global,
    document: &mut Document,
    request: Request,
    out: &mut Out<K>,
    blank: Blank,
) -> Result<(), NoMemory>
    requires name { blank.name ≡ L.name }
    requires parts { blank.parts ≡ L.parts }
    requires whole { 0 < L.parts }
    requires first { document.old.history ≡ [] }
    requires reserved { IsReserved document.old }
    requires numbered { IsNumbered 0 request }
{
    let mut steps: Steps<L> = Steps::new(blank);
    document.command(alloc, 0, request, out, &mut steps)?;
    Ok(())
}
