//! The serving loop, over any source and any party.
ghost use Rattle.std.specs.Prelude.{◌≡◌, ◌+◌, ◌≤◌, ◌<◌, ◌^◌, [], false, length, take, None, IfOk, OnErr};
ghost use Rattle.std.specs.Io.KnownBytes.{Consumes, IsAtEnd, Keeps};
ghost use Rattle.stm_base.specs.Counts.{HasCause};
ghost use Rattle.sexp_theory.specs.Items.{end_offset, fed, most_bytes, next_item};
ghost use Rattle.sexp_core.specs.Readers.{item_meaning};
ghost use Rattle.serapi_cmd.specs.Requests.{request_of};
ghost use Rattle.session_run.specs.Items.{has_quit};
ghost use Rattle.session_run.specs.Serving.{Finishes, IsIdle, Passes, Served, Takes, Unless, UnlessLost, between, midway, stop_after};

use crate::party::{Answered, Loss, Party};
use base_core::NoMemory;
use serapi_cmd::{Request, request_of_bad_place, request_of_value};
use sexp_core::{Finish, InputEnd, Item, Reader};
use std::alloc::Global;
use stm_base::{Failed, Source};

/// The most bytes of input that are taken.
pub const INPUT_LIMIT: u64 = 4_294_967_296;

/// How many bytes are asked for at a time.
const PIECE: usize = 4096;

/// Why the serving stopped.
#[derive(Clone, Copy, Debug, PartialEq, Eq)]
pub(crate) enum Stop {
    /// Quit was answered.
    Quit,
    /// The input ended so, and there was no Quit.
    End(InputEnd),
    /// A read failed.
    Fault,
    /// So many bytes were taken as are taken at most.
    Limit,
    /// No more could be answered.
    Lost(Loss),
}

/// What was served of a source.
#[derive(Clone, Copy, Debug)]
pub(crate) struct Service {
    pub stop: Stop,
    pub taken: u64,
    pub at_end: bool,
}

/// Serves a source by a party, which then ends.
pub(crate) fn serve_party<S: Source, P: Party>(
    alloc: Global,
    source: &mut S,
    party: &mut P,
) -> Service
    requires none { P.asked party.old ≡ [] }
    requires whole { P.left party.old ≡ false }
    requires ready { P.ready party.old }
    requires clean { P.clean party.old }
    ensures served { Served (between (S.left source.old) (S.left source.new) (S.faults source.old) (S.faults source.new))
        result (P.asked party.new) (P.left party.new) }
    ensures clean { UnlessLost result.stop (P.clean party.new) }
    ensures ended { P.ended party.new }
    ensures goes_on { P.goes_on party.old party.new }
{
    let service = serve_source(alloc, source, party);
    party.end();
    service
}

/// Takes piece after piece, and answers the whole items of each before the next is taken. Each turn takes at
/// least one byte, ends or fails.
fn serve_source<S: Source, P: Party>(alloc: Global, source: &mut S, party: &mut P) -> Service
    requires none { P.asked party.old ≡ [] }
    requires whole { P.left party.old ≡ false }
    requires ready { P.ready party.old }
    requires clean { P.clean party.old }
    ensures served { Served (between (S.left source.old) (S.left source.new) (S.faults source.old) (S.faults source.new))
        result (P.asked party.new) (P.left party.new) }
    ensures clean { UnlessLost result.stop (P.clean party.new) }
    ensures ready { P.ready party.new }
    ensures goes_on { P.goes_on party.old party.new }
{
    let mut taken = 0u64;
    let Ok(mut reader) = Reader::new(alloc) else {
        return Service {
            stop: Stop::Lost(Loss::WantOfMemory),
            taken,
            at_end: false,
        };
    };
    let mut buf = [0u8; PIECE];
    'pieces: while taken < INPUT_LIMIT {
        let most = (INPUT_LIMIT - taken).min(PIECE as u64) as usize;
        let Ok(n) = read_front(source, &mut buf, most) else {
            return Service {
                stop: Stop::Fault,
                taken,
                at_end: false,
            };
        };
        if n == 0 {
            return Service {
                stop: answer_end(alloc, reader, party),
                taken,
                at_end: true,
            };
        }
        taken += n as u64;
        let stop = match answer_piece(alloc, &mut reader, &buf[..n], party) {
            Answered::More => continue,
            Answered::Quit => Stop::Quit,
            Answered::Lost(loss) => Stop::Lost(loss),
        };
        return Service {
            stop,
            taken,
            at_end: false,
        };
    }
    Service {
        stop: Stop::Limit,
        taken,
        at_end: false,
    }
}

/// Reads at most so many bytes to the front of a buffer.
fn read_front<S: Source>(source: &mut S, buf: &mut [u8], most: usize) -> Result<usize, Failed>
    requires some { 0 < most }
    requires room { most ≤ length buf.old }
    ensures bound { IfOk result (λ n. n ≤ most) }
    ensures bytes { IfOk result (λ n. Consumes (S.left source.old) (S.left source.new) (take n buf.new)) }
    ensures end { IfOk result (λ n. n ≡ 0 → IsAtEnd (S.left source.new)) }
    ensures err { OnErr result (Keeps (S.left source.old) (S.left source.new)) }
    ensures cause { HasCause (S.faults source.old) (S.faults source.new) result }
{
    source.read(&mut buf[..most])
}

/// Answers the items that a piece of the input makes whole.
fn answer_piece<P: Party>(
    alloc: Global,
    reader: &mut Reader,
    piece: &[u8],
    party: &mut P,
) -> Answered
    requires room { end_offset reader.old.unread + length piece.now ≤ 2 ^ 63 }
    requires limit { reader.old.limit ≡ most_bytes }
    requires going { has_quit (P.asked party.old) ≡ false }
    requires whole { P.left party.old ≡ false }
    requires ready { P.ready party.old }
    requires clean { P.clean party.old }
    ensures passes { Passes result (midway (P.asked party.old) (fed reader.old.unread piece.now))
        (midway (P.asked party.new) reader.new.unread) (P.left party.new) }
    ensures idle { result ≡ Answered.More → IsIdle reader.new (end_offset reader.old.unread + length piece.now) }
    ensures clean { Unless result (P.clean party.new) }
    ensures ready { P.ready party.new }
    ensures goes_on { P.goes_on party.old party.new }
{
    match reader.feed(piece) {
        Ok(_) => answer_items(alloc, reader, party),
        Err(_) => Answered::Lost(Loss::WantOfMemory),
    }
}

/// Answers each whole item that was fed.
fn answer_items<P: Party>(alloc: Global, reader: &mut Reader, party: &mut P) -> Answered
    requires limit { reader.old.limit ≡ most_bytes }
    requires going { has_quit (P.asked party.old) ≡ false }
    requires whole { P.left party.old ≡ false }
    requires ready { P.ready party.old }
    requires clean { P.clean party.old }
    ensures passes { Passes result (midway (P.asked party.old) reader.old.unread)
        (midway (P.asked party.new) reader.new.unread) (P.left party.new) }
    ensures idle { result ≡ Answered.More → IsIdle reader.new (end_offset reader.old.unread) }
    ensures clean { Unless result (P.clean party.new) }
    ensures ready { P.ready party.new }
    ensures goes_on { P.goes_on party.old party.new }
{
    'items: loop {
        match reader.next() {
            Err(_) => return Answered::Lost(Loss::WantOfMemory),
            Ok(None) => return Answered::More,
            Ok(Some(item)) => match answer_item(alloc, item, party) {
                Answered::More => {}
                Answered::Quit => return Answered::Quit,
                Answered::Lost(loss) => return Answered::Lost(loss),
            },
        }
    }
}

/// Answers one item.
fn answer_item<P: Party>(alloc: Global, item: Item, party: &mut P) -> Answered
    requires going { has_quit (P.asked party.old) ≡ false }
    requires whole { P.left party.old ≡ false }
    requires ready { P.ready party.old }
    ensures takes { Takes result (P.asked party.old)
        (request_of (length (P.asked party.old)) (item_meaning item)) (P.asked party.new) (P.left party.new) }
    ensures clean { Unless result (P.clean party.new) }
    ensures ready { P.ready party.new }
    ensures goes_on { P.goes_on party.old party.new }
{
    let number = party.next_number();
    let Ok(request) = read_request(alloc, item, number) else {
        return Answered::Lost(Loss::WantOfMemory);
    };
    party.answer(alloc, request)
}

/// The request that the item with a number is.
fn read_request(alloc: Global, item: Item, number: u64) -> Result<Request, NoMemory>
    ensures { IfOk result (λ request. request ≡ request_of number (item_meaning item)) }
{
    match item {
        Item::Value(value, first, _) => request_of_value(alloc, &value, number, first),
        Item::Bad(offset, kind) => Ok(request_of_bad_place(kind, number, offset)),
    }
}

/// Answers the item that the end of the input makes whole, if there is one.
fn answer_end<P: Party>(alloc: Global, reader: Reader, party: &mut P) -> Stop
    requires none { next_item most_bytes false reader.unread ≡ None }
    requires limit { reader.limit ≡ most_bytes }
    requires going { has_quit (P.asked party.old) ≡ false }
    requires whole { P.left party.old ≡ false }
    requires ready { P.ready party.old }
    requires clean { P.clean party.old }
    ensures finishes { Finishes result (midway (P.asked party.old) reader.unread) (P.asked party.new) (P.left party.new) }
    ensures clean { UnlessLost result (P.clean party.new) }
    ensures ready { P.ready party.new }
    ensures goes_on { P.goes_on party.old party.new }
{
    let Ok(Finish { last, ended }) = reader.finish() else {
        return Stop::Lost(Loss::WantOfMemory);
    };
    match last {
        None => Stop::End(ended),
        Some(item) => stop_after(answer_item(alloc, item, party), ended),
    }
}

/// Why the serving stops at the end of the input, behind what may have been its last item.
fn stop_after(answered: Answered, ended: InputEnd) -> Stop
    ensures { result ≡ stop_after answered ended }
{
    match answered {
        Answered::More => Stop::End(ended),
        Answered::Quit => Stop::Quit,
        Answered::Lost(loss) => Stop::Lost(loss),
    }
}
