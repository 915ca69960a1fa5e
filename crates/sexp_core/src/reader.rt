//! The items of an input that comes in pieces.
ghost use Rattle.std.specs.Prelude.{◌≡◌, ◌+◌, ◌≤◌, ◌^◌, length, drop, false, None, IfOk, IfSome, OnErr};
ghost use Rattle.sexp_theory.specs.Items.{fed, fresh, most_bytes, next_item};
ghost use Rattle.sexp_theory.specs.Written.{IsOfBytes, IsShallow};
ghost use Rattle.sexp_core.specs.Readers.{Finishes, Gives, item_meaning};

use crate::item::{Finish, Item};
use crate::machine::Machine;
use crate::scan::{Front, Scanned, behind_line, first_item, scan};
use base_core::NoMemory;
use sexp_theory::InputEnd;
use std::alloc::Global;
use std::marker::Model;

/// The most bytes of an item.
const MOST_BYTES: u64 = 1_048_576;

/// Reads the items of an input that is fed in pieces, however it is cut.
///
/// Contracts see the bytes that were fed and are in no item yet, the offset of the first of them in all that was
/// fed, whether they begin in a line that is passed over behind a bad place (or in a comment), and the most bytes
/// that an item may have. No clause says how often a byte is looked at: the bytes of an item that isn't whole yet
/// are not looked at again because more is fed, but after `NoMemory`. Nor does one say how much memory is held: behind
/// a None the reader keeps at most twice the bytes of the item that isn't whole.
#[derive(Drop)]
pub struct Reader {
    bytes: Vec<u8>,
    front: Front,
    machine: Machine,
    limit: u64,
}

impl Model for Reader {
    ghost use Rattle.sexp_core.specs.Readers.{Reading};
    ghost use Rattle.sexp_core.specs.Progress.{IsFront, unread_from};

    ghost Value = { Reading };

    ghost view = { λ r. record { unread = unread_from r.bytes.items r.front; limit = r.limit } };

    ghost invariant = { λ r. IsFront r.limit r.bytes.items r.front r.machine };
}

impl Reader {
    /// A reader that nothing was fed to. An item has at most 1,048,576 bytes.
    pub fn new(alloc: Global) -> Result<Reader, NoMemory>
        ensures { IfOk result (λ r. r ≡ record { unread = fresh; limit = most_bytes }) }
    {
        Reader::with_limit(alloc, MOST_BYTES)
    }

    /// The same with another limit for an item, in bytes.
    pub(crate) fn with_limit(alloc: Global, limit: u64) -> Result<Reader, NoMemory>
        ensures { IfOk result (λ r. r ≡ record { unread = fresh; limit = limit }) }
    {
        Ok(Reader {
            bytes: Vec::new(alloc),
            front: Front {
                start: 0,
                at: 0,
                skipping: false,
                seen: 0,
            },
            machine: Machine::new(alloc),
            limit,
        })
    }

    /// Appends a piece of the input. At most 2^63 bytes are fed in all. After `NoMemory` nothing of the piece is
    /// fed, and the reader is as before.
    pub fn feed(&mut self, piece: &[u8]) -> Result<(), NoMemory>
        requires { self.old.unread.at + length self.old.unread.bytes + length piece.now ≤ 2 ^ 63 }
        ensures fed { IfOk result (λ _. self.new ≡ record { unread = fed self.old.unread piece.now; limit = self.old.limit }) }
        ensures no_memory { OnErr result (self.new ≡ self.old) }
    {
        self.compact();
        self.bytes.extend_from_slice(piece)?;
        Ok(())
    }

    /// Lets go of bytes that were given, where they are more than those that weren't: then what is kept is at most
    /// twice what is unread.
    fn compact(&mut self)
        ensures { self.new ≡ self.old }
    {
        self.front.start = compact(&mut self.bytes, self.front.start);
    }

    /// How many bytes were fed in all.
    pub fn fed(&self) -> u64
        ensures { result ≡ self.now.unread.at + length self.now.unread.bytes }
    {
        self.front.at + (self.bytes.len() - self.front.start) as u64
    }

    /// The next item, or None exactly where what was fed holds no further whole item; then the blanks, comments and
    /// passed over lines at the front are gone. A value that is given may be written (`of_bytes`, `shallow`). After
    /// `NoMemory` the reader is as before.
    pub fn next(&mut self) -> Result<Option<Item>, NoMemory>
        ensures given { IfOk result (λ item. Gives self.old item self.new) }
        ensures of_bytes { IfOk result (λ item. IfSome item (λ i. IsOfBytes (item_meaning i))) }
        ensures shallow { IfOk result (λ item. IfSome item (λ i. IsShallow (item_meaning i))) }
        ensures no_more_fed { self.new.unread.at + length self.new.unread.bytes ≤ self.old.unread.at + length self.old.unread.bytes }
        ensures no_memory { OnErr result (self.new ≡ self.old) }
    {
        let item = self.take_item()?;
        if item.is_none() {
            self.compact();
        }
        Ok(item)
    }

    /// The same, with the bytes kept where they are.
    fn take_item(&mut self) -> Result<Option<Item>, NoMemory>
        ensures given { IfOk result (λ item. Gives self.old item self.new) }
        ensures of_bytes { IfOk result (λ item. IfSome item (λ i. IsOfBytes (item_meaning i))) }
        ensures shallow { IfOk result (λ item. IfSome item (λ i. IsShallow (item_meaning i))) }
        ensures no_more_fed { self.new.unread.at + length self.new.unread.bytes ≤ self.old.unread.at + length self.old.unread.bytes }
        ensures no_memory { OnErr result (self.new ≡ self.old) }
    {
        let front = self.front;
        let (gap, item) = first_item(&self.bytes, front);
        let from = front.at + gap.len as u64;
        if item.is_empty() {
            self.front = unseen(front.start + gap.len, from, gap.in_line);
            return Ok(None);
        }
        match scan(&mut self.machine, item, front.seen, from, self.limit) {
            Err(error) => {
                self.machine.clear();
                self.front = unseen(front.start, front.at, front.skipping);
                Err(error)
            }
            Ok(Scanned::More) => {
                self.front = Front {
                    start: front.start + gap.len,
                    at: from,
                    skipping: false,
                    seen: item.len(),
                };
                Ok(None)
            }
            Ok(Scanned::Whole(value, to)) => {
                self.machine.clear();
                self.front = unseen(front.start + (to - front.at) as usize, to, false);
                Ok(Some(Item::Value(value, from, to)))
            }
            Ok(Scanned::Bad(kind, offset)) => {
                self.machine.clear();
                let before = offset.saturating_sub(front.at) as usize;
                self.front = behind_line(&self.bytes, front.start + before, offset);
                Ok(Some(Item::Bad(offset, kind)))
            }
        }
    }

    /// The last item of an input that ends here, and how it ends, asked once `next` has given None. The reader is used
    /// up, after `NoMemory` too.
    pub fn finish(mut self) -> Result<Finish, NoMemory>
        requires { next_item self.limit false self.unread ≡ None }
        ensures given { IfOk result (λ finish. Finishes self finish) }
        ensures of_bytes { IfOk result (λ finish. IfSome finish.last (λ i. IsOfBytes (item_meaning i))) }
        ensures shallow { IfOk result (λ finish. IfSome finish.last (λ i. IsShallow (item_meaning i))) }
    {
        let end = self.fed();
        let front = self.front;
        let (gap, item) = first_item(&self.bytes, front);
        let from = front.at + gap.len as u64;
        if item.is_empty() {
            return Ok(Finish {
                last: None,
                ended: InputEnd::Clean,
            });
        }
        match scan(&mut self.machine, item, front.seen, from, self.limit)? {
            Scanned::More => {}
            _ => unreachable!(),
        }
        if !self.machine.is_outer_run() {
            return Ok(Finish {
                last: None,
                ended: InputEnd::Truncated(from),
            });
        }
        Ok(Finish {
            last: Some(Item::Value(self.machine.take_atom(), from, end)),
            ended: InputEnd::Clean,
        })
    }
}

/// Nothing was looked at.
fn unseen(start: usize, at: u64, skipping: bool) -> Front
    ensures { result ≡ record { start = start; at = at; skipping = skipping; seen = 0 } }
{
    Front {
        start,
        at,
        skipping,
        seen: 0,
    }
}

/// Moves the bytes from `start` on to the front where more bytes stand before them than are moved, and says where
/// they are then. So all moves together cost no more than the bytes that were read.
fn compact(bytes: &mut Vec<u8>, start: usize) -> usize
    requires { start ≤ length bytes.old.items }
    ensures kept { drop result bytes.new.items ≡ drop start bytes.old.items }
    ensures within { result ≤ length bytes.new.items }
{
    let kept = bytes.len() - start;
    if start <= kept {
        return start;
    }
    bytes.copy_within(start.., 0);
    bytes.truncate(kept);
    0
}
