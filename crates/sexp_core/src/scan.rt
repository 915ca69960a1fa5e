//! Looking for the end of an item, or for its bad place, from where the last look ended.
ghost use Rattle.std.specs.Prelude.{◌≡◌, ◌+◌, ◌-◌, ◌<◌, ◌≤◌, ◌^◌, ◌==◌, ◌&&◌, not, nat_le, length, drop, if◌then◌else◌, IfOk};
ghost use Rattle.std.specs.List.{position};
ghost use Rattle.sexp_theory.specs.Signs.{is_blank};
ghost use Rattle.sexp_theory.specs.Items.{behind_rest_of_line};
ghost use Rattle.sexp_core.specs.State.{state_of};
ghost use Rattle.sexp_core.specs.Progress.{Finds, IsFrontGap, Scans, unread_from};

use crate::machine::{Machine, Step};
use crate::sexp::Sexp;
use base_core::NoMemory;
use sexp_theory::BadKind;

/// How far a buffer was read: its bytes from `start` on are unread, the first of them at the offset `at` in all
/// that was fed, inside a line that is passed over or not; `seen` of them were looked at.
#[derive(Clone, Copy)]
pub(crate) struct Front {
    pub(crate) start: usize,
    pub(crate) at: u64,
    pub(crate) skipping: bool,
    pub(crate) seen: usize,
}

/// How many bytes stand in front of the first item, and whether they end in a line that is passed over.
#[derive(Clone, Copy)]
pub(crate) struct Gap {
    pub(crate) len: usize,
    pub(crate) in_line: bool,
}

/// What the bytes of an item show: that it goes on behind them, its value and the offset behind it, or a bad place.
#[derive(Drop)]
pub(crate) enum Scanned {
    More,
    Whole(Sexp, u64),
    Bad(BadKind, u64),
}

/// What stands in front of the first item of the unread bytes, and the bytes from that item on.
pub(crate) fn first_item(bytes: &[u8], front: Front) -> (Gap, &[u8])
    requires { front.start ≤ length bytes.now }
    ensures { Finds bytes.now front result.0 result.1.now }
{
    let unread = bytes_from(bytes, front.start);
    let gap = front_gap(unread, front.skipping);
    (gap, bytes_from(unread, gap.len))
}

/// The blanks, comments and passed over lines at the front.
pub(crate) fn front_gap(bytes: &[u8], skipping: bool) -> Gap
    ensures { IsFrontGap bytes.now skipping result }
{
    let mut in_line = skipping;
    for (len, byte) in bytes.iter().enumerate() {
        if in_line {
            in_line = *byte != b'\n';
        } else if *byte == b';' {
            in_line = true;
        } else if !is_blank(*byte) {
            return Gap { len, in_line };
        }
    }
    Gap {
        len: bytes.len(),
        in_line,
    }
}

/// Reads an item on, whose first byte is at `from` and whose first `seen` bytes the machine has taken.
pub(crate) fn scan(
    machine: &mut Machine,
    item: &[u8],
    seen: usize,
    from: u64,
    limit: u64,
) -> Result<Scanned, NoMemory>
    requires within { seen ≤ length item.now }
    requires room { from + length item.now ≤ 2 ^ 63 }
    ensures { IfOk result (λ s. Scans limit from seen (state_of machine.old) (drop seen item.now) s machine.new) }
{
    for n in seen..item.len() {
        let byte = item[n];
        let offset = from + n as u64;
        let is_behind = machine.ends_before(byte);
        if is_too_long(is_behind, limit, n) {
            return Ok(Scanned::Bad(BadKind::TooLong, offset));
        }
        match machine.step(byte)? {
            Step::On => {}
            Step::Whole(value) => return Ok(Scanned::Whole(value, behind(offset, is_behind))),
            Step::Shown(kind, back) => {
                return Ok(Scanned::Bad(kind, offset.saturating_sub(u64::from(back))));
            }
        }
    }
    Ok(Scanned::More)
}

/// Whether a byte is one of the item, and the first behind the longest.
fn is_too_long(is_behind: bool, limit: u64, n: usize) -> bool
    ensures { result ≡ (not is_behind && nat_le limit n) }
{
    !is_behind && limit <= n as u64
}

/// The offset behind an item, which ends before the byte at `place` or with it.
fn behind(offset: u64, is_behind: bool) -> u64
    requires { offset < 2 ^ 63 }
    ensures { result ≡ (if is_behind then offset else offset + 1) }
{
    if is_behind { offset } else { offset + 1 }
}

/// Where reading goes on behind the line of a bad place.
pub(crate) fn behind_line(bytes: &[u8], start: usize, offset: u64) -> Front
    requires within { start ≤ length bytes.now }
    requires room { offset + (length bytes.now - start) ≤ 2 ^ 63 }
    ensures rest { unread_from bytes.now result ≡ behind_rest_of_line offset (drop start bytes.now) }
    ensures within { result.start ≤ length bytes.now }
    ensures ends { result.at + (length bytes.now - result.start) ≤ offset + (length bytes.now - start) }
    ensures unseen { result.seen ≡ 0 }
{
    match line_end(bytes_from(bytes, start)) {
        Some(end) => Front {
            start: start + end + 1,
            at: offset + end as u64 + 1,
            skipping: false,
            seen: 0,
        },
        None => Front {
            start: bytes.len(),
            at: offset + (bytes.len() - start) as u64,
            skipping: true,
            seen: 0,
        },
    }
}

/// All bytes but the first `start`.
pub(crate) fn bytes_from(bytes: &[u8], start: usize) -> &[u8]
    requires { start ≤ length bytes.now }
    ensures { result.now ≡ drop start bytes.now }
{
    &bytes[start..]
}

fn line_end(bytes: &[u8]) -> Option<usize>
    ensures { result ≡ position (λ b. b == 10) bytes.now }
{
    bytes.iter().position(|byte| *byte == b'\n')
}

fn is_blank(byte: u8) -> bool
    ensures { result ≡ is_blank byte }
{
    matches!(byte, b'\t' | b'\n' | 12 | b'\r' | b' ')
}
