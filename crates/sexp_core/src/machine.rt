//! The bytes of one item, taken one after another.
ghost use Rattle.std.specs.Prelude.{◌≡◌, ◌<◌, ◌∷◌, [], true, false, IfOk, MatchOption};
ghost use Rattle.std.specs.Char.{digit_value};
ghost use Rattle.sexp_theory.specs.Values.{atom};
ghost use Rattle.sexp_theory.specs.Signs.{is_decimal, is_delimiter, is_hexadecimal};
ghost use Rattle.sexp_theory.specs.Machine.{add_byte, closes, ends_value, in_mode, is_behind, is_outer_run, on, opens, run_mode, start};
ghost use Rattle.sexp_theory.specs.Machine.{step, step_between, step_decimal1, step_decimal2, step_escaped, step_hash, step_hexadecimal0};
ghost use Rattle.sexp_theory.specs.Machine.{step_hexadecimal1, step_quoted, step_run};
ghost use Rattle.sexp_core.specs.Sexp.{meaning};
ghost use Rattle.sexp_core.specs.State.{Makes, lists_of, mode_of, state_of};

use crate::mode::{Mode, Nibble};
use crate::sexp::{Sexp, Sexps};
use base_core::{Bytes, NoMemory};
use sexp_theory::BadKind;
use std::alloc::Global;
use std::mem;

/// Lists inside one another, at the most.
const MOST_LISTS: usize = 256;

/// The bytes of an item so far: where they end, the bytes of the atom there, and the values of each list that is
/// open, the innermost last.
#[derive(Drop)]
pub(crate) struct Machine {
    pub(crate) mode: Mode,
    pub(crate) atom: Vec<u8>,
    pub(crate) lists: Vec<Sexps>,
}

/// What a byte makes of an item: it goes on, it ends, or a bad place is shown, so many bytes before this one.
#[derive(Drop)]
pub(crate) enum Step {
    On,
    Whole(Sexp),
    Shown(BadKind, u8),
}

impl Machine {
    pub(crate) fn new(alloc: Global) -> Machine
        ensures { state_of result ≡ start }
    {
        Machine {
            mode: Mode::Between,
            atom: Vec::new(alloc),
            lists: Vec::new(alloc),
        }
    }

    /// Forgets the item's bytes.
    pub(crate) fn clear(&mut self)
        ensures { state_of self.new ≡ start }
    {
        self.mode = Mode::Between;
        self.atom.clear();
        self.lists.clear();
    }

    /// Whether the item so far is a run outside of lists.
    pub(crate) fn is_outer_run(&self) -> bool
        ensures { result ≡ is_outer_run (state_of self.now).mode (state_of self.now).lists }
    {
        matches!(self.mode, Mode::Run | Mode::Hash) && self.lists.is_empty()
    }

    /// Whether the byte is none of the item: it ends a run outside of lists.
    pub(crate) fn ends_before(&self, byte: u8) -> bool
        ensures { result ≡ is_behind (state_of self.now) byte }
    {
        self.is_outer_run() && is_delimiter(byte)
    }

    /// The atom, which is then empty.
    pub(crate) fn take_atom(&mut self) -> Sexp
        ensures value { meaning result ≡ atom self.old.atom.items }
        ensures rest { self.new ≡ record self.old { atom = self.new.atom } }
        ensures empty { self.new.atom.items ≡ [] }
    {
        let alloc = *self.atom.allocator();
        let bytes = mem::replace(&mut self.atom, Vec::new(alloc));
        Sexp::Atom(Bytes::from_vec(bytes))
    }

    fn goes_to(&mut self, mode: Mode) -> Step
        ensures { Makes (in_mode (mode_of mode) (state_of self.old)) result self.new }
    {
        self.mode = mode;
        Step::On
    }

    fn add(&mut self, mode: Mode, byte: u8) -> Result<Step, NoMemory>
        ensures { IfOk result (λ s. Makes (add_byte (mode_of mode) byte (state_of self.old)) s self.new) }
    {
        self.atom.push(byte)?;
        self.mode = mode;
        Ok(Step::On)
    }

    /// A value ends inside the open lists.
    fn end_value(&mut self, value: Sexp) -> Result<Step, NoMemory>
        ensures { IfOk result (λ s. Makes (ends_value (meaning value) (lists_of self.old)) s self.new) }
    {
        match self.lists.pop() {
            None => Ok(Step::Whole(value)),
            Some(mut list) => {
                list.push(value)?;
                self.lists.push(list)?;
                self.atom.clear();
                Ok(self.goes_to(Mode::Between))
            }
        }
    }

    fn open(&mut self) -> Result<Step, NoMemory>
        ensures { IfOk result (λ s. Makes (opens (lists_of self.old)) s self.new) }
    {
        if self.lists.len() >= MOST_LISTS {
            return Ok(Step::Shown(BadKind::TooDeep, 0));
        }
        let alloc = *self.lists.allocator();
        self.lists.push(Vec::new(alloc))?;
        self.atom.clear();
        Ok(self.goes_to(Mode::Between))
    }

    fn close(&mut self) -> Result<Step, NoMemory>
        ensures { IfOk result (λ s. Makes (closes (lists_of self.old)) s self.new) }
    {
        match self.lists.pop() {
            None => Ok(Step::Shown(BadKind::StrayClose, 0)),
            Some(list) => self.end_value(Sexp::List(list)),
        }
    }

    fn begin_run(&mut self, byte: u8) -> Result<Step, NoMemory>
        ensures { IfOk result (λ s. Makes (on (record { mode = run_mode byte; atom = byte ∷ []; lists = lists_of self.old })) s self.new) }
    {
        self.atom.clear();
        self.add(run_mode(byte), byte)
    }

    fn step_between(&mut self, byte: u8) -> Result<Step, NoMemory>
        ensures { IfOk result (λ s. Makes (step_between (lists_of self.old) byte) s self.new) }
    {
        match byte {
            b'\t' | b'\n' | 12 | b'\r' | b' ' => Ok(self.begin(Mode::Between)),
            b';' => Ok(self.begin(Mode::Commented)),
            b'(' => self.open(),
            b')' => self.close(),
            b'"' => Ok(self.begin(Mode::Quoted)),
            _ => self.begin_run(byte),
        }
    }

    /// Goes on without an atom.
    fn begin(&mut self, mode: Mode) -> Step
        ensures { Makes (on (record { mode = mode_of mode; atom = []; lists = lists_of self.old })) result self.new }
    {
        self.atom.clear();
        self.goes_to(mode)
    }

    fn step_run(&mut self, byte: u8) -> Result<Step, NoMemory>
        ensures { IfOk result (λ s. Makes (step_run (state_of self.old) byte) s self.new) }
    {
        if !is_delimiter(byte) {
            return self.add(run_mode(byte), byte);
        }
        let atom = self.take_atom();
        match self.end_value(atom)? {
            Step::On => self.step_between(byte),
            whole => Ok(whole),
        }
    }

    fn step_hash(&mut self, byte: u8) -> Result<Step, NoMemory>
        ensures { IfOk result (λ s. Makes (step_hash (state_of self.old) byte) s self.new) }
    {
        if matches!(byte, b';' | b'|') {
            return Ok(Step::Shown(BadKind::HashBar, 1));
        }
        self.step_run(byte)
    }

    fn step_quoted(&mut self, byte: u8) -> Result<Step, NoMemory>
        ensures { IfOk result (λ s. Makes (step_quoted (state_of self.old) byte) s self.new) }
    {
        match byte {
            b'"' => {
                let atom = self.take_atom();
                self.end_value(atom)
            }
            b'\\' => Ok(self.goes_to(Mode::Escaped)),
            _ => self.add(Mode::Quoted, byte),
        }
    }

    fn step_escaped(&mut self, byte: u8) -> Result<Step, NoMemory>
        ensures { IfOk result (λ s. Makes (step_escaped (state_of self.old) byte) s self.new) }
    {
        match byte {
            b'n' => self.add(Mode::Quoted, b'\n'),
            b't' => self.add(Mode::Quoted, b'\t'),
            b'r' => self.add(Mode::Quoted, b'\r'),
            b'b' => self.add(Mode::Quoted, 8),
            b'"' | b'\\' => self.add(Mode::Quoted, byte),
            b'x' => Ok(self.goes_to(Mode::Hexadecimal0)),
            b'0'..=b'2' => Ok(self.goes_to(Mode::Decimal1(byte - b'0'))),
            _ => Ok(Step::Shown(BadKind::BadEscape, 1)),
        }
    }

    fn step_decimal1(&mut self, number: u8, byte: u8) -> Result<Step, NoMemory>
        ensures { IfOk result (λ s. Makes (step_decimal1 number (state_of self.old) byte) s self.new) }
    {
        match decimal(byte) {
            Some(digit) if u32::from(number) * 100 + u32::from(digit) * 10 < 256 => {
                Ok(self.goes_to(Mode::Decimal2(number * 10 + digit)))
            }
            _ => Ok(Step::Shown(BadKind::BadEscape, 2)),
        }
    }

    fn step_decimal2(&mut self, number: u8, byte: u8) -> Result<Step, NoMemory>
        ensures { IfOk result (λ s. Makes (step_decimal2 number (state_of self.old) byte) s self.new) }
    {
        match decimal(byte) {
            Some(digit) if u32::from(number) * 10 + u32::from(digit) < 256 => {
                self.add(Mode::Quoted, number * 10 + digit)
            }
            _ => Ok(Step::Shown(BadKind::BadEscape, 3)),
        }
    }

    fn step_hexadecimal0(&mut self, byte: u8) -> Step
        ensures { Makes (step_hexadecimal0 (state_of self.old) byte) result self.new }
    {
        match hexadecimal(byte) {
            Some(digit) => self.goes_to(Mode::Hexadecimal1(digit)),
            None => Step::Shown(BadKind::BadEscape, 2),
        }
    }

    fn step_hexadecimal1(&mut self, first: Nibble, byte: u8) -> Result<Step, NoMemory>
        ensures { IfOk result (λ s. Makes (step_hexadecimal1 first.value (state_of self.old) byte) s self.new) }
    {
        match hexadecimal(byte) {
            Some(digit) => self.add(Mode::Quoted, first.value * 16 + digit.value),
            None => Ok(Step::Shown(BadKind::BadEscape, 3)),
        }
    }

    /// Takes one byte more. After `NoMemory` the item has to be forgotten.
    pub(crate) fn step(&mut self, byte: u8) -> Result<Step, NoMemory>
        ensures { IfOk result (λ s. Makes (step (state_of self.old) byte) s self.new) }
    {
        match self.mode {
            Mode::Between => self.step_between(byte),
            Mode::Commented if byte == b'\n' => Ok(self.goes_to(Mode::Between)),
            Mode::Commented => Ok(self.goes_to(Mode::Commented)),
            Mode::Run => self.step_run(byte),
            Mode::Hash => self.step_hash(byte),
            Mode::Quoted => self.step_quoted(byte),
            Mode::Escaped => self.step_escaped(byte),
            Mode::Decimal1(number) => self.step_decimal1(number, byte),
            Mode::Decimal2(number) => self.step_decimal2(number, byte),
            Mode::Hexadecimal0 => Ok(self.step_hexadecimal0(byte)),
            Mode::Hexadecimal1(first) => self.step_hexadecimal1(first, byte),
        }
    }
}

fn is_delimiter(byte: u8) -> bool
    ensures { result ≡ is_delimiter byte }
{
    matches!(
        byte,
        b'\t' | b'\n' | 12 | b'\r' | b' ' | b'"' | b'(' | b')' | b';'
    )
}

fn run_mode(byte: u8) -> Mode
    ensures { mode_of result ≡ run_mode byte }
{
    if byte == b'#' { Mode::Hash } else { Mode::Run }
}

fn decimal(byte: u8) -> Option<u8>
    ensures { MatchOption result (is_decimal byte ≡ false) (λ d. (is_decimal byte ≡ true) × (d ≡ digit_value byte) × (d < 10)) }
{
    match byte {
        b'0'..=b'9' => Some(byte - b'0'),
        _ => None,
    }
}

fn hexadecimal(byte: u8) -> Option<Nibble>
    ensures { MatchOption result (is_hexadecimal byte ≡ false) (λ d. (is_hexadecimal byte ≡ true) × (d.value ≡ digit_value byte)) }
{
    let value = match byte {
        b'0'..=b'9' => byte - b'0',
        b'a'..=b'f' => byte - b'a' + 10,
        b'A'..=b'F' => byte - b'A' + 10,
        _ => return None,
    };
    Some(Nibble { value })
}
