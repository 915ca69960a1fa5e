//! A text that is told piece by piece.

use base_core::NoMemory;
use std::alloc::Global;
use vern_parse::{RawGroup, RawName, Span};

/// What was told so far, and whether a piece was left out for which memory was wanting.
#[derive(Drop)]
pub struct Told {
    text: String,
    short: bool,
}

impl Told {
    pub fn new(alloc: Global) -> Told {
        Told {
            text: String::new(alloc),
            short: false,
        }
    }

    pub fn put(&mut self, piece: &str) {
        if self.text.push_str(piece).is_err() {
            self.short = true;
        }
    }

    pub fn byte(&mut self, byte: u8) {
        if self.text.push(char::from(byte)).is_err() {
            self.short = true;
        }
    }

    pub fn number(&mut self, number: u64) {
        if write!(self.text, "{number}").is_err() {
            self.short = true;
        }
    }

    pub fn span(&mut self, span: Span) {
        self.put("[");
        self.number(span.from);
        self.put("-");
        self.number(span.to);
        self.put("]");
    }

    /// A name with its span behind it.
    pub fn name(&mut self, name: &RawName) {
        for byte in name.text.as_slice() {
            self.byte(*byte);
        }
        self.span(name.span);
    }

    /// Each name with a blank before it.
    pub fn names(&mut self, names: &[RawName]) {
        for name in names {
            self.put(" ");
            self.name(name);
        }
    }

    /// The names of a group, and their sort.
    pub fn group(&mut self, group: &RawGroup) {
        self.names(&group.names);
        self.put(" : ");
        self.name(&group.sort);
    }

    pub fn groups(&mut self, groups: &[RawGroup]) {
        for group in groups {
            self.group(group);
            self.put(",");
        }
    }

    /// The text, where no piece was left out.
    pub fn end(self) -> Result<String, NoMemory> {
        if self.short {
            return Err(NoMemory);
        }
        Ok(self.text)
    }
}
