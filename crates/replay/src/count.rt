// The counts, and what is printed.
use std::fmt::{self, Display, Formatter};

// What differs from what is expected; or the line is malformed.
#[derive(Clone, Copy)]
pub enum Difference {
    Malformed,
    Code,
    Record,
    Written,
    Kept,
    Body,
}

impl Display for Difference {
    fn fmt<W: fmt::Write>(&self, f: &mut Formatter<W>) -> fmt::Result {
        f.write_str(match self {
            Difference::Malformed => "malformed",
            Difference::Code => "code",
            Difference::Record => "record",
            Difference::Written => "written",
            Difference::Kept => "kept",
            Difference::Body => "body",
        })
    }
}

// Places of the counts, which the list names by a byte: cases by the rule of their reading, 0 as the Rust, at the rule's number; 64 places
// on, records by the rule of their writing.
pub const WAYS: usize = 64;

// All cases, and those by a rule; records that the Rust reads; bodies that ours reads; lines that differ.
pub const CASES: usize = 0x80;

pub const BY_RULE: usize = 0x81;

pub const RECORDS: usize = 0x82;

pub const BODIES: usize = 0x83;

const DIFFER: u8 = 0x84;

// Bodies written as they came, and not; of these, the ones that have each of four causes.
pub const CAME: usize = 0x85;

pub const OTHER: usize = 0x86;

pub const CAUSES: usize = 0x88;

// On pages: records read, refusals and ends; the same of lookups; fields overwritten.
pub const READ: usize = 0x90;

pub const LOOKED: usize = 0x94;

pub const OVERWRITTEN: usize = 0x98;

// Adds by number, 0 accepted, and 32 places on those with an index.
pub const ADDS: usize = 0xa0;

pub const INDEXED: usize = 0xc0;

// How many differences are printed.
const MOST: u64 = 20;

#[derive(Drop)]
pub struct Counts {
    at: [u64; 256],
}

impl Counts {
    pub(crate) fn new() -> Counts {
        Counts { at: [0; 256] }
    }

    // The list has too few lines for a count to wrap; that is not proved, and only what is printed hangs on it.
    pub(crate) fn tick(&mut self, place: usize) {
        if let Some(count) = self.at.get_mut(place) {
            *count = count.wrapping_add(1);
        }
    }

    fn get(&self, place: u8) -> u64 {
        self.at[usize::from(place)]
    }

    // Counts what differs in a line, and prints the first of them.
    pub(crate) fn note(&mut self, rt: &impl Print, difference: Difference, line: u64) {
        if self.get(DIFFER) < MOST {
            let _ = println!(rt; "line {line}: {difference}");
        }
        self.tick(usize::from(DIFFER));
    }

    // Prints a text, and in the place of each `#` and the byte after it the count that stands at that byte's place.
    pub(crate) fn print(&self, rt: &impl Print, text: &[u8]) {
        let mut rest = text;
        while let Some(at) = rest.iter().position(|b| *b == b'#') {
            let _ = rt.write_all(&rest[..at]);
            rest = &rest[at + 1..];
            if let Some((place, after)) = rest.split_first() {
                let _ = print!(rt; "{}", self.get(*place));
                rest = after;
            }
        }
        let _ = rt.write_all(rest);
    }
}
