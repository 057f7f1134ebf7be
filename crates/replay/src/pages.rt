// Calls on a page: adds, closing, reads, lookups and overwriting.
ghost use Rattle.std.specs.Prelude.{◌≤◌, length};

use crate::count::{ADDS, Counts, Difference, INDEXED, LOOKED, OVERWRITTEN, READ};
use crate::list::{Line, put, unescape};
use crate::record::{has_only, load, stale_room};
use page_reader::body_at;
use page_reader::index::{INDEX_SIZE, look_up_body};
use record_bytes::RECORD_SIZE;
use yewdome::{
    PACK_UNIT, POSITION_ROOM, READ_END, yewdome_page_add, yewdome_page_add_indexed,
    yewdome_page_body, yewdome_page_close, yewdome_page_look_up, yewdome_page_read,
};

// Whether a call goes by the index: an add fills it, and a read looks a field up.
#[derive(Clone, Copy)]
pub enum Way {
    Plain,
    Indexed,
}

// The bytes of a page's buffer: each position of a list lies in it.
pub const ROOM: usize = 65536;

// A page that is filled, in its buffer, and its index.
#[derive(Drop)]
pub struct Page {
    buf: [u8; ROOM],
    position: usize,
    index: [u32; INDEX_SIZE],
}

impl Page {
    pub(crate) fn new() -> Page {
        Page {
            buf: [0; ROOM],
            position: 0,
            index: [0; INDEX_SIZE],
        }
    }

    // Begins another.
    pub(crate) fn begin(&mut self) {
        self.index[0] = 0;
        self.position = 0;
    }

    // What is filled of it; none of it where the position is past the buffer.
    fn filled(&self) -> &[u8] {
        self.buf.get(..self.position).unwrap_or(b"")
    }

    // Calls the function that a line names.
    fn call_add(&mut self, way: Way, record: &[u8]) -> u32 {
        let at = self.position;
        match way {
            Way::Plain => yewdome_page_add(record, &mut self.buf, at),
            Way::Indexed => yewdome_page_add_indexed(record, &mut self.buf, at, &mut self.index),
        }
    }

    // Whether the text of the record's line, and LF, stand in the buffer from a place to the position.
    fn has_field(&self, from: usize, record: Line<'_>) -> bool {
        let mut room = [0u8; 240];
        let text = unescape(record.field(12), &mut room);
        match self.buf.get(from..self.position) {
            Some([field @ .., b'\n']) => field == text,
            _ => false,
        }
    }

    // Adds a record, lent with stale bytes where it uses none and after it.
    pub(crate) fn add(
        &mut self,
        line: Line<'_>,
        way: Way,
        record: Line<'_>,
        counts: &mut Counts,
    ) -> Result<(), Difference> {
        let mut lent = stale_room();
        load(record, 2, b"", &mut lent);
        let from = self.position;
        let code = self.call_add(way, &lent);
        if u64::from(code) != line.pair(1) {
            return Err(Difference::Code);
        }
        let first = match way {
            Way::Plain => ADDS,
            Way::Indexed => INDEXED,
        };
        counts.tick(first + line.number(1));
        if POSITION_ROOM <= code {
            return Ok(());
        }
        self.position = code as usize;
        if self.has_field(from, record) {
            Ok(())
        } else {
            Err(Difference::Written)
        }
    }

    // Closes the page.
    pub(crate) fn close(&mut self, line: Line<'_>) -> Result<(), Difference> {
        let at = self.position;
        let code = yewdome_page_close(&mut self.buf, at);
        if u64::from(code) != line.pair(1) {
            return Err(Difference::Code);
        }
        self.position = code as usize;
        Ok(())
    }

    // Reads at a position, or looks a field up.
    fn answer(&self, way: Way, at: usize, record: &mut [u8]) -> u64 {
        match way {
            Way::Plain => yewdome_page_read(self.filled(), at, record),
            Way::Indexed => yewdome_page_look_up(self.filled(), &self.index, at, record),
        }
    }

    // Whether the body that is handed back of it is the part of the page that the line names.
    fn is_body(&self, line: Line<'_>, way: Way) -> bool {
        let page = self.filled();
        let at = line.number(1);
        let start = line.number(7);
        let len = line.number(8);
        let body = page.get(start..start + len).unwrap_or(b"");
        match way {
            Way::Plain => {
                yewdome_page_body(page, at) == (start as u64) * PACK_UNIT + len as u64
                    && body_at(page, at) == body
            }
            Way::Indexed => look_up_body(page, &self.index, at) == body,
        }
    }

    // Reads a page at a position, or looks a field of it up: what is given, the record that is stored, and no other byte, and the body.
    pub(crate) fn read(
        &self,
        line: Line<'_>,
        way: Way,
        record: Line<'_>,
        counts: &mut Counts,
    ) -> Result<(), Difference> {
        let mut room = stale_room();
        let code = self.answer(way, line.number(1), &mut room[8..249]);
        if code != line.pair(2) * PACK_UNIT + line.pair(4) {
            return Err(Difference::Code);
        }
        let mut due = [0u8; RECORD_SIZE];
        load(record, 2, record.field(1), &mut due);
        let stored: &[u8] = if code < READ_END { &due } else { b"" };
        if !has_only(&room, stored) {
            return Err(Difference::Record);
        }
        if !self.is_body(line, way) {
            return Err(Difference::Body);
        }
        count_read(way, code, counts);
        Ok(())
    }

    // Overwrites so many bytes of the page at a place.
    pub(crate) fn overwrite(&mut self, line: Line<'_>, counts: &mut Counts) {
        let mut room = [0u8; 4096];
        let new = unescape(line.field(3), &mut room);
        let at = line.number(1);
        let position = self.position;
        counts.tick(OVERWRITTEN);
        self.position = replace(&mut self.buf, at, at + line.number(2), position, new);
    }
}

// Puts new bytes at a place of the buffer, moves what stands from one place to another to their end, and gives where that ends. What is past
// the buffer is lost.
fn replace(buf: &mut [u8], at: usize, from: usize, to: usize, new: &[u8]) -> usize
    requires { at ≤ length buf.old }
{
    let end = at + new.len().min(buf.len() - at);
    let mut last = end;
    if from <= to && to <= buf.len() {
        let rest = (to - from).min(buf.len() - end);
        buf.copy_within(from..from + rest, end);
        last += rest;
    }
    put(new, &mut buf[at..]);
    last
}

// Counts a read or a lookup: a record, a refusal or the end.
fn count_read(way: Way, code: u64, counts: &mut Counts) {
    counts.tick(match (way, code / READ_END) {
        (Way::Plain, 0) => READ,
        (Way::Plain, 1) => READ + 2,
        (Way::Plain, _) => READ + 1,
        (Way::Indexed, 0) => LOOKED,
        (Way::Indexed, _) => LOOKED + 1,
    });
}

// The records that a list may define, and one.
const RECORDS: usize = 2048;

// The lines of the records that are defined, from place 1 on. Place 0 has an empty one, and a place whose record isn't defined the list's
// first line.
#[derive(Drop)]
pub struct Records<'a> {
    lines: [Line<'a>; RECORDS],
    next: usize,
}

impl<'a> Records<'a> {
    pub(crate) fn new(first: Line<'a>) -> Records<'a> {
        let mut lines = [first; RECORDS];
        lines[0] = Line { text: b"" };
        Records { lines, next: 1 }
    }

    pub(crate) fn define(&mut self, line: Line<'a>) -> Result<(), Difference> {
        let place = self.next;
        if RECORDS <= place {
            return Err(Difference::Malformed);
        }
        self.lines[place] = line;
        self.next = place + 1;
        Ok(())
    }

    // The line of record n; an empty one past the last place.
    pub(crate) fn get(&self, n: usize) -> Line<'a> {
        self.lines.get(n).copied().unwrap_or(Line { text: b"" })
    }
}
