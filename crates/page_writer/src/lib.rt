// Writing pages of fields, which are ours: no Rust file has them. Records are added to a page at a position, and it is closed.
#![tactic(auto)]

ghost use Rattle.std.specs.Prelude.{◌≡◌, ◌+◌, ◌-◌, ◌≤◌, ◌<◌, length};
ghost use Rattle.party.specs.Party.{content};
ghost use Rattle.party.specs.Limits.{place_of};
ghost use Rattle.record_bytes.specs.RecordBytes.{decoded};
ghost use Rattle.writer.specs.Writing.{pieces, field_most};
ghost use Rattle.writer.specs.Code.{Puts};
ghost use Rattle.writer.specs.ReadBack.{ends_cr};
ghost use Rattle.page_writer.specs.IndexState.{IndexState, no_index, an_index, noted};
ghost use Rattle.page_writer.specs.Adding.{lines_carried, writable, has_space, with_lf, has_free_entry, add as add_to, add_index, close as close_at, told_call};
ghost use Rattle.page_writer.specs.Code.{line_call, field_call, Renders, Notes};

use errors::ParseError;
use field_utils::lines::{find_lf, suffix};
use page_reader::index::{INDEX_MOST, INDEX_SIZE, entry_count};
use page_reader::{PAGE_MOST, ends_at, opens_at};
use party::{Party, PartyOption, index_of};
use record_bytes::{encoded, option_of};
use writer::{FIELD_MOST, place_record, put_text, tag_length};

// Whether a position is one to write at: 0, or after an LF.
#[tactic(auto, unfolding(crate::specs::Adding::writable))]
fn is_writable(buf: &[u8], at: usize) -> bool
    ensures { result ≡ writable buf.now at }
{
    at == 0 || matches!(buf.get(at - 1), Some(b'\n'))
}

// Whether so many bytes from a position on pass neither the buffer nor a page.
fn has_space(len: usize, at: usize, more: usize) -> bool
    ensures { result ≡ has_space len (at + more) }
{
    let most = len.min(PAGE_MOST);
    at <= most && more <= most - at
}

// Whether a line ends in CR.
#[tactic(auto, using(crate::proofs::Carried::cr_empty, crate::proofs::Carried::cr_last, crate::proofs::Carried::cr_none))]
fn ends_cr(line: &[u8]) -> bool
    ensures { result ≡ ends_cr line.now }
{
    matches!(line, [.., b'\r'])
}

// Whether the pieces of a field's body are lines that a page carries: none ends in CR, a later one neither opens a field nor ends the page,
// and the last is not empty.
fn are_carried(body: &[u8]) -> bool
    ensures { result ≡ lines_carried (pieces body.now) }
{
    let mut i = 0;
    loop {
        let lf = find_lf(body, i);
        if ends_cr(&body[i..lf]) {
            return false;
        }
        if body.len() <= lf {
            return i < body.len();
        }
        let next = lf + 1;
        if opens_at(body, next) || ends_at(body, next) {
            return false;
        }
        i = next;
    }
}

// Puts a text and an LF into the buffer at a position, and gives the position after them.
fn put_line(buf: &mut [u8], at: usize, text: &[u8]) -> usize
    requires { at + length text.now < length buf.old }
    ensures { Puts buf.old at (with_lf text.now) buf.new result }
{
    put_text(text, buf, at);
    let end = at + text.len();
    buf[end] = b'\n';
    end + 1
}

// Files a text and an LF at a position, where they and so many spare bytes have space, else 24, and where an entry is free, else 31.
fn file_line(
    buf: &mut [u8],
    at: usize,
    text: &[u8],
    spare: usize,
    free: bool,
) -> Result<usize, ParseError>
    requires { (length text.now ≤ field_most) × (spare ≤ 2) }
    ensures { told_call result buf.new ≡ line_call buf.old at text.now spare free }
{
    if !has_space(buf.len(), at, text.len() + 1 + spare) {
        return Err(ParseError::NoSpace);
    }
    if !free {
        return Err(ParseError::NoEntry);
    }
    Ok(put_line(buf, at, text))
}

// Places in a room the field of a lent record that is to be added at a position, to see the lines as they would stand: 21, 22.
fn render<'a>(
    record: &[u8],
    buf: &[u8],
    at: usize,
    room: &'a mut [u8; FIELD_MOST],
) -> Result<&'a [u8], ParseError>
    ensures { Renders buf.now at (content (decoded «record».now)) result }
{
    if !is_writable(buf, at) {
        return Err(ParseError::Position);
    }
    let len = place_record(record, room)?;
    Ok(&room[..len])
}

// Files a field at a position, by its body: 23, 24, 31.
fn file_field(
    buf: &mut [u8],
    at: usize,
    field: &[u8],
    body: &[u8],
    free: bool,
) -> Result<usize, ParseError>
    requires { length field.now ≤ field_most }
    ensures { told_call result buf.new ≡ field_call buf.old at field.now body.now free }
{
    if !are_carried(body) {
        return Err(ParseError::NotCarried);
    }
    file_line(buf, at, field, 2, free)
}

// Adds a lent record at a position, where an entry is free or none is kept: 21, 22, 23, 24, 31.
fn file_record(record: &[u8], buf: &mut [u8], at: usize, free: bool) -> Result<usize, ParseError>
    ensures { (b : IndexState) → free ≡ has_free_entry b → told_call result buf.new ≡ add_to buf.old at b (content (decoded «record».now)) }
{
    let mut room = [0u8; FIELD_MOST];
    let field = render(record, buf, at, &mut room)?;
    let body = suffix(field, tag_length(option_of(record)));
    file_field(buf, at, field, body, free)
}

// Adds a lent record, as crate record_bytes lays it out, to a page without an index at a position: 21, 22, 23, 24.
pub fn add_record(record: &[u8], buf: &mut [u8], at: usize) -> Result<usize, ParseError>
    ensures { told_call result buf.new ≡ add_to buf.old at no_index (content (decoded «record».now)) }
{
    file_record(record, buf, at, true)
}

// Adds a record, through its bytes.
pub fn add(p: Party, buf: &mut [u8], at: usize) -> Result<usize, ParseError>
    ensures { told_call result buf.new ≡ add_to buf.old at no_index (content p) }
{
    add_record(&encoded(p), buf, at)
}

// Puts an entry after so many others into an index, and raises the count: a field from a position to the one after its LF.
fn note(index: &mut [u32; INDEX_SIZE], count: usize, option: PartyOption, at: usize, next: usize)
    requires { Notes index.old count at next }
    ensures { index.new ≡ noted (record { tag = place_of option; position = at; len = next - at - 1 }) index.old }
{
    let last = 3 * count;
    index[last + 1] = index_of(option) as u32;
    index[last + 2] = at as u32;
    index[last + 3] = (next - at - 1) as u32;
    index[0] = (count + 1) as u32;
}

// Adds a lent record to a page with an index at a position, and notes its entry: 21, 22, 23, 24, 31.
pub fn add_indexed_record(
    record: &[u8],
    buf: &mut [u8],
    at: usize,
    index: &mut [u32; INDEX_SIZE],
) -> Result<usize, ParseError>
    ensures buf_after { told_call result buf.new ≡ add_to buf.old at (an_index index.old) (content (decoded «record».now)) }
    ensures index { an_index index.new ≡ add_index buf.old at (an_index index.old) (content (decoded «record».now)) }
{
    let count = entry_count(index);
    let next = file_record(record, buf, at, count < INDEX_MOST)?;
    note(index, count, option_of(record), at, next);
    Ok(next)
}

// Adds a record to a page with an index, through its bytes.
pub fn add_indexed(
    p: Party,
    buf: &mut [u8],
    at: usize,
    index: &mut [u32; INDEX_SIZE],
) -> Result<usize, ParseError>
    ensures buf_after { told_call result buf.new ≡ add_to buf.old at (an_index index.old) (content p) }
    ensures index { an_index index.new ≡ add_index buf.old at (an_index index.old) (content p) }
{
    add_indexed_record(&encoded(p), buf, at, index)
}

// Closes the page at a position: 21, 24.
pub fn close(buf: &mut [u8], at: usize) -> Result<usize, ParseError>
    ensures { told_call result buf.new ≡ close_at buf.old at }
{
    if !is_writable(buf, at) {
        return Err(ParseError::Position);
    }
    file_line(buf, at, b"-", 0, true)
}
