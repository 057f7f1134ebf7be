// The index beside a page (document 02, Three): for each field its tag, first position and length. It is lent as numbers: how many entries
// it has, and three for each of 256. Any numbers may be lent; an entry is believed only where the page has it.
ghost use Rattle.std.specs.Prelude.{◌≡◌, ◌≤◌, true, false, length, MatchOption};
ghost use Rattle.page_reader.specs.declared.ReadCase.TheVariants.{Opening};
ghost use Rattle.page_reader.specs.Pages.{read_case};
ghost use Rattle.page_reader.specs.Index.{index_most, index_size, entries_of, has_entry, entry_of, look_up, body_of, look_lent, look_bytes, party_looked, look_outline, told_looked, told_found};
ghost use Rattle.page_reader.specs.Code.{held_entry, HoldsBy, Finds};

use crate::{PAGE_MOST, ReadCase, Tag, parse_tag, past, read_case, text_in};
use errors::ParseError;
use party::{Party, index_of};
use reader::read_into;
use record_bytes::{RECORD_SIZE, load};

// The most entries of an index.
pub const INDEX_MOST: usize = 256;

// How many numbers an index is: a count, then tag, position and length of each entry, the tag as the option's place in the table.
pub const INDEX_SIZE: usize = 3 * INDEX_MOST + 1;

// What a lookup reads at a field: its record or its body's refusal, with the field's position and the next.
#[derive(Clone, Copy, Debug, PartialEq, Eq)]
pub struct FieldRead<T> {
    pub outcome: Result<T, ParseError>,
    pub at: usize,
    pub next: usize,
}

// An entry: a field's tag, as its option's place in the table, 0 to 10; its first position; and its length, tag and body without the LF.
#[derive(Clone, Copy)]
struct Entry {
    tag: u32,
    position: u32,
    len: u32,
}

// Where a field that is looked up stands in the page, with its tag.
#[derive(Clone, Copy)]
struct Place<'a> {
    tag: Tag<'a>,
    at: usize,
    to: usize,
}

// How many entries an index has.
pub fn entry_count(index: &[u32; INDEX_SIZE]) -> usize
    ensures value { result ≡ length (entries_of index.now) }
    ensures most { result ≤ index_most }
    ensures sized { length index.now ≡ index_size }
{
    (index[0] as usize).min(INDEX_MOST)
}

// The entry of field k, counted from 1, if the index has one.
fn entry_of(index: &[u32; INDEX_SIZE], k: usize) -> Option<Entry>
    ensures { MatchOption result (has_entry index.now k ≡ false) (λ e. (has_entry index.now k ≡ true) × (entry_of index.now k ≡ held_entry e)) }
{
    if k == 0 || entry_count(index) < k {
        return None;
    }
    let (entries, _) = index[1..].as_chunks::<3>();
    let [tag, position, len] = entries[k - 1];
    Some(Entry { tag, position, len })
}

// Where the field of an entry stands, which runs to a position, if it has the entry's tag and length; else 21.
fn field_in(page: &[u8], to: usize, entry: Entry) -> Result<Place<'_>, ParseError>
    requires { (entry.position ≤ to) × (to ≤ length page.now) }
    ensures { HoldsBy (Opening to) page.now (held_entry entry) result }
{
    let at = entry.position as usize;
    let text = text_in(page, at, to);
    if text.len() != entry.len as usize {
        return Err(ParseError::Position);
    }
    match parse_tag(text) {
        Some(tag) if index_of(tag.option) == entry.tag as usize => Ok(Place { tag, at, to }),
        _ => Err(ParseError::Position),
    }
}

// Where the field of an entry stands; 21 where no field is at its position, or another than the entry says.
fn field_here(page: &[u8], entry: Entry) -> Result<Place<'_>, ParseError>
    ensures { HoldsBy (read_case page.now entry.position) page.now (held_entry entry) result }
{
    match read_case(page, entry.position as usize) {
        ReadCase::Opening { to } => field_in(page, to, entry),
        _ => Err(ParseError::Position),
    }
}

// Where field k stands by its entry, in the order 18, 31, 21.
fn find<'a>(page: &'a [u8], index: &[u32; INDEX_SIZE], k: usize) -> Result<Place<'a>, ParseError>
    ensures { Finds page.now index.now k result }
{
    if PAGE_MOST < page.len() {
        return Err(ParseError::PageTooLong);
    }
    let Some(entry) = entry_of(index, k) else {
        return Err(ParseError::NoEntry);
    };
    field_here(page, entry)
}

// Looks up field k of a page, counted from 1: reads as the reader does at the position that entry k gives. The record is stored at the
// start of lent bytes; a refusal changes none. 42, before everything else, where they are under 241.
pub fn look_up_into(
    page: &[u8],
    index: &[u32; INDEX_SIZE],
    k: usize,
    record: &mut [u8],
) -> Result<FieldRead<()>, ParseError>
    ensures result_value { told_looked result ≡ look_outline (look_lent page.now index.now k «record».old) }
    ensures bytes { «record».new ≡ look_bytes (look_lent page.now index.now k «record».old) «record».old }
{
    if record.len() < RECORD_SIZE {
        return Err(ParseError::ShortRecord);
    }
    let place = find(page, index, k)?;
    Ok(FieldRead {
        outcome: read_into(place.tag.option, place.tag.body, record),
        at: place.at,
        next: past(page, place.to),
    })
}

// The same by value.
pub fn look_up(
    page: &[u8],
    index: &[u32; INDEX_SIZE],
    k: usize,
) -> Result<FieldRead<Party>, ParseError>
    ensures outcome_value { told_looked result ≡ look_outline (look_up page.now index.now k) }
    ensures beside { told_found result ≡ party_looked (look_up page.now index.now k) }
{
    let mut room = [0u8; RECORD_SIZE];
    let FieldRead { outcome, at, next } = look_up_into(page, index, k, &mut room)?;
    let outcome = outcome.map(|()| load(&room));
    Ok(FieldRead { outcome, at, next })
}

// The body of field k, as a part of the page: empty at 18, 31 and 21.
pub fn look_up_body<'a>(page: &'a [u8], index: &[u32; INDEX_SIZE], k: usize) -> &'a [u8]
    ensures { result.now ≡ body_of (look_up page.now index.now k) }
{
    match find(page, index, k) {
        Ok(place) => place.tag.body,
        Err(_) => &page[..0],
    }
}
