// Reading pages of fields, which are ours: no Rust file has them. A page, also one of others, is read at a position, field by field.
#![tactic(auto)]

ghost use Rattle.std.specs.Prelude.{◌≡◌, ◌+◌, ◌≤◌, length, drop};
ghost use Rattle.party.specs.Limits.{options};
ghost use Rattle.record_bytes.specs.RecordBytes.{record_size};
ghost use Rattle.page_reader.specs.Pages.{line_at, opens, ends_at, runs, past as past_lf, tag_in, read_field, readable, text_in, read_case, read_at, body_in, body_place, read_lent, read_bytes, party_beside, kind_of, outline, told_kind, told_read_into, told_read, told_party};
ghost use Rattle.page_reader.specs.Code.{is_over, told_tag, has_tag, known};

use errors::ParseError;
use field_utils::lines::{find_lf, suffix, without_cr};
use party::{NO_PART, OPTIONS, Part, Party, PartyOption, limits_of};
use reader::read_into;
use record_bytes::{RECORD_SIZE, load};

pub mod index;

// The most bytes of a page.
pub const PAGE_MOST: usize = 32768;

// What a read of a page gives: a record, none at the end, or a refusal; with the next position.
#[derive(Clone, Copy, Debug, PartialEq, Eq)]
pub struct PageRead<T> {
    pub outcome: Result<Option<T>, ParseError>,
    pub next: usize,
}

// Which case a read is: a page that is too long, no position to read at, the page's length, or by the line there, with the position to
// which the field, the end line or what is stray runs.
#[derive(Clone, Copy)]
enum ReadCase {
    TooLong,
    NoStart,
    AtLength,
    Opening { to: usize },
    Ending { to: usize },
    Stray { to: usize },
}

// A field's tag: its option, and the body after it.
#[derive(Clone, Copy)]
struct Tag<'a> {
    option: PartyOption,
    body: &'a [u8],
}

// Whether the line at a position starts with a colon.
#[tactic(auto, using(crate::proofs::Cases::opens_by))]
pub fn opens_at(page: &[u8], at: usize) -> bool
    ensures { result ≡ opens (line_at (drop at page.now)) }
{
    matches!(page.get(at), Some(b':'))
}

// Whether nothing is left of the first line of a rest: an LF or the page's end is there, or one CR and then an LF.
fn is_over(rest: &[u8]) -> bool
    ensures { result ≡ is_over rest.now }
{
    matches!(rest, [] | [b'\n', ..] | [b'\r', b'\n', ..])
}

// Whether the line at a position is a lone `-` or `-}`, also with one CR before its LF.
#[tactic(auto, using(crate::proofs::EndLines::ends_empty, crate::proofs::EndLines::ends_other))]
pub fn ends_at(page: &[u8], at: usize) -> bool
    ensures { result ≡ ends_at (drop at page.now) }
{
    match suffix(page, at) {
        [b'-', b'}', rest @ ..] | [b'-', rest @ ..] => is_over(rest),
        _ => false,
    }
}

// Where the field at a position runs to.
fn field_end(page: &[u8], at: usize) -> usize
    requires { at ≤ length page.now }
    ensures { result ≡ at + runs (drop at page.now) }
{
    let mut i = at;
    loop {
        let lf = find_lf(page, i);
        let next = lf + 1;
        if page.len() <= next || opens_at(page, next) || ends_at(page, next) {
            return lf;
        }
        i = next;
    }
}

// The position after an LF, at most the length.
fn past(page: &[u8], lf: usize) -> usize
    ensures { result ≡ past_lf page.now lf }
{
    if lf < page.len() { lf + 1 } else { page.len() }
}

// Whether a position is one to read at: 0, the length, or after an LF.
fn is_readable(page: &[u8], at: usize) -> bool
    ensures { result ≡ readable page.now at }
{
    at == 0 || at == page.len() || matches!(page.get(at - 1), Some(b'\n'))
}

// Whether an option has a tag with this last digit of its field and this letter, 0 for none.
fn has_tag(option: PartyOption, digit: u8, letter: u8) -> bool
    ensures { result ≡ has_tag option digit letter }
{
    let limits = limits_of(option);
    b'0' + limits.field % 10 == digit && limits.letter == letter
}

// The option of such a tag.
fn known(digit: u8, letter: u8) -> Option<PartyOption>
    ensures { result ≡ known digit letter }
{
    OPTIONS
        .iter()
        .copied()
        .find(|option| has_tag(*option, digit, letter))
}

// The tag of a field's text.
#[tactic(auto, using(crate::proofs::Tags::tag_cases))]
fn parse_tag(text: &[u8]) -> Option<Tag>
    ensures { told_tag result ≡ tag_in options text.now }
{
    match text {
        [b':', b'5', digit, b':', body @ ..] => {
            let option = known(*digit, 0)?;
            Some(Tag { option, body })
        }
        [b':', b'5', digit, letter, b':', body @ ..] if *letter != 0 => {
            let option = known(*digit, *letter)?;
            Some(Tag { option, body })
        }
        _ => None,
    }
}

// Which case a read is, in the order 18, 21, 17, then by the line, and where what stands there ends: nothing else searches for it.
fn read_case(page: &[u8], at: usize) -> ReadCase
    ensures { result ≡ read_case page.now at }
{
    if PAGE_MOST < page.len() {
        return ReadCase::TooLong;
    }
    if !is_readable(page, at) {
        return ReadCase::NoStart;
    }
    if page.len() <= at {
        return ReadCase::AtLength;
    }
    if ends_at(page, at) {
        let to = find_lf(page, at);
        return ReadCase::Ending { to };
    }
    let to = field_end(page, at);
    if opens_at(page, at) {
        return ReadCase::Opening { to };
    }
    ReadCase::Stray { to }
}

// The text of a field from one position to another, without one CR directly before the LF there.
fn text_in(page: &[u8], at: usize, to: usize) -> &[u8]
    requires { (at ≤ to) × (to ≤ length page.now) }
    ensures { result.now ≡ text_in page.now at to }
{
    let text = &page[at..to];
    if to < page.len() {
        without_cr(text)
    } else {
        text
    }
}

// A field's text by its tag: 15, or what the option's reader says of the body.
#[inline(always)]
fn read_field_into(text: &[u8], record: &mut [u8; RECORD_SIZE]) -> Result<Option<()>, ParseError>
    ensures result_value { told_kind result ≡ kind_of (read_field text.now 0).outcome }
    ensures bytes { «record».new ≡ read_bytes (read_field text.now 0).outcome «record».old }
{
    let Some(Tag { option, body }) = parse_tag(text) else {
        return Err(ParseError::UnknownTag);
    };
    read_into(option, body, record)?;
    Ok(Some(()))
}

// Reads the page at a position: the record, the refusal or the end, with the next position. The record is stored at the start of lent bytes;
// the end and a refusal change none. 42, before everything else, where they are under 241. Each caller has it in its own code: a call would
// hand what was read through memory.
#[inline(always)]
pub fn read_at_into(page: &[u8], at: usize, record: &mut [u8]) -> PageRead<()>
    ensures result_value { told_read_into result ≡ outline (read_lent page.now at «record».old) }
    ensures bytes { «record».new ≡ read_bytes (read_lent page.now at «record».old).outcome «record».old }
{
    let Some(room) = record.first_chunk_mut() else {
        return PageRead {
            outcome: Err(ParseError::ShortRecord),
            next: at,
        };
    };
    let (outcome, next) = match read_case(page, at) {
        ReadCase::TooLong => (Err(ParseError::PageTooLong), at),
        ReadCase::NoStart => (Err(ParseError::Position), at),
        ReadCase::AtLength => (Err(ParseError::PageLength), at),
        ReadCase::Opening { to } => {
            let outcome = read_field_into(text_in(page, at, to), room);
            (outcome, past(page, to))
        }
        ReadCase::Ending { to } => (Ok(None), past(page, to)),
        ReadCase::Stray { to } => (Err(ParseError::StrayLine), past(page, to)),
    };
    PageRead { outcome, next }
}

// The same by value.
pub fn read_at(page: &[u8], at: usize) -> PageRead<Party>
    ensures result_value { told_read result ≡ outline (read_at page.now at) }
    ensures beside { told_party result.outcome ≡ party_beside (read_at page.now at).outcome }
{
    let mut room = [0u8; RECORD_SIZE];
    let PageRead { outcome, next } = read_at_into(page, at, &mut room);
    let outcome = outcome.map(|given| given.map(|()| load(&room)));
    PageRead { outcome, next }
}

// The part of the page that is a field's body, by the field's text and where it ends; none where its tag is none of the eleven.
fn body_in(text: &[u8], end: usize) -> Part
    requires { length text.now ≤ end }
    ensures { result ≡ body_in (tag_in options text.now) end }
{
    match parse_tag(text) {
        Some(tag) => {
            let len = tag.body.len();
            Part {
                start: end - len,
                len,
            }
        }
        None => NO_PART,
    }
}

// The part of the page that is the body of the field at a position; none where no field is.
pub fn body_place(page: &[u8], at: usize) -> Part
    ensures { result ≡ body_place page.now at }
{
    let ReadCase::Opening { to } = read_case(page, at) else {
        return NO_PART;
    };
    let text = text_in(page, at, to);
    body_in(text, at + text.len())
}

// The body of the field at a position, as a part of the page: empty at 15 to 18, 21 and the end.
pub fn body_at(page: &[u8], at: usize) -> &[u8]
    ensures { result.now ≡ (read_at page.now at).body }
{
    let Part { start, len } = body_place(page, at);
    &page[start..start + len]
}
