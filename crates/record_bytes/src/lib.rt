// A party record as bytes, for programs in other languages. The place of the option in the table, the presence and the count are
// a byte each; then come six texts, a length and 38 bytes each: the account, the BIC and the names; and last the four digits.
#![tactic(auto)]

use copies::put_bytes;
use party::{
    NOTHING, OPTION_COUNT, Part, Parts, Party, PartyOption, TEXT_MOST, Text, blank, index_of,
    option_at, part_of, text_of,
};

pub mod copies;

ghost use Rattle.std.specs.Prelude.{◌≡◌, [], ◌+◌, ◌*◌, ◌≤◌, ◌<◌, leb, length, get_or, take, drop, replicate, MatchOption};
ghost use Rattle.std.proofs.Math.Seq.{paste};
ghost use Rattle.party.specs.Text.{text_most, text_of, used};
ghost use Rattle.party.specs.Party.{party_in, blank as blank_party};
ghost use Rattle.record_bytes.specs.Code.{head_put, parts_of};
ghost use Rattle.record_bytes.specs.RecordBytes.{text_size, digits_at, record_size, byte_of, encoded_text, encoded_texts, texts_of, nth_text, encoded, stored, text_at, has_option, holds_record, party_from, decoded, laid_out};

// Where the texts stand: after the option, the presence and the count.
pub const TEXTS_AT: usize = 3;

// The bytes of a text.
pub const TEXT_SIZE: usize = 1 + TEXT_MOST;

// Where the digits stand: after the texts.
pub const DIGITS_AT: usize = TEXTS_AT + 6 * TEXT_SIZE;

// The bytes of a record: 241.
pub const RECORD_SIZE: usize = DIGITS_AT + 4;

// A length or count as a byte; one above 255 as 255.
fn byte_of(n: usize) -> u8
    ensures { result ≡ byte_of n }
{
    n.min(255) as u8
}

// A text at an index: its length, then its bytes.
fn put_text(text: Text, record: &mut [u8; RECORD_SIZE], at: usize)
    requires { at + text_size ≤ record_size }
    ensures { record.new ≡ paste record.old at (encoded_text text) text_size }
{
    record[at] = byte_of(text.len);
    record[at + 1..at + TEXT_SIZE].copy_from_slice(&text.bytes);
}

// The six texts of a record, in their order.
fn nth_text(p: &Party, n: usize) -> Text
    requires { n < 6 }
    ensures { result ≡ get_or (texts_of p.now) n (record { bytes = []; len = 0 }) }
{
    match n {
        0 => p.account,
        1 => p.bic,
        _ => p.name_and_address[n - 2],
    }
}

// The six texts from 3 on.
fn put_texts(p: Party, record: &mut [u8; RECORD_SIZE])
    ensures { record.new ≡ paste record.old 3 (encoded_texts (texts_of p)) (6 * text_size) }
{
    for n in 0..6 {
        put_text(nth_text(&p, n), record, TEXTS_AT + TEXT_SIZE * n);
    }
}

// What is no text: the three bytes before the texts, and the four digits after them.
fn put_fields(
    option: PartyOption,
    present: bool,
    count: usize,
    digits: [u8; 4],
    record: &mut [u8; RECORD_SIZE],
)
    ensures { record.new ≡ paste (head_put option present count record.old) digits_at digits 4 }
{
    record[0] = index_of(option) as u8;
    record[1] = u8::from(present);
    record[2] = byte_of(count);
    record[DIGITS_AT..].copy_from_slice(&digits);
}

// A record over bytes of its size.
fn put_record(p: Party, record: &mut [u8; RECORD_SIZE])
    ensures { record.new ≡ encoded p }
{
    put_fields(p.option, p.present, p.count, p.digits, record);
    put_texts(p, record);
}

// The bytes of a record.
pub fn encoded(p: Party) -> [u8; RECORD_SIZE]
    ensures { result ≡ encoded p }
{
    let mut record = [0; RECORD_SIZE];
    put_record(p, &mut record);
    record
}

// Stores a record at the start of the bytes, and says whether there are as many; where there are not, no byte changes.
pub fn store(p: Party, out: &mut [u8]) -> bool
    ensures value { result ≡ leb record_size (length out.old) }
    ensures out_after { out.new ≡ stored p out.old }
{
    let Some(record) = out.first_chunk_mut() else {
        return false;
    };
    put_record(p, record);
    true
}

// The text of a slice at an index where there are zeros: its length, then its bytes. Not inlined, so that the six calls are unrolled.
#[inline(never)]
fn put_part(s: &[u8], record: &mut [u8; RECORD_SIZE], at: usize)
    requires { (at + text_size ≤ record_size) × (take text_size (drop at record.old) ≡ replicate text_size 0) }
    ensures { record.new ≡ paste record.old at (encoded_text (text_of s.now)) text_size }
{
    let n = s.len().min(TEXT_MOST);
    record[at] = n as u8;
    put_bytes(&mut record[at + 1..at + 1 + n], &s[..n]);
}

// The six parts of a record, in the order of its texts.
fn nth_part(parts: &Parts, n: usize) -> Part
    requires { n < 6 }
    ensures { result ≡ get_or (parts_of parts.now) n (record { start = 0; len = 0 }) }
{
    match n {
        0 => parts.account,
        1 => parts.bic,
        _ => parts.name_and_address[n - 2],
    }
}

// The texts of six parts of a body from 3 on, where there are zeros.
fn put_parts(parts: Parts, body: &[u8], record: &mut [u8; RECORD_SIZE])
    requires { take (6 * text_size) (drop 3 record.old) ≡ replicate (6 * text_size) 0 }
    ensures { record.new ≡ paste record.old 3 (encoded_texts (texts_of (party_in body.now parts))) (6 * text_size) }
{
    for n in 0..6 {
        let part = nth_part(&parts, n);
        if part.len != 0 {
            put_part(part_of(body, part), record, TEXTS_AT + TEXT_SIZE * n);
        }
    }
}

// Stores the record of parts of a body at the start of the bytes, as `store` does; it is built nowhere else.
pub fn store_parts(parts: Parts, body: &[u8], out: &mut [u8]) -> bool
    ensures value { result ≡ leb record_size (length out.old) }
    ensures out_after { out.new ≡ stored (party_in body.now parts) out.old }
{
    let Some(record) = out.first_chunk_mut() else {
        return false;
    };
    put_fields(
        parts.option,
        parts.present,
        parts.count,
        parts.digits,
        record,
    );
    record[TEXTS_AT..DIGITS_AT].fill(0);
    put_parts(parts, body, record);
    true
}

// The bytes of the text with a number among the six: its length, then its bytes.
fn slot(record: &[u8; RECORD_SIZE], n: usize) -> &[u8; TEXT_SIZE]
    requires { n < 6 }
    ensures { result.now ≡ take text_size (drop (3 + text_size * n) record.now) }
{
    record[TEXTS_AT + TEXT_SIZE * n..].first_chunk().unwrap()
}

// The text with a number among the six.
fn text_at(record: &[u8; RECORD_SIZE], n: usize) -> Text
    requires { n < 6 }
    ensures { result ≡ text_at n record.now }
{
    let slot = slot(record, n);
    Text {
        len: slot[0] as usize,
        ..text_of(&slot[1..])
    }
}

// Whether bytes are as many as a record's, and the first is an option's place.
pub fn has_option(s: &[u8]) -> bool
    ensures { result ≡ has_option s.now }
{
    s.len() >= RECORD_SIZE && usize::from(s[0]) < OPTION_COUNT
}

// Whether bytes start with a record.
pub fn holds_record(s: &[u8]) -> bool
    ensures { result ≡ holds_record s.now }
{
    has_option(s) && s[1] <= 1
}

// The record that bytes start with.
fn record_of(s: &[u8]) -> Option<&[u8; RECORD_SIZE]>
    ensures { MatchOption result (decoded s.now ≡ blank_party) (λ r. decoded s.now ≡ party_from r.now) }
{
    if holds_record(s) {
        s.first_chunk()
    } else {
        None
    }
}

// The option of the record at the start of the bytes.
pub fn option_of(s: &[u8]) -> PartyOption
    ensures { result ≡ (decoded s.now).option }
{
    match record_of(s) {
        Some(record) => option_at(record[0] as usize),
        None => PartyOption::Field50NoOption,
    }
}

// Whether it has an account or identifier.
pub fn present_of(s: &[u8]) -> bool
    ensures { result ≡ (decoded s.now).present }
{
    record_of(s).is_some_and(|r| r[1] == 1)
}

// Its count of names.
pub fn count_of(s: &[u8]) -> usize
    ensures { result ≡ (decoded s.now).count }
{
    record_of(s).map_or(0, |r| r[2] as usize)
}

// The length of a text, by its number among the six. Texts and digits are what the bytes have at their places: whether they are a record's
// is asked once, by `holds_record`, and not at each of them.
pub fn text_length(s: &[u8], n: usize) -> usize
    ensures { result ≡ (nth_text n (laid_out s.now)).len }
{
    match s.first_chunk::<RECORD_SIZE>() {
        Some(record) if n < 6 => slot(record, n)[0] as usize,
        _ => 0,
    }
}

// The bytes that a text uses: as many as its length says, or all 38 where that passes them.
pub fn used_text(s: &[u8], n: usize) -> &[u8]
    ensures { result.now ≡ (used (nth_text n (laid_out s.now))).bytes }
{
    match s.first_chunk::<RECORD_SIZE>() {
        Some(record) if n < 6 => {
            let slot = slot(record, n);
            let len = (slot[0] as usize).min(TEXT_MOST);
            &slot[1..1 + len]
        }
        _ => &[],
    }
}

// The digit of a line, counted from 0.
pub fn digit_of(s: &[u8], i: usize) -> u8
    ensures { result ≡ get_or (laid_out s.now).digits i 0 }
{
    match s.first_chunk::<RECORD_SIZE>() {
        Some(record) if i < 4 => record[DIGITS_AT + i],
        _ => 0,
    }
}

// The record of its bytes.
fn loaded(record: &[u8; RECORD_SIZE]) -> Party
    ensures { result ≡ party_from record.now }
{
    let mut names = [NOTHING; 4];
    for i in 0..4 {
        names[i] = text_at(record, 2 + i);
    }
    let mut digits = [0; 4];
    digits.copy_from_slice(&record[DIGITS_AT..]);
    Party {
        option: option_at(record[0] as usize),
        present: record[1] == 1,
        account: text_at(record, 0),
        bic: text_at(record, 1),
        count: record[2] as usize,
        name_and_address: names,
        digits,
    }
}

// Loads the record at the start of the bytes: what store stored, where its lengths and its count are at most 255. Where there is none, the
// blank one, which no reader gives.
pub fn load(s: &[u8]) -> Party
    ensures { result ≡ decoded s.now }
{
    record_of(s).map_or_else(blank, loaded)
}
