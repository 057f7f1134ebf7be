// A case: a body is read by a call, and the record that it gives, or that the Rust reads, is written.
ghost use Rattle.std.specs.Prelude.{◌≤◌};

use crate::count::{
    BODIES, BY_RULE, CAME, CASES, CAUSES, Counts, Difference, OTHER, RECORDS, WAYS,
};
use crate::list::{Line, put, unescape};
use crate::record::{has_only, load, stale_room};
use party::PartyOption;
use record_bytes::{DIGITS_AT, RECORD_SIZE, option_of};
use yewdome::{
    POSITION_ROOM, yewdome_kept_parse, yewdome_kept_parse_with_variant, yewdome_kept_read,
    yewdome_party_measure, yewdome_party_parse, yewdome_party_parse_with_variant,
    yewdome_party_place, yewdome_party_read,
};

// What reads a body: an option, a choice, or a choice with a letter.
#[derive(Clone, Copy)]
pub enum Reader {
    ByOption(u8),
    ByChoice(u8),
    ByVariant { choice: u8, letter: u8 },
}

impl Reader {
    fn read(self, body: &[u8], record: &mut [u8]) -> u32 {
        match self {
            Reader::ByOption(option) => yewdome_party_read(option, body, record),
            Reader::ByChoice(choice) => yewdome_party_parse(choice, body, record),
            Reader::ByVariant { choice, letter } => {
                yewdome_party_parse_with_variant(choice, body, letter, record)
            }
        }
    }

    // By which causes what is written of the body is other bytes, or the refusal.
    fn kept(self, body: &[u8]) -> u32 {
        match self {
            Reader::ByOption(option) => yewdome_kept_read(option, body),
            Reader::ByChoice(choice) => yewdome_kept_parse(choice, body),
            Reader::ByVariant { choice, letter } => {
                yewdome_kept_parse_with_variant(choice, body, letter)
            }
        }
    }
}

// Reads the body into 241 lent bytes. An accepted one gives the record; a refusal changes no byte.
fn read(reader: Reader, body: &[u8], code: u64, record: &[u8]) -> Result<(), Difference> {
    let mut room = stale_room();
    if u64::from(reader.read(body, &mut room[8..249])) != code {
        return Err(Difference::Code);
    }
    let stored = if code == 0 { record } else { b"" };
    if has_only(&room, stored) {
        Ok(())
    } else {
        Err(Difference::Record)
    }
}

// Whether placing the record in a buffer of a size gives this number and this text, and changes no other byte.
fn gives(record: &[u8], size: usize, code: u32, text: &[u8]) -> bool
    requires { size ≤ 241 }
{
    let mut room = stale_room();
    let end = 8 + size;
    yewdome_party_place(record, &mut room[8..end]) == code && has_only(&room, text)
}

// Whether the record is measured and placed as the text that is due or refused with the number that is: in buffers one byte shorter than a
// length, as long and one byte longer.
fn writes(record: &[u8], len: usize, due: Result<&[u8], u32>) -> bool {
    if len == 0 || 240 < len {
        return false;
    }
    let (code, short, text) = match due {
        Ok(text) => (len as u32, 24 * POSITION_ROOM, text),
        Err(refusal) => (refusal, refusal, b"".as_slice()),
    };
    yewdome_party_measure(record) == code
        && gives(record, len - 1, short, b"")
        && gives(record, len, code, text)
        && gives(record, len + 1, code, text)
}

// Whether the record of the line is written as the text or, by the rule 22, refused; and a 50F, once its digits are 1, 2, 3, 4, as the Rust
// writes it.
fn is_written(line: Line<'_>, record: &mut [u8; RECORD_SIZE], text: &[u8]) -> bool {
    let mut room = [0u8; 240];
    let rusts = unescape(line.field(20), &mut room);
    if line.number(8) == 22 {
        return writes(record, rusts.len(), Err(22 * POSITION_ROOM));
    }
    if !writes(record, text.len(), Ok(text)) {
        return false;
    }
    match option_of(record) {
        PartyOption::Field50F => {
            put(b"1234", &mut record[DIGITS_AT..]);
            writes(record, rusts.len(), Ok(rusts))
        }
        _ => true,
    }
}

// Whether no cause is told exactly where what is written after the tag is the body, and of a body that is refused the same refusal.
fn is_kept(told: u64, code: u64, body: &[u8], text: &[u8]) -> bool {
    if code != 0 {
        return told == code;
    }
    let Some((_, rest)) = text.split_first() else {
        return false;
    };
    let written = rest.splitn(2, |b| *b == b':').nth(1).unwrap_or(b"");
    told <= 15 && (written == body) == (told == 0)
}

// Counts a body that is read, by the causes that are told of it.
fn count_kept(told: u64, counts: &mut Counts) {
    counts.tick(BODIES);
    counts.tick(if told == 0 { CAME } else { OTHER });
    for cause in 0..4 {
        if (told >> cause) % 2 == 1 {
            counts.tick(CAUSES + cause);
        }
    }
}

// Counts a case that is as expected.
fn count(line: Line<'_>, told: u64, counts: &mut Counts) {
    counts.tick(CASES);
    counts.tick(line.number(6));
    if line.number(6) != 0 {
        counts.tick(BY_RULE);
    }
    counts.tick(WAYS + line.number(8));
    // 0 is no record, and 50 one that the Rust does not read
    if line.number(8) % 50 != 0 {
        counts.tick(RECORDS);
    }
    if line.pair(4) == 0 {
        count_kept(told, counts);
    }
}

// What differs in a case.
pub(crate) fn judge(line: Line<'_>, reader: Reader, counts: &mut Counts) -> Result<(), Difference> {
    let mut body_room = [0u8; 4096];
    let body = unescape(line.field(3), &mut body_room);
    let mut text_room = [0u8; 240];
    let text = unescape(line.field(19), &mut text_room);
    let mut record = [0u8; RECORD_SIZE];
    load(line, 9, b"", &mut record);
    let code = line.pair(4);
    read(reader, body, code, &record)?;
    let told = u64::from(reader.kept(body));
    if !is_kept(told, code, body, text) {
        return Err(Difference::Kept);
    }
    if line.number(8) != 0 && !is_written(line, &mut record, text) {
        return Err(Difference::Written);
    }
    count(line, told, counts);
    Ok(())
}
