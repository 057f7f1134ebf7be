// Party fields and pages of them for programs in other languages, on numbers and lent bytes. A record is 241 bytes, as crate record_bytes lays it
// out. The number that a call gives is the refusal's number × 65,536 and its line, or below 65,536 where it accepts; the reads and
// the filing of a page give more beside it. A refusal changes no byte and no number that is lent.
#![tactic(auto)]

ghost use Rattle.std.specs.Prelude.{◌≡◌, true, ◌+◌, ◌*◌, ◌<◌, length, leb};
ghost use Rattle.std.specs.Bool.{then_some};
ghost use Rattle.party.specs.Limits.{option_at};
ghost use Rattle.party.specs.Party.{content};
ghost use Rattle.reader.specs.Reading.{told_answer};
ghost use Rattle.writer.specs.Writing.{written_field};
ghost use Rattle.page_reader.specs.Pages.{a_record, read_at, outline, told_kind, told_read_into};
ghost use Rattle.page_reader.specs.Reads.{read_here};
ghost use Rattle.page_writer.specs.IndexState.{no_index, an_index};
ghost use Rattle.page_writer.specs.Adding.{with_lf};
ghost use Rattle.kept.specs.Kept.{told_kept};
ghost use Rattle.kept.specs.Fields.{causes_by};
ghost use Rattle.record_bytes.specs.RecordBytes.{decoded};
ghost use Rattle.yewdome.specs.Filing.{open_page};
ghost use Rattle.yewdome.specs.Interface.{causes_unit, packed, code_of, argument_reply, stored_call, code_or, party_read, choice_at, party_parse, party_parse_with_variant, profile_read, profile_parse, profile_parse_with_variant, party_measure, party_place, page_read, causes_code, kept_read_code, kept_parse_code, kept_variant_code, page_kept, page_look_up, page_body, page_add, page_add_index, page_close, page_answers, page_file};
ghost use Rattle.yewdome.specs.Code.{Named, told_call_error, told_check, allowed, checked, Small, answer_code, IsMove, move_code, step_by, is_record, follows, told_step, Walks};

use errors::{ParseError, Refusal};
use kept::{Causes, field_causes};
use page_reader::index::{INDEX_SIZE, look_up_into};
use page_reader::{PageRead, body_place, read_at_into};
use page_writer::{add_indexed_record, add_record, close};
use party::{OPTION_COUNT, Party, PartyOption, option_at};
use reader::choices::{Choice, parse_into, parse_with_variant_into};
use reader::read_into;
use record_bytes::{RECORD_SIZE, has_option, option_of, present_of, store};
use writer::{measure_record, place_record};

// A position, a line of a body and how many bytes a read moved past are below this.
pub const POSITION_ROOM: u32 = 65536;

// A read's end: this and the bytes moved past.
pub const READ_END: u64 = POSITION_ROOM as u64;

// Beside these stand the causes of a field.
pub const CAUSES_UNIT: u64 = 2 * READ_END;

// Two numbers of 32 bits in one.
pub const PACK_UNIT: u64 = 1 << 32;

// What a call refuses for. Document 01 has neither of the interface's own two.
#[derive(Clone, Copy)]
enum CallError {
    // 41: no such option or choice
    NoneSuch,
    // 43: too few numbers lent for answers
    ShortAnswers,
    // what the crates below refuse for: 42, a lent record of under 241 bytes, or document 01's
    Refused(ParseError),
}

// What a call asks for, where a record is lent that has room for one; else its refusal, before document 01's.
fn check<T: Drop>(record: &[u8], asked: Option<T>) -> Result<T, CallError>
    ensures { told_check result ≡ checked (length «record».now) asked }
{
    if record.len() < RECORD_SIZE {
        return Err(CallError::Refused(ParseError::ShortRecord));
    }
    asked.ok_or(CallError::NoneSuch)
}

// The same of a record lent to be measured, placed or added, whose first byte is the option's place.
fn check_record(record: &[u8]) -> Result<(), CallError>
    ensures { told_check result ≡ allowed (argument_reply «record».now) tt }
{
    check(record, has_option(record).then_some(()))
}

// The option at a place in the table, 0 to 10.
fn known_option(place: u8) -> Option<PartyOption>
    ensures { result ≡ then_some (leb place 10) (option_at place) }
{
    let place = place as usize;
    (place < OPTION_COUNT).then_some(option_at(place))
}

// The choices in document 01's order.
static CHOICES: [Choice; 7] = [
    Choice::Field50InstructingParty,
    Choice::Field50OrderingCustomerFGH,
    Choice::Field50OrderingCustomerAFK,
    Choice::Field50OrderingCustomerNCF,
    Choice::Field50Creditor,
    Choice::Field59,
    Choice::Field59Debtor,
];

// The choice at a place, 0 to 6.
fn known_choice(place: u8) -> Option<Choice>
    ensures { result ≡ then_some (leb place 6) (choice_at place) }
{
    CHOICES.get(place as usize).copied()
}

// A refusal as a number.
fn code(e: CallError) -> u32
    requires { Named (told_call_error e) }
    ensures { result ≡ code_of (told_call_error e) }
{
    let refusal = match e {
        CallError::NoneSuch => Refusal {
            number: 41,
            line: 0,
        },
        CallError::ShortAnswers => Refusal {
            number: 43,
            line: 0,
        },
        CallError::Refused(e) => Refusal::from(e),
    };
    u32::from(refusal.number) * POSITION_ROOM + refusal.line as u32
}

// Two numbers of 32 bits as one.
fn pack(high: u32, low: u32) -> u64
    ensures { result ≡ packed high low }
{
    u64::from(high) * PACK_UNIT + u64::from(low)
}

// What a call answers as a number: a value below 65,536, or the refusal.
fn answered(answer: Result<usize, ParseError>) -> u32
    requires { Small answer }
    ensures { result ≡ answer_code answer }
{
    match answer {
        Ok(n) => n as u32,
        Err(e) => code(CallError::Refused(e)),
    }
}

// Stores the record that a reader gave.
fn store_answer(answer: Result<Party, ParseError>, out: &mut [u8]) -> u32
    requires { Named (told_answer answer).reply }
    ensures { (record { code = result; bytes = out.new }) ≡ stored_call (told_answer answer).reply (told_answer answer).party out.old }
{
    match answer {
        Ok(party) => {
            store(party, out);
            0
        }
        Err(e) => code(CallError::Refused(e)),
    }
}

// Reads a body by the option at a place in the table, 0 to 10, and stores the record.
pub fn yewdome_party_read(option: u8, body: &[u8], record: &mut [u8]) -> u32
    ensures { (record { code = result; bytes = «record».new }) ≡ party_read option body.now «record».old }
{
    match check(record, known_option(option)) {
        Ok(option) => answered(read_into(option, body, record).and(Ok(0))),
        Err(e) => code(e),
    }
}

// Reads a body by the choice at a place, 0 to 6 in document 01's order, which detects the option, and stores the record.
pub fn yewdome_party_parse(choice: u8, body: &[u8], record: &mut [u8]) -> u32
    ensures { (record { code = result; bytes = «record».new }) ≡ party_parse choice body.now «record».old }
{
    match check(record, known_choice(choice)) {
        Ok(choice) => answered(parse_into(choice, body, record).and(Ok(0))),
        Err(e) => code(e),
    }
}

// The same by a letter, 0 for none.
pub fn yewdome_party_parse_with_variant(
    choice: u8,
    body: &[u8],
    letter: u8,
    record: &mut [u8],
) -> u32
    ensures { (record { code = result; bytes = «record».new }) ≡ party_parse_with_variant choice body.now letter «record».old }
{
    match check(record, known_choice(choice)) {
        Ok(choice) => answered(parse_with_variant_into(choice, body, letter, record).and(Ok(0))),
        Err(e) => code(e),
    }
}

// Reads a body by the option at a place under the network profile, and stores the record.
pub fn yewdome_profile_read(option: u8, body: &[u8], record: &mut [u8]) -> u32
    ensures { (record { code = result; bytes = «record».new }) ≡ profile_read option body.now «record».old }
{
    match check(record, known_option(option)) {
        Ok(option) => store_answer(profile::read(option, body), record),
        Err(e) => code(e),
    }
}

// The same by the choice at a place, which detects the option.
pub fn yewdome_profile_parse(choice: u8, body: &[u8], record: &mut [u8]) -> u32
    ensures { (record { code = result; bytes = «record».new }) ≡ profile_parse choice body.now «record».old }
{
    match check(record, known_choice(choice)) {
        Ok(choice) => store_answer(profile::parse(choice, body), record),
        Err(e) => code(e),
    }
}

// The same by a letter, 0 for none.
pub fn yewdome_profile_parse_with_variant(
    choice: u8,
    body: &[u8],
    letter: u8,
    record: &mut [u8],
) -> u32
    ensures { (record { code = result; bytes = «record».new }) ≡ profile_parse_with_variant choice body.now letter «record».old }
{
    match check(record, known_choice(choice)) {
        Ok(choice) => store_answer(profile::parse_with_variant(choice, body, letter), record),
        Err(e) => code(e),
    }
}

// Measures a stored record: gives the length of its field.
pub fn yewdome_party_measure(record: &[u8]) -> u32
    ensures { result ≡ party_measure «record».now }
{
    match check_record(record) {
        Ok(()) => answered(measure_record(record)),
        Err(e) => code(e),
    }
}

// Places the field of a stored record at the start of a buffer, and gives its length. It measures for itself.
pub fn yewdome_party_place(record: &[u8], buf: &mut [u8]) -> u32
    ensures { (record { code = result; bytes = buf.new }) ≡ party_place «record».now buf.old }
{
    match check_record(record) {
        Ok(()) => answered(place_record(record, buf)),
        Err(e) => code(e),
    }
}

// What a read of a page gave, and how many bytes it moved past, as a number.
fn moved_past(outcome: Result<Option<()>, ParseError>, moved: usize) -> u64
    requires { IsMove (told_kind outcome) moved }
    ensures { result ≡ move_code (told_kind outcome) moved }
{
    let moved = moved as u32;
    match outcome {
        Ok(Some(())) => u64::from(moved),
        Ok(None) => READ_END + u64::from(moved),
        Err(e) => pack(code(CallError::Refused(e)), moved),
    }
}

// Reads the page at a position and stores the record that it gives; the end changes no byte. Gives the number × 4,294,967,296, 65,536 more
// at the end, and how many bytes the read moved past, 0 at 17, 18, 21 and 42.
pub fn yewdome_page_read(page: &[u8], at: usize, record: &mut [u8]) -> u64
    ensures { (record { code = result; bytes = «record».new }) ≡ page_read page.now at «record».old }
{
    let read = read_at_into(page, at, record);
    moved_past(read.outcome, read.next - at)
}

// Looks up field k of a page, counted from 1, in an index and stores the record that it gives. Gives what `yewdome_page_read` does at the
// field's position; at 18, 31, 21 and 42 no byte is moved past.
pub fn yewdome_page_look_up(
    page: &[u8],
    index: &[u32; INDEX_SIZE],
    k: usize,
    record: &mut [u8],
) -> u64
    ensures { (record { code = result; bytes = «record».new }) ≡ page_look_up page.now index.now k «record».old }
{
    match look_up_into(page, index, k, record) {
        Ok(field) => moved_past(field.outcome.and(Ok(Some(()))), field.next - field.at),
        Err(e) => moved_past(Err(e), 0),
    }
}

// The place in the page of the body of the field at a position × 4,294,967,296, and its length; 0 where there is no field, or its tag is none
// of the eleven.
pub fn yewdome_page_body(page: &[u8], at: usize) -> u64
    ensures { result ≡ page_body page.now at }
{
    let place = body_place(page, at);
    pack(place.start as u32, place.len as u32)
}

// Adds a stored record to the page in a buffer at a position, and gives the position after.
pub fn yewdome_page_add(record: &[u8], buf: &mut [u8], position: usize) -> u32
    ensures { (record { code = result; bytes = buf.new }) ≡ page_add «record».now buf.old position no_index }
{
    match check_record(record) {
        Ok(()) => answered(add_record(record, buf, position)),
        Err(e) => code(e),
    }
}

// Adds a stored record to the page with an index in a buffer at a position, notes its entry, and gives the position after.
pub fn yewdome_page_add_indexed(
    record: &[u8],
    buf: &mut [u8],
    position: usize,
    index: &mut [u32; INDEX_SIZE],
) -> u32
    ensures buf_after { (record { code = result; bytes = buf.new }) ≡ page_add «record».now buf.old position (an_index index.old) }
    ensures index { an_index index.new ≡ page_add_index «record».now buf.old position (an_index index.old) }
{
    match check_record(record) {
        Ok(()) => answered(add_indexed_record(record, buf, position, index)),
        Err(e) => code(e),
    }
}

// Closes the page in a buffer at a position, and gives the page's length.
pub fn yewdome_page_close(buf: &mut [u8], position: usize) -> u32
    ensures { (record { code = result; bytes = buf.new }) ≡ page_close buf.old position }
{
    answered(close(buf, position))
}

// The causes as a number, a bit for each.
fn causes_code(causes: Causes) -> u32
    ensures { result ≡ causes_code causes }
{
    u32::from(causes.inner_cr)
        + 2 * u32::from(causes.last_lf)
        + 4 * u32::from(causes.after_bic)
        + 8 * u32::from(causes.blanks)
        + 16 * u32::from(causes.closing_cr)
}

// What is told of a body.
fn kept_code(kept: Result<Causes, ParseError>) -> u32
    requires { Named (told_kept kept).reply }
    ensures { result ≡ code_or (told_kept kept).reply (causes_code (told_kept kept).causes) }
{
    match kept {
        Ok(causes) => causes_code(causes),
        Err(e) => code(CallError::Refused(e)),
    }
}

// By which causes the written body of what an option reads is other bytes than the body, 0 where it is the very body; or the refusal.
pub fn yewdome_kept_read(option: u8, body: &[u8]) -> u32
    ensures { result ≡ kept_read_code option body.now }
{
    match known_option(option) {
        Some(option) => kept_code(kept::read(option, body)),
        None => code(CallError::NoneSuch),
    }
}

// The same by a choice, which detects the option.
pub fn yewdome_kept_parse(choice: u8, body: &[u8]) -> u32
    ensures { result ≡ kept_parse_code choice body.now }
{
    match known_choice(choice) {
        Some(choice) => kept_code(kept::parse(choice, body)),
        None => code(CallError::NoneSuch),
    }
}

// The same by a choice and a letter, 0 for none.
pub fn yewdome_kept_parse_with_variant(choice: u8, body: &[u8], letter: u8) -> u32
    ensures { result ≡ kept_variant_code choice body.now letter }
{
    match known_choice(choice) {
        Some(choice) => kept_code(kept::parse_with_variant(choice, body, letter)),
        None => code(CallError::NoneSuch),
    }
}

// Whether a read of a page gave a record.
fn is_record(outcome: Result<Option<()>, ParseError>) -> bool
    ensures { result ≡ is_record (told_kind outcome) }
{
    matches!(outcome, Ok(Some(())))
}

// A page that is filled: its buffer, which stays the one that was lent, as `same_reference` says, and the position to add at.
#[derive(Drop)]
struct NewPage<'a> {
    buf: &'a mut [u8],
    position: usize,
}

// A record that a read of a page gave: where it was read, its bytes, and how many bytes of the page the read moved past.
#[derive(Clone, Copy)]
struct ReadRecord<'a> {
    page: &'a [u8],
    at: usize,
    bytes: &'a [u8],
    moved: usize,
    ghost read: { (read_at page.now at).outcome ≡ a_record (decoded bytes.now) },
    ghost moves: { (read_at page.now at).next ≡ at + moved },
}

impl ReadRecord<'_> {
    // The causes in its field.
    fn causes(&self) -> u32
        ensures { result ≡ causes_code (causes_by self.now.page.now self.now.at (read_at self.now.page.now self.now.at).outcome) }
    {
        let option = option_of(self.bytes);
        let present = present_of(self.bytes);
        causes_code(field_causes(option, present, self.page, self.at))
    }

    // The causes of one that was filed, by the bytes that were written besides. Where more follows the field and the read moved past as many,
    // nothing was left off.
    fn filed_causes(&self, written: usize) -> u32
        requires { written ≡ length (with_lf (written_field (content (decoded self.now.bytes.now)))) }
        ensures { result ≡ causes_code (causes_by self.now.page.now self.now.at (read_at self.now.page.now self.now.at).outcome) }
    {
        if self.at + self.moved < self.page.len() && self.moved == written {
            return 0;
        }
        self.causes()
    }

    // The causes, and how many bytes the read moved past, as a number.
    fn with_causes(&self, causes: u32) -> u64
        ensures { result ≡ causes * causes_unit + self.now.moved }
    {
        u64::from(causes) * CAUSES_UNIT + self.moved as u64
    }

    // Adds it to a page, and moves that page's position on: the read's answer.
    fn file(&self, out: &mut NewPage) -> u64
        ensures answer { told_step result out.new.buf.now out.new.position ≡ step_by true self.now.page.now (open_page out.old.buf.now out.old.position) (read_here self.now.page.now self.now.at) }
        ensures same_reference { out.new.buf.ghost_name ≡ out.old.buf.ghost_name }
    {
        match add_record(self.bytes, out.buf, out.position) {
            Ok(to) => {
                let causes = self.filed_causes(to - out.position);
                out.position = to;
                self.with_causes(causes)
            }
            Err(e) => pack(code(CallError::Refused(e)), self.moved as u32),
        }
    }
}

// What `yewdome_page_read` gives at a position and, where that is a record, which is stored nowhere, the causes of its field × 131,072.
pub fn yewdome_page_kept(page: &[u8], at: usize) -> u64
    ensures { result ≡ page_kept page.now at }
{
    let mut record = [0; RECORD_SIZE];
    let read = read_at_into(page, at, &mut record);
    let moved = read.next - at;
    if is_record(read.outcome) {
        let given = ReadRecord {
            page,
            at,
            bytes: &record,
            moved,
        };
        given.with_causes(given.causes())
    } else {
        moved_past(read.outcome, moved)
    }
}

// Where the read after one is: nowhere after the end, or after one that does not move on.
fn next_read(read: PageRead<()>, at: usize) -> Option<usize>
    ensures { result ≡ follows (told_read_into read) at }
{
    match read.outcome {
        Ok(None) => None,
        _ => (read.next != at).then_some(read.next),
    }
}

// Reads the page at a position and, where it files, adds the record that it gives to the new page. Gives the answer, and where the next read
// is.
fn step(page: &[u8], at: usize, files: bool, out: &mut NewPage) -> (u64, Option<usize>)
    ensures answer { told_step result.0 out.new.buf.now out.new.position ≡ step_by files page.now (open_page out.old.buf.now out.old.position) (read_here page.now at) }
    ensures same_reference { out.new.buf.ghost_name ≡ out.old.buf.ghost_name }
    ensures next { result.1 ≡ follows (outline (read_at page.now at)) at }
{
    let mut record = [0; RECORD_SIZE];
    let read = read_at_into(page, at, &mut record);
    let moved = read.next - at;
    let answer = if files && is_record(read.outcome) {
        let given = ReadRecord {
            page,
            at,
            bytes: &record,
            moved,
        };
        given.file(out)
    } else {
        moved_past(read.outcome, moved)
    };
    (answer, next_read(read, at))
}

// Reads the page from its start, read after read, up to the last: the end, or one that does not move on. Where it files, adds the record of
// each to the page in the buffer. Stores the answers, and gives how many there are and the position to close the new page at.
fn walk(page: &[u8], files: bool, buf: &mut [u8], answers: &mut [u64]) -> (usize, usize)
    requires { length page.now < length answers.old }
    ensures { Walks files page.now buf.old answers.old result.0 result.1 buf.new answers.new }
{
    let mut next = Some(0);
    let mut out = NewPage { buf, position: 0 };
    for (count, slot) in answers.iter_mut().enumerate() {
        let Some(at) = next else {
            return (count, out.position);
        };
        (*slot, next) = step(page, at, files, &mut out);
    }
    (answers.len(), out.position)
}

// Reads the page from its start to the last read, and stores what `yewdome_page_read` gives of each. Gives how many there are.
pub fn yewdome_page_answers(page: &[u8], answers: &mut [u64]) -> u32
    ensures { (record { code = result; answers = answers.new }) ≡ page_answers page.now answers.old }
{
    if answers.len() <= page.len() {
        return code(CallError::ShortAnswers);
    }
    let (count, _) = walk(page, false, &mut [], answers);
    count as u32
}

// Files the records that a page's reads give on a new page in the buffer, and closes that. Stores the answers as `yewdome_page_answers` does, but
// that of a record which is filed has the causes that `yewdome_page_kept` gives, and that of one which is not is the refusal to add it. Gives
// how many there are × 4,294,967,296, and the new page's length, or the refusal to close it.
pub fn yewdome_page_file(page: &[u8], buf: &mut [u8], answers: &mut [u64]) -> u64
    ensures { (record { code = result; bytes = buf.new; answers = answers.new }) ≡ page_file page.now buf.old answers.old }
{
    if answers.len() <= page.len() {
        return u64::from(code(CallError::ShortAnswers));
    }
    let (count, position) = walk(page, true, buf, answers);
    pack(count as u32, yewdome_page_close(buf, position))
}
