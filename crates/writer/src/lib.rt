// Writing a party as a field, ported from the `to_swift_string` of field50.rs and field59.rs of swift-mt-message. The Rust writes it out
// for each option; here the parts are a tag, an account or identifier, a BIC and names, as the option has them.
#![tactic(auto)]

ghost use Rattle.std.specs.Prelude.{◌≡◌, true, false, not, [], ◌∷◌, ◌++◌, ◌+◌, ◌≤◌, ◌<◌, leb, length, get_or};
ghost use Rattle.errors.specs.Refusals.{told};
ghost use Rattle.party.specs.Limits.{limits_of};
ghost use Rattle.party.specs.Text.{text_most, used};
ghost use Rattle.party.specs.Party.{content, where_limit};
ghost use Rattle.party.specs.declared.First.TheVariants.{Identified, AnyAccount};
ghost use Rattle.swift_utils.specs.Bytes.{all, among};
ghost use Rattle.swift_utils.specs.Classes.{plain};
ghost use Rattle.field_utils.specs.Names.{parse_number};
ghost use Rattle.field_utils.specs.Tags.{capital, tag_of};
ghost use Rattle.reader.specs.Options.{account_reply};
ghost use Rattle.record_bytes.specs.RecordBytes.{nth_text, decoded, laid_out};
ghost use Rattle.writer.specs.Writing.{slash_of, number_of, put, written_field, fits, placed};
ghost use Rattle.writer.specs.Given.{passes, every, text_reply, is_presence, is_bic, is_taken, is_given};
ghost use Rattle.writer.specs.Placing.{measure as measure_of, place as place_in, told_measured, told_placing};
ghost use Rattle.writer.specs.Cursor.{Moves};
ghost use Rattle.writer.specs.Code.{Counted, lead, follows, head_of, name_count, name_on, names_on, rest_on, line_reply, number_in, is_name, head_test, names_pass, count_test, texts_test, slash_name};

use errors::ParseError;
use field_utils::lines::{find_lf, is_ascii};
use field_utils::{
    dropped_prefix, is_numbered_line, parse_count, parse_remaining, skip_of, starts_with_slash,
};
use party::{First, Limits, Numbering, Party, PartyOption, TEXT_MOST, limits_of};
use reader::account_length;
use record_bytes::copies::copy;
use record_bytes::{
    count_of, digit_of, encoded, holds_record, option_of, present_of, text_length, used_text,
};
use swift_utils::{PLAIN, all_in, class_table, is_digit, parse_bic};

// The most bytes of a written field.
pub const FIELD_MOST: usize = 187;

// How many slashes stand before an account or identifier: one, but for 50F and 50L.
fn slash_count(option: PartyOption) -> usize
    ensures { Counted 1 (slash_of option) result }
{
    usize::from(limits_of(option).slash)
}

// How many LFs stand before a line: one, unless it is the first.
fn lf_count(later: bool) -> usize
    ensures { Counted 1 (lead later) result }
{
    usize::from(later)
}

// How many bytes the option's tag has: 4 or 5.
pub fn tag_length(option: PartyOption) -> usize
    ensures { result ≡ length (tag_of option) }
{
    if limits_of(option).letter == 0 { 4 } else { 5 }
}

// Puts a text at a place, if it fits; if not, no byte changes.
pub fn put_text(text: &[u8], buf: &mut [u8], at: usize) -> bool
    ensures value { result ≡ fits buf.old at text.now }
    ensures buf_after { buf.new ≡ placed buf.old at text.now }
{
    copy(text, buf, at)
}

// A place in a lent buffer: what is put goes there, and the place after it is the next. The buffer stays the one that was lent, as
// `Moves` says.
#[derive(Drop)]
struct Cursor<'a> {
    buf: &'a mut [u8],
    at: usize,
}

impl Cursor<'_> {
    // Puts a slice.
    fn put_bytes(&mut self, s: &[u8])
        requires { self.old.at + length s.now ≤ length self.old.buf.now }
        ensures { Moves self.old self.new s.now }
    {
        copy(s, self.buf, self.at);
        self.at += s.len();
    }

    // Puts a byte.
    fn put(&mut self, byte: u8)
        requires { self.old.at < length self.old.buf.now }
        ensures { Moves self.old self.new (byte ∷ []) }
    {
        self.buf[self.at] = byte;
        self.at += 1;
    }

    // Puts an LF, where it is asked for.
    fn put_lf(&mut self, later: bool)
        requires { self.old.at + length (lead later) ≤ length self.old.buf.now }
        ensures { Moves self.old self.new (lead later) }
    {
        if later {
            self.put(b'\n');
        }
    }

    // Puts a name's number, where the option writes it before the name.
    fn put_number(&mut self, numbering: Numbering, digit: u8)
        requires { self.old.at + length (number_of numbering digit) ≤ length self.old.buf.now }
        ensures { Moves self.old self.new (number_of numbering digit) }
    {
        match numbering {
            Numbering::Unnumbered | Numbering::InTurn => {}
            Numbering::Numbered => {
                self.put(digit);
                self.put(b'/');
            }
        }
    }

    // Puts a line: an LF unless it is the first line, a number, and a text.
    fn put_line(&mut self, later: bool, numbering: Numbering, digit: u8, text: &[u8])
        requires { self.old.at + length (lead later ++ (number_of numbering digit ++ text.now)) ≤ length self.old.buf.now }
        ensures { Moves self.old self.new (lead later ++ (number_of numbering digit ++ text.now)) }
    {
        self.put_lf(later);
        self.put_number(numbering, digit);
        self.put_bytes(text);
    }

    // Puts a tag's letter, 0 for none.
    fn put_letter(&mut self, letter: u8)
        requires { self.old.at + length (capital letter) ≤ length self.old.buf.now }
        ensures { Moves self.old self.new (capital letter) }
    {
        if letter != 0 {
            self.put(letter);
        }
    }

    // Puts the option's tag.
    fn put_tag(&mut self, option: PartyOption)
        requires { self.old.at + length (tag_of option) ≤ length self.old.buf.now }
        ensures { Moves self.old self.new (tag_of option) }
    {
        let limits = limits_of(option);
        self.put(b':');
        self.put(b'0' + limits.field / 10);
        self.put(b'0' + limits.field % 10);
        self.put_letter(limits.letter);
        self.put(b':');
    }

    // Puts the slash before an account or identifier, where the option has it.
    fn put_slash(&mut self, option: PartyOption)
        requires { self.old.at + length (slash_of option) ≤ length self.old.buf.now }
        ensures { Moves self.old self.new (slash_of option) }
    {
        if limits_of(option).slash {
            self.put(b'/');
        }
    }
}

// Whether no byte is an LF.
fn is_one_line(text: &[u8]) -> bool
    ensures { result ≡ not (among text.now 10) }
{
    text.len() <= find_lf(text, 0)
}

// Whether every byte is legal and no LF. One test of a byte's class says both.
fn is_plain(text: &[u8]) -> bool
    ensures { result ≡ all plain text.now }
{
    all_in(text, class_table(), PLAIN)
}

// Whether a line is an account by its length and its bytes.
fn is_plain_account(option: PartyOption, text: &[u8]) -> bool
    ensures { result ≡ line_reply (account_reply option text.now) text.now }
{
    account_length(text, option).is_ok() && is_plain(text)
}

// Whether a line is 50H's account: its length, and bytes of any kind up to 127. Most have none but legal ones, which one test says.
fn is_any_account(option: PartyOption, text: &[u8]) -> bool
    ensures { result ≡ line_reply (text_reply AnyAccount option text.now) text.now }
{
    account_length(text, option).is_ok() && (is_plain(text) || is_one_line(text) && is_ascii(text))
}

// Whether a line is an identifier after its slash.
fn is_identifier(option: PartyOption, text: &[u8]) -> bool
    ensures { result ≡ line_reply (text_reply Identified option text.now) text.now }
{
    is_one_line(text) && parse_remaining(text, limits_of(option).account_max, 1).is_ok()
}

// Whether the option's reader takes a line for an account or identifier.
fn is_account_text(option: PartyOption, text: &[u8]) -> bool
    ensures { result ≡ line_reply (text_reply (limits_of option).first option text.now) text.now }
{
    match limits_of(option).first {
        First::Identified => is_identifier(option, text),
        First::AnyAccount => is_any_account(option, text),
        _ => is_plain_account(option, text),
    }
}

// Whether a name has the number of its turn, where it is kept with its number, or its digit is one, where that stands beside it.
fn is_in_turn(text: &[u8], turn: usize, digit: u8, numbering: Numbering) -> bool
    requires { turn ≤ 4 }
    ensures { result ≡ passes (parse_number numbering turn turn (number_of numbering digit ++ text.now)) }
{
    match numbering {
        Numbering::Unnumbered => true,
        Numbering::Numbered => is_digit(digit),
        Numbering::InTurn => is_numbered_line(text) && text[0] as usize == 48 + turn,
    }
}

// How many bytes of a name are its number: 59F's digit and slash.
fn number_length(numbering: Numbering) -> usize
    ensures { result ≡ number_in numbering }
{
    skip_of(numbering) - dropped_prefix(numbering)
}

// A lent record: its bytes, and what they say of the option, the presence and the count.
#[derive(Clone, Copy)]
struct Lent<'a> {
    bytes: &'a [u8],
    option: PartyOption,
    present: bool,
    count: usize,
    ghost option_is: { option ≡ (laid_out bytes.now).option },
    ghost present_is: { present ≡ (laid_out bytes.now).present },
    ghost count_is: { count ≡ (laid_out bytes.now).count },
}

impl Lent<'_> {
    ghost use Rattle.writer.specs.Lent.{lent_party, lent_head};

    // The limits of its option.
    fn limits(&self) -> &'static Limits
        ensures { result.now ≡ limits_of (lent_party self.now).option }
    {
        limits_of(self.option)
    }

    // Whether a text, by its number among the six, is no longer than the 38 bytes that it has.
    fn is_whole(&self, n: usize) -> bool
        ensures { result ≡ leb (nth_text n (lent_party self.now)).len text_most }
    {
        text_length(self.bytes, n) <= TEXT_MOST
    }

    // The bytes of the account or identifier.
    fn account(&self) -> &[u8]
        ensures { result.now ≡ (used (lent_party self.now).account).bytes }
    {
        used_text(self.bytes, 0)
    }

    // The bytes of the BIC.
    fn bic(&self) -> &[u8]
        ensures { result.now ≡ (used (lent_party self.now).bic).bytes }
    {
        used_text(self.bytes, 1)
    }

    // The bytes of a name, by its place from 0 on.
    fn name(&self, i: usize) -> &[u8]
        requires { i < 4 }
        ensures { result.now ≡ (used (nth_text (2 + i) (lent_party self.now))).bytes }
    {
        used_text(self.bytes, 2 + i)
    }

    // How many names are used: as many as the count says, at most four, and none where the option has none.
    fn name_count(&self) -> usize
        ensures value { result ≡ name_count (lent_party self.now).option (lent_party self.now).count }
        ensures few { result ≤ 4 }
    {
        if self.limits().max_names == 0 {
            return 0;
        }
        self.count.min(4)
    }

    // Whether an account or identifier is written.
    fn has_head(&self) -> bool
        ensures { result ≡ lent_head self.now }
    {
        self.present && 0 < self.limits().account_max
    }

    // Whether an LF stands before a name, by its place from 0 on: before the first only where an account or identifier is written.
    fn has_lf(&self, i: usize) -> bool
        ensures { result ≡ follows (lent_head self.now) i }
    {
        0 < i || self.has_head()
    }

    // The length of an account or identifier, where it is written.
    fn head_length(&self) -> usize
        ensures { Counted 39 (head_of (lent_party self.now).option (lent_head self.now) (used (lent_party self.now).account)) result }
    {
        if !self.has_head() {
            return 0;
        }
        slash_count(self.option) + self.account().len()
    }

    // The length of a name's line with the LF before it, by the name's place from 0 on.
    fn name_length(&self, i: usize) -> usize
        requires { i < 4 }
        ensures { Counted 41 (name_on (lent_head self.now) i (lent_party self.now)) result }
    {
        lf_count(self.has_lf(i)) + dropped_prefix(self.limits().numbering) + self.name(i).len()
    }

    // The length of the names.
    fn names_length(&self) -> usize
        ensures { Counted 164 (names_on (lent_head self.now) (lent_party self.now)) result }
    {
        (0..self.name_count()).map(|i| self.name_length(i)).sum()
    }

    // The length of the BIC, or of the names.
    fn rest_length(&self) -> usize
        ensures { Counted 164 (rest_on (lent_head self.now) (lent_party self.now)) result }
    {
        if self.limits().bic_count == 0 {
            return self.names_length();
        }
        lf_count(self.has_head()) + self.bic().len()
    }

    // The length of the written field.
    fn written_length(&self) -> usize
        ensures { result ≡ length (written_field (content (lent_party self.now))) }
    {
        tag_length(self.option) + self.head_length() + self.rest_length()
    }

    // Puts an account or identifier, where it is written.
    fn put_account(&self, out: &mut Cursor)
        requires { out.old.at + length (head_of (lent_party self.now).option (lent_head self.now) (used (lent_party self.now).account)) ≤ length out.old.buf.now }
        ensures { Moves out.old out.new (head_of (lent_party self.now).option (lent_head self.now) (used (lent_party self.now).account)) }
    {
        if self.has_head() {
            out.put_slash(self.option);
            out.put_bytes(self.account());
        }
    }

    // Puts the names, each with the digit of its line where the option has it beside the name.
    fn put_names(&self, out: &mut Cursor)
        requires { out.old.at + length (names_on (lent_head self.now) (lent_party self.now)) ≤ length out.old.buf.now }
        ensures { Moves out.old out.new (names_on (lent_head self.now) (lent_party self.now)) }
    {
        let numbering = self.limits().numbering;
        let n = self.name_count();
        for i in 0..n {
            let digit = digit_of(self.bytes, i);
            out.put_line(self.has_lf(i), numbering, digit, self.name(i));
        }
    }

    // Puts the BIC, or the names.
    fn put_rest(&self, out: &mut Cursor)
        requires { out.old.at + length (rest_on (lent_head self.now) (lent_party self.now)) ≤ length out.old.buf.now }
        ensures { Moves out.old out.new (rest_on (lent_head self.now) (lent_party self.now)) }
    {
        if self.limits().bic_count == 0 {
            self.put_names(out);
        } else {
            out.put_lf(self.has_head());
            out.put_bytes(self.bic());
        }
    }

    // Puts the whole field.
    fn put_parts(&self, out: &mut Cursor)
        requires { out.old.at + length (written_field (content (lent_party self.now))) ≤ length out.old.buf.now }
        ensures { Moves out.old out.new (written_field (content (lent_party self.now))) }
    {
        out.put_tag(self.option);
        self.put_account(out);
        self.put_rest(out);
    }

    // Puts the field at the start of a buffer.
    fn put_field(&self, buf: &mut [u8])
        requires { length (written_field (content (lent_party self.now))) ≤ length buf.old }
        ensures { buf.new ≡ put buf.old 0 (written_field (content (lent_party self.now))) }
    {
        let mut out = Cursor { buf, at: 0 };
        self.put_parts(&mut out);
    }

    // Whether an account or identifier may be there, or may not be.
    fn is_presence(&self) -> bool
        ensures { result ≡ is_presence (lent_party self.now).option (lent_party self.now).present }
    {
        let limits = self.limits();
        if self.present {
            0 < limits.account_max
        } else {
            limits.account_min == 0
        }
    }

    // Whether the account or identifier, where the option has one, is one that its reader gives; one that is not there is empty.
    fn is_account(&self) -> bool
        ensures { result ≡ head_test (lent_party self.now).option (lent_party self.now).present (lent_party self.now) }
    {
        if self.limits().account_max == 0 {
            return true;
        }
        if !self.present {
            return text_length(self.bytes, 0) == 0;
        }
        self.is_whole(0) && is_account_text(self.option, self.account())
    }

    // Whether the BIC, where the option has one, is one. A BIC has no LF.
    fn is_bic(&self) -> bool
        ensures { result ≡ every is_bic (where_limit (limits_of (lent_party self.now).option).bic_count (used (lent_party self.now).bic ∷ [])) }
    {
        self.limits().bic_count == 0 || self.is_whole(1) && parse_bic(self.bic(), 1).is_ok()
    }

    // Whether a name, by its place from 0 on, is one of an option with such names, as its reader gives them.
    fn is_name(&self, i: usize, numbering: Numbering, longest: usize) -> bool
        requires { i < 4 }
        ensures { result ≡ is_name numbering longest (i + 1) (get_or (lent_party self.now).digits i 0) (used (nth_text (2 + i) (lent_party self.now))) }
    {
        if !self.is_whole(2 + i) {
            return false;
        }
        let text = self.name(i);
        if !is_in_turn(text, i + 1, digit_of(self.bytes, i), numbering) {
            return false;
        }
        if longest < text.len() - number_length(numbering) {
            return false;
        }
        is_plain(text)
    }

    // Whether each name is one that the option's reader gives.
    fn all_names(&self) -> bool
        ensures { result ≡ names_pass (lent_party self.now) }
    {
        let limits = self.limits();
        (0..self.name_count()).all(|i| self.is_name(i, limits.numbering, limits.name_max))
    }

    // Whether the names are as many as the count says, and as many as the option may have.
    fn is_counted(&self) -> bool
        ensures { result ≡ count_test (lent_party self.now) }
    {
        let n = self.name_count();
        let most = self.limits().max_names;
        n == self.count && (most == 0 || parse_count(n, most).is_ok())
    }

    // Whether there is a first name, and it starts with a slash.
    fn has_slash_name(&self) -> bool
        ensures { result ≡ slash_name (content (lent_party self.now)).names }
    {
        self.name_count() != 0 && starts_with_slash(self.name(0))
    }

    // Whether the first name would be taken for an account.
    fn is_taken(&self) -> bool
        ensures { result ≡ is_taken (limits_of (lent_party self.now).option).first (content (lent_party self.now)).names }
    {
        match self.limits().first {
            First::Account | First::ShortAccount => self.has_slash_name(),
            _ => false,
        }
    }

    // Whether the account or identifier and the names are such that the option's reader gives.
    fn are_texts(&self) -> bool
        ensures { result ≡ texts_test (lent_party self.now).option (lent_party self.now).present (lent_party self.now) }
    {
        self.is_account() && (self.present || !self.is_taken()) && self.all_names()
    }

    // Whether a lent record is the same as one that an accepted body gives.
    fn is_given(&self) -> bool
        ensures { result ≡ is_given (content (lent_party self.now)) }
    {
        self.is_presence() && self.is_bic() && self.is_counted() && self.are_texts()
    }
}

// Measures a lent record, and puts its field at the start of the buffer where it fits. The answer is that of measuring, whatever the space.
fn put_measured(record: &[u8], buf: &mut [u8]) -> Result<usize, ParseError>
    ensures result_value { told_measured result ≡ measure_of (content (decoded «record».now)) }
    ensures buf_after { buf.new ≡ (place_in (content (decoded «record».now)) buf.old).buffer }
{
    if !holds_record(record) {
        return Err(ParseError::NoSuchRecord);
    }
    let lent = Lent {
        bytes: record,
        option: option_of(record),
        present: present_of(record),
        count: count_of(record),
    };
    if !lent.is_given() {
        return Err(ParseError::NoSuchRecord);
    }
    let n = lent.written_length();
    if n <= buf.len() {
        lent.put_field(buf);
    }
    Ok(n)
}

// Measures a lent record, as crate record_bytes lays it out: the length of its written field, or 22 for one that no reader gives. No space is
// lent for it.
pub fn measure_record(record: &[u8]) -> Result<usize, ParseError>
    ensures { told_measured result ≡ measure_of (content (decoded «record».now)) }
{
    put_measured(record, &mut [])
}

// Places the field of a lent record at the start of the buffer, and measures for itself: 22, 24. A refusal changes no byte.
pub fn place_record(record: &[u8], buf: &mut [u8]) -> Result<usize, ParseError>
    ensures { told_placing result buf.new ≡ place_in (content (decoded «record».now)) buf.old }
{
    let n = put_measured(record, buf)?;
    if buf.len() < n {
        return Err(ParseError::NoSpace);
    }
    Ok(n)
}

// Measures a record, through its bytes.
pub fn measure(p: Party) -> Result<usize, ParseError>
    ensures { told_measured result ≡ measure_of (content p) }
{
    measure_record(&encoded(p))
}

// Places the field of a record, through its bytes.
pub fn place(p: Party, buf: &mut [u8]) -> Result<usize, ParseError>
    ensures { told_placing result buf.new ≡ place_in (content p) buf.old }
{
    place_record(&encoded(p), buf)
}
