// The seven choices among options of field50.rs and field59.rs, in one form: by a letter, or detected.
ghost use Rattle.std.specs.Prelude.{◌≡◌, eqb, length, take, drop};
ghost use Rattle.errors.specs.Refusals.{accepted};
ghost use Rattle.party.specs.Limits.{limits_of};
ghost use Rattle.party.specs.Text.{part_in};
ghost use Rattle.field_utils.specs.Identifier.{is_numbered};
ghost use Rattle.field_utils.specs.Lines.{lines};
ghost use Rattle.reader.specs.Reading.{told_answer, told_into, leaves, read_into};
ghost use Rattle.reader.specs.Options.{body_reply};
ghost use Rattle.reader.specs.Detection.{any_numbered, first_line, last_line, bic_like, test_line, holds as holds_of};
ghost use Rattle.reader.specs.Choices.{trials_of, tried_text, wanted, first_that, parse as parse_of, is_letter, parse_with_variant, read_text};
ghost use Rattle.reader.specs.ChoicesCode.{short_bic_line, ruled_out, is_open, asked_text};

use crate::{answer_from, parse_body, read_into, read_own_into};
use errors::ParseError;
use field_utils::lines::{Lines, lines_of, trim};
use field_utils::{is_numbered_line, starts_with_slash};
use party::{NO_PART, Part, Party, PartyOption, limits_of, part_of};
use record_bytes::RECORD_SIZE;
use swift_utils::{BIC_LONG, BIC_SHORT, all_alphanumeric, is_bic_length};

// The seven choices, under the names of the Rust's enums.
#[derive(Clone, Copy, Debug, PartialEq, Eq)]
pub enum Choice {
    Field50InstructingParty,
    Field50OrderingCustomerFGH,
    Field50OrderingCustomerAFK,
    Field50OrderingCustomerNCF,
    Field50Creditor,
    Field59,
    Field59Debtor,
}

// What is asked of a body's lines before an option is tried.
#[derive(Clone, Copy, Debug, PartialEq, Eq)]
pub enum Test {
    Always,
    // with 2 lines or more: a line after the first is numbered; the first has a slash and there are 2; the first has a slash
    LaterNumbered,
    SlashFirstOfTwo,
    SlashFirst,
    AnyNumbered,
    // the last, trimmed, is 8 or 11 letters or digits
    LastIsBic,
    // there is one, of 8 to 11 bytes
    BicSized,
    // the first, or the second where the first has a slash, is numbered
    FirstNumbered,
}

// An option that a choice tries, with its test.
#[derive(Clone, Copy, Debug, PartialEq, Eq)]
pub struct Trial(pub PartyOption, pub Test);

// What a choice tries, in its order.
fn trials_of(choice: Choice) -> &'static [Trial]
    ensures { result.now ≡ trials_of choice }
{
    match choice {
        Choice::Field50InstructingParty => &[
            Trial(PartyOption::Field50C, Test::Always),
            Trial(PartyOption::Field50L, Test::Always),
        ],
        Choice::Field50OrderingCustomerFGH => &[
            Trial(PartyOption::Field50F, Test::LaterNumbered),
            Trial(PartyOption::Field50G, Test::SlashFirstOfTwo),
            Trial(PartyOption::Field50H, Test::SlashFirst),
        ],
        Choice::Field50OrderingCustomerAFK => &[
            Trial(PartyOption::Field50F, Test::AnyNumbered),
            Trial(PartyOption::Field50A, Test::LastIsBic),
            Trial(PartyOption::Field50K, Test::Always),
        ],
        Choice::Field50OrderingCustomerNCF => &[
            Trial(PartyOption::Field50C, Test::BicSized),
            Trial(PartyOption::Field50F, Test::AnyNumbered),
            Trial(PartyOption::Field50NoOption, Test::Always),
        ],
        Choice::Field50Creditor => &[
            Trial(PartyOption::Field50A, Test::LastIsBic),
            Trial(PartyOption::Field50K, Test::Always),
        ],
        Choice::Field59 => &[
            Trial(PartyOption::Field59A, Test::Always),
            Trial(PartyOption::Field59F, Test::FirstNumbered),
            Trial(PartyOption::Field59NoOption, Test::Always),
        ],
        Choice::Field59Debtor => &[
            Trial(PartyOption::Field59A, Test::Always),
            Trial(PartyOption::Field59NoOption, Test::Always),
        ],
    }
}

// What is seen of a line: its length, and whether it is numbered.
#[derive(Clone, Copy)]
struct Seen {
    len: usize,
    numbered: bool,
}

impl Seen {
    // Looks at a line.
    fn of(line: &[u8]) -> Seen
        ensures length { result.len ≡ length line.now }
        ensures number { result.numbered ≡ is_numbered line.now }
    {
        Seen {
            len: line.len(),
            numbered: is_numbered_line(line),
        }
    }
}

// What the tests ask first of a text's lines: what is seen of two, and the others. A line that is not there is empty.
#[derive(Clone, Copy)]
struct LineSummary<'a> {
    // how many lines there are, at most 3
    count: usize,
    first: Seen,
    second: Seen,
    // the second line, or the only one
    last: Part,
    rest: Lines<'a>,
    ghost counted: { count ≡ length (take 3 (lines rest.text.now)) },
    ghost first_length: { first.len ≡ length (first_line (lines rest.text.now)) },
    ghost second_length: { second.len ≡ length (first_line (drop 1 (lines rest.text.now))) },
    ghost one: { first.numbered ≡ is_numbered (first_line (lines rest.text.now)) },
    ghost two: { second.numbered ≡ is_numbered (first_line (drop 1 (lines rest.text.now))) },
    ghost last_is: { part_in rest.text.now last ≡ last_line (take 2 (lines rest.text.now)) },
    ghost later: { lines (drop rest.at rest.text.now) ≡ drop 2 (lines rest.text.now) },
}

// Sums up the first two lines of a text.
fn summarize(text: &[u8]) -> LineSummary<'_>
    ensures { result.rest.text.now ≡ text.now }
{
    let mut rest = lines_of(text);
    let one = rest.next();
    let two = rest.next();
    let first = part_of(rest.text, one.unwrap_or(NO_PART));
    let second = part_of(rest.text, two.unwrap_or(NO_PART));
    let more = rest.at < rest.text.len();
    LineSummary {
        count: usize::from(one.is_some()) + usize::from(two.is_some()) + usize::from(more),
        first: Seen::of(first),
        second: Seen::of(second),
        last: two.or(one).unwrap_or(NO_PART),
        rest,
    }
}

// Whether a text is 8 or 11 letters or digits.
fn is_bic_like(text: &[u8]) -> bool
    ensures { result ≡ bic_like text.now }
{
    is_bic_length(text.len()) && all_alphanumeric(text)
}

// The methods lend what was seen: by value it would be copied for each that stays a call.
impl LineSummary<'_> {
    // Whether a line after the first is numbered: the second, or one of those that are walked now.
    fn later_numbered(&self) -> bool
        ensures { result ≡ any_numbered (drop 1 (lines self.now.rest.text.now)) }
    {
        let mut rest = self.rest;
        let text = rest.text;
        self.second.numbered || rest.any(|line| is_numbered_line(part_of(text, line)))
    }

    // Whether a line is numbered.
    fn any_numbered(&self) -> bool
        ensures { result ≡ holds_of Test.AnyNumbered (lines self.now.rest.text.now) }
    {
        self.first.numbered || self.later_numbered()
    }

    // The last line, as a part of the text.
    fn last_line(&self) -> &[u8]
        ensures { result.now ≡ last_line (lines self.now.rest.text.now) }
    {
        let last = self.rest.last().unwrap_or(self.last);
        part_of(self.rest.text, last)
    }

    // Whether the first line, or the second where the first has a slash, is numbered.
    fn first_numbered(&self) -> bool
        ensures { result ≡ holds_of Test.FirstNumbered (lines self.now.rest.text.now) }
    {
        if starts_with_slash(self.rest.text) {
            self.second.numbered
        } else {
            self.first.numbered
        }
    }

    // Whether a test holds of the lines.
    fn holds(&self, test: Test) -> bool
        ensures { result ≡ holds_of test (lines self.now.rest.text.now) }
    {
        match test {
            Test::Always => true,
            Test::LaterNumbered => self.later_numbered(),
            Test::SlashFirstOfTwo => self.count == 2 && starts_with_slash(self.rest.text),
            Test::SlashFirst => 2 <= self.count && starts_with_slash(self.rest.text),
            Test::AnyNumbered => self.any_numbered(),
            Test::LastIsBic => is_bic_like(trim(self.last_line())),
            Test::BicSized => self.count == 1 && (BIC_SHORT..=BIC_LONG).contains(&self.first.len),
            Test::FirstNumbered => self.first_numbered(),
        }
    }

    // The length of the line that 50A takes for its BIC.
    fn bic_line_length(&self) -> usize
        ensures { result ≡ length (test_line (lines self.now.rest.text.now)) }
    {
        if starts_with_slash(self.rest.text) {
            self.second.len
        } else {
            self.first.len
        }
    }

    // The length of the one that 59A takes: the first too where it has a slash and is too long for an account.
    fn short_bic_line(&self) -> usize
        ensures { result ≡ length (short_bic_line (lines self.now.rest.text.now)) }
    {
        if limits_of(PartyOption::Field59A).account_max + 1 < self.first.len {
            self.first.len
        } else {
            self.bic_line_length()
        }
    }

    // Whether an option refuses a text for the length of its BIC, by the lines that were asked.
    fn rules_out(&self, option: PartyOption, text: &[u8]) -> bool
        ensures { result ≡ ruled_out option text.now (lines self.now.rest.text.now) }
    {
        match option {
            PartyOption::Field50C => !is_bic_length(text.len()),
            PartyOption::Field50A => !is_bic_length(self.bic_line_length()),
            PartyOption::Field50G => !is_bic_length(self.second.len),
            PartyOption::Field59A => !is_bic_length(self.short_bic_line()),
            _ => false,
        }
    }

    // Whether an option is tried: it is not ruled out, and its test holds.
    fn is_open(&self, option: PartyOption, test: Test, text: &[u8]) -> bool
        ensures { result ≡ is_open option test text.now (lines self.now.rest.text.now) }
    {
        !self.rules_out(option, text) && self.holds(test)
    }
}

// What is tried: the body, trimmed in one choice.
pub fn tried_text(choice: Choice, body: &[u8]) -> &[u8]
    ensures { result.now ≡ tried_text choice body.now }
{
    match choice {
        Choice::Field50InstructingParty => trim(body),
        _ => body,
    }
}

// The text whose lines are asked: the body, and none in the choice that asks of no line.
fn asked_text(choice: Choice, body: &[u8]) -> &[u8]
    ensures { result.now ≡ asked_text choice body.now }
{
    match choice {
        Choice::Field50InstructingParty => &body[..0],
        _ => body,
    }
}

// After 12, 13 and 42: the first option that accepts, of those that are open; 11 where none does.
fn first_that(choice: Choice, body: &[u8], record: &mut [u8; RECORD_SIZE]) -> Result<(), ParseError>
    requires { body_reply body.now ≡ accepted }
    ensures { told_into result «record».new ≡ leaves (first_that (wanted (lines body.now) (trials_of choice)) (tried_text choice body.now)) «record».old }
{
    let text = tried_text(choice, body);
    let seen = summarize(asked_text(choice, body));
    for &Trial(option, test) in trials_of(choice) {
        if seen.is_open(option, test, text) && read_own_into(option, text, record).is_ok() {
            return Ok(());
        }
    }
    Err(ParseError::NoOption)
}

// Detects: 12 and 13 of the body as it came, then the options. The record is stored at the start of lent bytes; a refusal changes none.
// 42, before 12, where they are under 241.
pub fn parse_into(choice: Choice, body: &[u8], record: &mut [u8]) -> Result<(), ParseError>
    ensures { told_into result «record».new ≡ read_into (parse_of choice body.now) «record».old }
{
    let Some(room) = record.first_chunk_mut() else {
        return Err(ParseError::ShortRecord);
    };
    parse_body(body)?;
    first_that(choice, body, room)
}

// Whether a letter is A to Z, or 0 for none.
fn is_letter(letter: u8) -> bool
    ensures { result ≡ is_letter letter }
{
    letter == 0 || letter.is_ascii_uppercase()
}

// Whether an option has a letter; 0 is that of the options without one.
fn has_letter(option: PartyOption, letter: u8) -> bool
    ensures { result ≡ eqb letter (limits_of option).letter }
{
    letter == limits_of(option).letter
}

// By a letter, 0 for none: 14, then the option that has it; where none has, it detects. Stored as in parse_into, with 42 before 14.
pub fn parse_with_variant_into(
    choice: Choice,
    body: &[u8],
    letter: u8,
    record: &mut [u8],
) -> Result<(), ParseError>
    ensures { told_into result «record».new ≡ read_into (parse_with_variant choice body.now letter) «record».old }
{
    if record.len() < RECORD_SIZE {
        return Err(ParseError::ShortRecord);
    }
    if !is_letter(letter) {
        return Err(ParseError::NotALetter);
    }
    let picked = trials_of(choice)
        .iter()
        .find(|trial| has_letter(trial.0, letter));
    match picked {
        Some(&Trial(option, _)) => read_into(option, body, record),
        None => parse_into(choice, body, record),
    }
}

// Detects, with the record by value.
pub fn parse(choice: Choice, body: &[u8]) -> Result<Party, ParseError>
    ensures { told_answer result ≡ parse_of choice body.now }
{
    let mut room = [0u8; RECORD_SIZE];
    let outcome = parse_into(choice, body, &mut room);
    answer_from(outcome, &room)
}

// By a letter, with the record by value.
pub fn parse_with_variant(choice: Choice, body: &[u8], letter: u8) -> Result<Party, ParseError>
    ensures { told_answer result ≡ parse_with_variant choice body.now letter }
{
    let mut room = [0u8; RECORD_SIZE];
    let outcome = parse_with_variant_into(choice, body, letter, &mut room);
    answer_from(outcome, &room)
}

// What is read of a body by a letter: all of it where the letter picks an option, else what is tried. That is all of it but in the one
// choice that trims, of C and L.
pub fn read_text(choice: Choice, body: &[u8], letter: u8) -> &[u8]
    ensures { result.now ≡ read_text choice body.now letter }
{
    if has_letter(PartyOption::Field50C, letter) || has_letter(PartyOption::Field50L, letter) {
        body
    } else {
        tried_text(choice, body)
    }
}
