// The readers of the eleven options: one for all, by option. What the Rust writes out in each `parse` of field50.rs and field59.rs
// is here in parts: the first line, then a BIC or names. The choices among options are a module.
#![tactic(auto)]

use errors::ParseError;
use field_utils::lines::{Lines, find_lf, is_ascii, lines_of, suffix};
use field_utils::{Names, parse_name_and_address, parse_party_identifier, starts_with_slash};
use party::{First, Layout, NO_PART, Part, Parts, Party, PartyOption, limits_of, part_of};
use record_bytes::{RECORD_SIZE, load, store_parts};
use swift_utils::{parse_account, parse_bic, parse_length};

pub mod choices;
pub mod traits;

ghost use Rattle.std.specs.Prelude.{◌≡◌, true, false, List, ℕ, suc, ◌+◌, ◌^◌, ◌<◌, length, drop, MatchResult};
ghost use Rattle.errors.specs.Refusals.{told};
ghost use Rattle.errors.specs.declared.ParseError.TheVariants.{PartyIdentifier};
ghost use Rattle.party.specs.Limits.{limits_of};
ghost use Rattle.party.specs.Text.{part_in};
ghost use Rattle.party.specs.Party.{party_in};
ghost use Rattle.field_utils.specs.Lines.{starts, lines};
ghost use Rattle.reader.specs.Reading.{told_answer, answer_from, party_of, told_into, leaves, read_into};
ghost use Rattle.reader.specs.Options.{is_counted, length_reply, account_reply, head_by, with_names, with_bic, after_head, by_lines, bic_only, text_only, body_reply, read_own, read as read_of};
ghost use Rattle.reader.specs.Code.{told_parts, IsHead, has_account, account_by, head_at, lines_before, nameless, reading_of};

// A text as an account: its length, then its bytes.
fn account(text: &[u8], option: PartyOption) -> Result<(), ParseError>
    ensures { told result ≡ account_reply option text.now }
{
    let limits = limits_of(option);
    parse_account(text, limits.account_min, limits.account_max, 1)
}

// Its length alone.
pub fn account_length(text: &[u8], option: PartyOption) -> Result<(), ParseError>
    ensures { told result ≡ length_reply option text.now }
{
    let limits = limits_of(option);
    parse_length(text, limits.account_min, limits.account_max, 1)
}

// Whether a first line has an account: it starts with a slash; in 59 and 59A it is not too long besides.
fn has_account(line: &[u8], option: PartyOption) -> bool
    ensures { result ≡ has_account (limits_of option).first option line.now }
{
    if !starts_with_slash(line) {
        return false;
    }
    let limits = limits_of(option);
    match limits.first {
        First::ShortAccount => suffix(line, 1).len() <= limits.account_max,
        _ => true,
    }
}

// 50K, 59, 59A: an account or none. A head is told by how many bytes of the line stand before its text.
fn account_head(line: &[u8], option: PartyOption) -> Result<Option<usize>, ParseError>
    ensures { IsHead line.now result (account_by (limits_of option).first option line.now) }
{
    if !has_account(line, option) {
        return Ok(None);
    }
    account(suffix(line, 1), option)?;
    Ok(Some(1))
}

// What follows the slash that a first line must start with.
fn after_slash(line: &[u8]) -> Result<&[u8], ParseError>
    ensures { MatchResult result (λ text. (starts 47 line.now ≡ true) × (text.now ≡ drop 1 line.now)) (λ e. (starts 47 line.now ≡ false) × (e ≡ PartyIdentifier 1)) }
{
    if starts_with_slash(line) {
        Ok(suffix(line, 1))
    } else {
        Err(ParseError::PartyIdentifier(1))
    }
}

// What an option makes of the first line: an account or identifier, or none.
fn parse_head(line: &[u8], option: PartyOption) -> Result<Option<usize>, ParseError>
    ensures { IsHead line.now result (head_by (limits_of option).first option line.now) }
{
    match limits_of(option).first {
        First::NoAccount => Ok(None),
        First::Identified => Ok(parse_party_identifier(line, 1, option)?.map(|_| 1)),
        First::SlashAccount => {
            account(after_slash(line)?, option)?;
            Ok(Some(1))
        }
        First::AnyAccount => {
            account_length(after_slash(line)?, option)?;
            Ok(Some(1))
        }
        First::WholeLine => {
            account(line, option)?;
            Ok(Some(0))
        }
        _ => account_head(line, option),
    }
}

// The lines of the names or the BIC, and the account or identifier that precedes them.
#[derive(Clone, Copy)]
struct RestAt<'a> {
    lines: Lines<'a>,
    account: Option<Part>,
}

impl RestAt<'_> {
    // How many lines precede them: that of the account or identifier, or none.
    fn start_idx(&self) -> u8
        ensures { result ≡ lines_before self.now.account }
    {
        u8::from(self.account.is_some())
    }
}

// The parts of a record without names.
fn nameless_parts(option: PartyOption, account: Option<Part>, bic: Part) -> Parts
    ensures { (body : List ℕ) → party_in body result ≡ party_of option (nameless (head_at body account) (part_in body bic)) }
{
    Parts {
        option,
        present: account.is_some(),
        account: account.unwrap_or(NO_PART),
        bic,
        count: 0,
        name_and_address: [NO_PART; 4],
        digits: [0u8; 4],
    }
}

// The lines that are left as names.
fn read_names(option: PartyOption, later: RestAt<'_>) -> Result<Parts, ParseError>
    ensures { told_parts later.entry.lines.text.now result ≡ reading_of option (with_names option (suc (lines_before later.entry.account)) (head_at later.entry.lines.text.now later.entry.account) (lines (drop later.entry.lines.at later.entry.lines.text.now))) }
{
    let Names {
        count,
        parts,
        digits,
    } = parse_name_and_address(later.lines, later.start_idx(), option)?;
    Ok(Parts {
        count,
        digits,
        name_and_address: parts,
        ..nameless_parts(option, later.account, NO_PART)
    })
}

// The next line as a BIC.
fn read_bic(option: PartyOption, later: RestAt<'_>) -> Result<Parts, ParseError>
    ensures { told_parts later.entry.lines.text.now result ≡ reading_of option (with_bic (suc (lines_before later.entry.account)) (head_at later.entry.lines.text.now later.entry.account) (lines (drop later.entry.lines.at later.entry.lines.text.now))) }
{
    let mut lines = later.lines;
    let Some(bic) = lines.next() else {
        return Err(ParseError::BicMissing);
    };
    parse_bic(
        part_of(later.lines.text, bic),
        usize::from(later.start_idx()) + 1,
    )?;
    Ok(nameless_parts(option, later.account, bic))
}

// The lines after the first one, or all, as the option has them.
fn read_rest(option: PartyOption, later: RestAt<'_>) -> Result<Parts, ParseError>
    ensures { told_parts later.entry.lines.text.now result ≡ reading_of option (after_head option (suc (lines_before later.entry.account)) (head_at later.entry.lines.text.now later.entry.account) (lines (drop later.entry.lines.at later.entry.lines.text.now))) }
{
    if limits_of(option).max_names == 0 {
        read_bic(option, later)
    } else {
        read_names(option, later)
    }
}

// Whether a body has as many lines as the option counts first; all but its first are left. Most options ask for no more than that line,
// or for one after it.
fn counts(option: PartyOption, rest: Lines<'_>) -> bool
    requires { length (lines rest.text.now) ≡ suc (length (lines (drop rest.at rest.text.now))) }
    ensures { result ≡ is_counted option (length (lines rest.entry.text.now)) }
{
    let limits = limits_of(option);
    if limits.max_lines == 0 && limits.min_lines <= 2 {
        return limits.min_lines < 2 || rest.at < rest.text.len();
    }
    let n = 1 + rest.count();
    limits.min_lines <= n && (limits.max_lines == 0 || n <= limits.max_lines)
}

// What of a line is behind its first bytes.
fn part_behind(line: Part, skip: usize) -> Part
    requires { line.start + line.len < 2 ^ 64 }
    ensures { (body : List ℕ) → part_in body result ≡ drop skip (part_in body line) }
{
    if line.len <= skip {
        return NO_PART;
    }
    Part {
        start: line.start + skip,
        len: line.len - skip,
    }
}

// A body by its lines: how many there are, the first, and the others.
fn read_lines(option: PartyOption, body: &[u8]) -> Result<Parts, ParseError>
    ensures { told_parts body.now result ≡ reading_of option (by_lines option (lines body.now)) }
{
    let mut rest = lines_of(body);
    let Some(first) = rest.next() else {
        return Err(ParseError::LineCount);
    };
    if !counts(option, rest) {
        return Err(ParseError::LineCount);
    }
    let later = match parse_head(part_of(body, first), option)? {
        Some(skip) => RestAt {
            lines: rest,
            account: Some(part_behind(first, skip)),
        },
        None => RestAt {
            lines: lines_of(body),
            account: None,
        },
    };
    read_rest(option, later)
}

// A body that is a BIC.
fn read_bic_only(option: PartyOption, body: &[u8]) -> Result<Parts, ParseError>
    ensures { told_parts body.now result ≡ reading_of option (bic_only body.now) }
{
    parse_bic(body, 1)?;
    Ok(nameless_parts(option, None, Part::whole(body)))
}

// A body that is a text without LF.
fn read_text_only(option: PartyOption, body: &[u8]) -> Result<Parts, ParseError>
    ensures { told_parts body.now result ≡ reading_of option (text_only option body.now) }
{
    if find_lf(body, 0) < body.len() {
        return Err(ParseError::LineCount);
    }
    account(body, option)?;
    Ok(nameless_parts(option, Some(Part::whole(body)), NO_PART))
}

// The most bytes of a body.
pub const BODY_MOST: usize = 2048;

// What any body must be: at most 2,048 bytes (12), none above 127 (13).
pub fn parse_body(body: &[u8]) -> Result<(), ParseError>
    ensures { told result ≡ body_reply body.now }
{
    if BODY_MOST < body.len() {
        return Err(ParseError::BodyTooLong);
    }
    if is_ascii(body) {
        Ok(())
    } else {
        Err(ParseError::NotAscii)
    }
}

// The option's own checks, after 12 and 13: the parts of the body that the record's texts are.
fn read_own(option: PartyOption, body: &[u8]) -> Result<Parts, ParseError>
    ensures { told_parts body.now result ≡ read_own option body.now }
{
    match limits_of(option).layout {
        Layout::BicOnly => read_bic_only(option, body),
        Layout::TextOnly => read_text_only(option, body),
        Layout::ByLines => read_lines(option, body),
    }
}

// The option's own checks, after 12, 13 and 42, with the record stored at the start of lent bytes, straight from the parts that were found;
// a refusal changes none.
pub(crate) fn read_own_into(
    option: PartyOption,
    body: &[u8],
    record: &mut [u8; RECORD_SIZE],
) -> Result<(), ParseError>
    ensures { told_into result «record».new ≡ leaves (read_own option body.now) «record».old }
{
    let parts = read_own(option, body)?;
    store_parts(parts, body, &mut record[..]);
    Ok(())
}

// The reader of an option, with the record stored at the start of lent bytes; a refusal changes none. 42 where they are under 241.
pub fn read_into(option: PartyOption, body: &[u8], record: &mut [u8]) -> Result<(), ParseError>
    ensures { told_into result «record».new ≡ read_into (read_of option body.now) «record».old }
{
    let Some(room) = record.first_chunk_mut() else {
        return Err(ParseError::ShortRecord);
    };
    parse_body(body)?;
    read_own_into(option, body, room)
}

// The answer of an outcome whose record is stored in a room.
pub fn answer_from(outcome: Result<(), ParseError>, room: &[u8]) -> Result<Party, ParseError>
    ensures { result ≡ answer_from outcome room.now }
{
    outcome?;
    Ok(load(room))
}

// The reader of an option, with the record by value. What was found has one user, so that it is copied nowhere.
pub fn read(option: PartyOption, body: &[u8]) -> Result<Party, ParseError>
    ensures { told_answer result ≡ read_of option body.now }
{
    let mut room = [0u8; RECORD_SIZE];
    let outcome = read_into(option, body, &mut room);
    answer_from(outcome, &room)
}
