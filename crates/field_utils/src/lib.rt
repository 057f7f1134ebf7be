// Lines, identifiers and names, ported from field_utils.rs of swift-mt-message.
#![tactic(auto)]

use errors::ParseError;
use lines::Lines;
use party::{Limits, NO_PART, Numbering, Part, PartyOption, limits_of, part_of};
use swift_utils::{
    LEGAL, all_alphanumeric, all_in, class_table, is_digit, is_legal, parse_account,
};

pub mod lines;
mod words;

ghost use Rattle.std.specs.Prelude.{◌≡◌, suc, ◌+◌, ◌^◌, ◌<◌, true, length, drop, ◌==◌, slice_index, IfOk, MatchOption, ◌≤◌};
ghost use Rattle.errors.specs.Refusals.{accepted, told, must};
ghost use Rattle.party.specs.Limits.{limits_of};
ghost use Rattle.swift_utils.specs.Bytes.{among, all, legal};
ghost use Rattle.field_utils.specs.Lines.{starts, upto, lines as lines_of};
ghost use Rattle.field_utils.specs.Identifier.{is_numbered, told_identifier, parse_party_identifier, identifier_reply};
ghost use Rattle.field_utils.specs.Names.{skip_of, dropped_prefix, digit_of, parse_number, parse_count, read_names, told_names};
ghost use Rattle.field_utils.specs.Cursor.{line_places, name_places};
ghost use Rattle.field_utils.specs.Code.{parse_shape};

// Whether a line starts with a slash.
#[tactic(auto, using(crate::proofs::Identifiers::starts_none, crate::proofs::Identifiers::starts_first))]
pub fn starts_with_slash(line: &[u8]) -> bool
    ensures { result ≡ starts 47 line.now }
{
    matches!(line, [b'/', ..])
}

// Whether a line has a digit, then a slash.
#[tactic(auto, using(crate::proofs::Identifiers::numbered_short, crate::proofs::Identifiers::numbered_other, crate::proofs::Identifiers::numbered_slash))]
pub fn is_numbered_line(line: &[u8]) -> bool
    ensures { result ≡ is_numbered line.now }
{
    match line {
        [digit, b'/', ..] => is_digit(*digit),
        _ => false,
    }
}

// What a line says of an identifier: none, the line without its first slash, or the refusal; the longest is the option's.
pub fn parse_party_identifier(
    input: &[u8],
    line: usize,
    option: PartyOption,
) -> Result<Option<&[u8]>, ParseError>
    ensures { told_identifier input.now result ≡ parse_party_identifier option line input.now }
{
    if !starts_with_slash(input) {
        return Ok(None);
    }
    let remaining = &input[1..];
    parse_remaining(remaining, limits_of(option).account_max, line)?;
    Ok(Some(remaining))
}

// Whether a slash is among the bytes. No byte ends the loop, so that the compiler can take many at a time.
fn has_slash(s: &[u8]) -> bool
    ensures { result ≡ among s.now 47 }
{
    let mut seen = false;
    for b in s {
        seen |= *b == b'/';
    }
    seen
}

// Where the first slash stands, if there is one.
fn find_slash(s: &[u8]) -> Option<usize>
    ensures { MatchOption result (length s.now ≤ upto 47 s.now) (λ k. (k ≡ upto 47 s.now) × (k < length s.now)) }
{
    if has_slash(s) {
        s.iter().position(|b| *b == b'/')
    } else {
        None
    }
}

// What follows the first slash: a second one at once, a code before it, or none.
pub fn parse_remaining(remaining: &[u8], longest: usize, line: usize) -> Result<(), ParseError>
    ensures { told result ≡ identifier_reply longest line remaining.now }
{
    match find_slash(remaining) {
        None => parse_account(remaining, 0, longest, line),
        Some(0) => parse_account(&remaining[1..], 1, longest, line),
        Some(slash) if slash <= 2 && all_alphanumeric(&remaining[..slash]) => {
            parse_account(&remaining[slash + 1..], 0, longest, line)
        }
        Some(_) => Err(ParseError::PartyIdentifier(line)),
    }
}

// How many bytes stand before a line's text.
pub fn skip_of(numbering: Numbering) -> usize
    ensures { result ≡ skip_of numbering }
{
    match numbering {
        Numbering::Unnumbered => 0,
        Numbering::Numbered | Numbering::InTurn => 2,
    }
}

// A line of the names: its bytes, its number in the body, and its place among the names from 1.
#[derive(Clone, Copy)]
struct NameLine<'a> {
    text: &'a [u8],
    line: usize,
    turn: usize,
    ghost small: { turn < 2 ^ 63 },
}

impl NameLine<'_> {
    // Its number: 5, then 6.
    fn parse_number(&self, numbering: Numbering) -> Result<(), ParseError>
        ensures { told result ≡ parse_number numbering self.now.line self.now.turn self.now.text.now }
    {
        match numbering {
            Numbering::Unnumbered => Ok(()),
            Numbering::Numbered => self.parse_digit(),
            Numbering::InTurn => {
                self.parse_digit()?;
                self.parse_turn()
            }
        }
    }

    // A digit, then a slash, or 5.
    fn parse_digit(&self) -> Result<(), ParseError>
        ensures { told result ≡ must (is_numbered self.now.text.now) 5 self.now.line }
    {
        if is_numbered_line(self.text) {
            Ok(())
        } else {
            Err(ParseError::NotNumbered(self.line))
        }
    }

    // The digit of the turn, or 6.
    fn parse_turn(&self) -> Result<(), ParseError>
        requires { 0 < length self.now.text.now }
        ensures { told result ≡ must (slice_index self.now.text.now 0 == 48 + self.now.turn) 6 self.now.line }
    {
        if self.text[0] as usize == 48 + self.turn {
            Ok(())
        } else {
            Err(ParseError::OutOfTurn(self.line))
        }
    }

    // Before its bytes: its number, then the length of its text (4).
    #[tactic(auto, using(crate::proofs::NameLines::number_room))]
    fn parse_line(&self, limits: &Limits) -> Result<(), ParseError>
        ensures { told result ≡ parse_shape limits.now.numbering limits.now.name_max self.now.line self.now.turn self.now.text.now }
    {
        let numbering = limits.numbering;
        self.parse_number(numbering)?;
        if limits.name_max < self.text.len() - skip_of(numbering) {
            return Err(ParseError::TooLong(self.line));
        }
        Ok(())
    }
}

// The count of the names: 7.
pub fn parse_count(count: usize, most: usize) -> Result<(), ParseError>
    ensures { told result ≡ parse_count most count }
{
    if (1..=most).contains(&count) {
        Ok(())
    } else {
        Err(ParseError::NameCount)
    }
}

// How many bytes of a line of names are not kept in its text.
pub fn dropped_prefix(numbering: Numbering) -> usize
    ensures { result ≡ dropped_prefix numbering }
{
    match numbering {
        Numbering::Numbered => 2,
        Numbering::Unnumbered | Numbering::InTurn => 0,
    }
}

// The digit that is held beside the text of a line of names: 50F's, else 0.
fn digit_of(input: &[u8], numbering: Numbering) -> u8
    ensures { result ≡ digit_of numbering input.now }
{
    match numbering {
        Numbering::Numbered => input.first().copied().unwrap_or(0),
        Numbering::Unnumbered | Numbering::InTurn => 0,
    }
}

// The names of an accepted body: how many there are, the parts of the body that the first four are, and their digits.
#[derive(Clone, Copy, Debug, PartialEq, Eq)]
pub struct Names {
    pub count: usize,
    pub parts: [Part; 4],
    pub digits: [u8; 4],
}

// The bytes of a line that are tested one by one: none where they are known to be legal, else all.
fn untested(input: &[u8], known: bool) -> &[u8]
    requires { known ≡ true → all legal input.now ≡ true }
    ensures { all legal input.now ≡ all legal result.now }
{
    if known { &input[..0] } else { input }
}

// The lines of names that are left, which start_idx lines precede: each tested in order, its number, its length, then its bytes; and
// counted last. One test of all bytes comes first, and no byte is tested singly where it passes. The Rust writes this loop out in 50, 50F, 50K, 50H and 59F.
pub fn parse_name_and_address(
    mut lines: Lines<'_>,
    start_idx: u8,
    option: PartyOption,
) -> Result<Names, ParseError>
    ensures result_value { told_names lines.entry.text.now result ≡ read_names option (suc start_idx) (lines_of (drop lines.entry.at lines.entry.text.now)) }
    ensures places { IfOk result (λ n. n.parts ≡ name_places accepted (dropped_prefix (limits_of option).numbering) (line_places lines.entry.text.now lines.entry.at)) }
{
    let limits = limits_of(option);
    let kept = dropped_prefix(limits.numbering);
    let known = all_in(lines.rest(), class_table(), LEGAL);
    let mut parts = [NO_PART; 4];
    let mut digits = [0u8; 4];
    let mut count = 0;
    let illegal = 'lines: loop {
        let Some(part) = lines.next() else {
            break 'lines None;
        };
        let turn = count + 1;
        let line = start_idx as usize + turn;
        let text = part_of(lines.text, part);
        NameLine { text, line, turn }.parse_line(limits)?;
        for b in untested(text, known) {
            if !is_legal(*b) {
                break 'lines Some(line);
            }
        }
        if count < 4 {
            let start = part.start + kept;
            let len = part.len - kept;
            parts[count] = Part { start, len };
            digits[count] = digit_of(text, limits.numbering);
        }
        count = turn;
    };
    if let Some(line) = illegal {
        return Err(ParseError::IllegalByte(line));
    }
    parse_count(count, limits.max_names)?;
    Ok(Names {
        count,
        parts,
        digits,
    })
}
