// When a body, or a field of a page, is filed as the very bytes that came, and by which causes it is not. No Rust file has this.
#![tactic(auto)]

ghost use Rattle.std.specs.Prelude.{◌≡◌, ◌&&◌, ltb, eqb, get_or};
ghost use Rattle.reader.specs.Reading.{told_answer};
ghost use Rattle.kept.specs.Kept.{has_cr_lf, ends_lf, bic_line, is_after_bic, causes_of, kept_of, kept_read, kept_parse, kept_parse_with_variant, told_kept};
ghost use Rattle.kept.specs.Fields.{field_causes};

use errors::ParseError;
use field_utils::lines::count_lines;
use page_reader::body_place;
use party::{Party, PartyOption, limits_of};
use reader::choices::{Choice, read_text, tried_text};

// By which causes the written field is other bytes than came; none where all are false, as by default.
#[derive(Clone, Copy, Debug, Default, PartialEq, Eq)]
pub struct Causes {
    // a CR before an LF inside the body
    pub inner_cr: bool,
    // a last LF
    pub last_lf: bool,
    // lines after the BIC
    pub after_bic: bool,
    // blanks at the ends, which a choice trims
    pub blanks: bool,
    // on a page, a CR before the LF that closes the field
    pub closing_cr: bool,
}

// Whether a CR stands directly before an LF.
fn has_cr_lf(s: &[u8]) -> bool
    ensures { result ≡ has_cr_lf s.now }
{
    s.windows(2).any(|pair| matches!(pair, b"\r\n"))
}

// Whether the last byte is LF.
fn ends_lf(s: &[u8]) -> bool
    ensures { result ≡ ends_lf s.now }
{
    s.last() == Some(&b'\n')
}

// The BIC's line, by whether an account or identifier is there.
fn bic_line(present: bool) -> usize
    ensures { result ≡ bic_line present }
{
    if present { 2 } else { 1 }
}

// Whether a line stands after the BIC's.
fn is_after_bic(option: PartyOption, present: bool, text: &[u8]) -> bool
    ensures { result ≡ is_after_bic option present text.now }
{
    limits_of(option).bic_count != 0 && bic_line(present) < count_lines(text)
}

// The causes in a text that an option read.
fn causes_of(
    option: PartyOption,
    present: bool,
    text: &[u8],
    blanks: bool,
    closing_cr: bool,
) -> Causes
    ensures { result ≡ causes_of option present text.now blanks closing_cr }
{
    Causes {
        inner_cr: has_cr_lf(text),
        last_lf: ends_lf(text),
        after_bic: is_after_bic(option, present, text),
        blanks,
        closing_cr,
    }
}

// What is told of a reading of a text, which is the body or what trimming left of it.
fn keep(answer: Result<Party, ParseError>, text: &[u8], body: &[u8]) -> Result<Causes, ParseError>
    ensures { told_kept result ≡ kept_of (told_answer answer) text.now body.now }
{
    let party = answer?;
    let blanks = text.len() < body.len();
    Ok(causes_of(party.option, party.present, text, blanks, false))
}

// The causes in a body that an option reads.
pub fn read(option: PartyOption, body: &[u8]) -> Result<Causes, ParseError>
    ensures { told_kept result ≡ kept_read option body.now }
{
    keep(reader::read(option, body), body, body)
}

// In one that a choice reads, which detects.
pub fn parse(choice: Choice, body: &[u8]) -> Result<Causes, ParseError>
    ensures { told_kept result ≡ kept_parse choice body.now }
{
    keep(
        reader::choices::parse(choice, body),
        tried_text(choice, body),
        body,
    )
}

// In one that a choice reads by a letter, 0 for none.
pub fn parse_with_variant(choice: Choice, body: &[u8], letter: u8) -> Result<Causes, ParseError>
    ensures { told_kept result ≡ kept_parse_with_variant choice body.now letter }
{
    keep(
        reader::choices::parse_with_variant(choice, body, letter),
        read_text(choice, body, letter),
        body,
    )
}

// Whether a CR stands behind a body, by its start and its end. None starts at 0.
fn is_cr_after(page: &[u8], start: usize, end: usize) -> bool
    ensures { result ≡ (ltb 0 start && eqb (get_or page.now end 0) 13) }
{
    0 < start && page.get(end) == Some(&b'\r')
}

// The causes in the field of a page at a position, that an option read with or without an account or identifier; none where there is no
// field, or its tag is none of the eleven.
pub fn field_causes(option: PartyOption, present: bool, page: &[u8], at: usize) -> Causes
    ensures { result ≡ field_causes option present page.now at }
{
    let place = body_place(page, at);
    let start = place.start;
    let end = start + place.len;
    let closing_cr = is_cr_after(page, start, end);
    causes_of(option, present, &page[start..end], false, closing_cr)
}
