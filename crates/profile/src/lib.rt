// The network profile (document 02, Five): a body is read by an option or a choice as ever, then tested line by line as it came.
#![tactic(auto)]

ghost use Rattle.std.specs.Prelude.{◌≡◌, ◌&&◌};
ghost use Rattle.errors.specs.Refusals.{told};
ghost use Rattle.party.specs.Text.{used};
ghost use Rattle.reader.specs.Reading.{told_answer};
ghost use Rattle.profile.specs.Profile.{is_same, holds_bic, is_narrow, is_capital, is_opening, is_inside, profile_reply, profiled, read_profiled, parse_profiled, parse_with_variant_profiled};

use errors::ParseError;
use field_utils::lines::{lines_of, trim};
use party::{Party, PartyOption, Text, limits_of, part_of};
use reader::choices::Choice;
use swift_utils::{NARROW, SMALL, is_in};

// Whether bytes are those of a text.
fn is_text(s: &[u8], t: &Text) -> bool
    ensures { result ≡ is_same s.now (used t.now).bytes }
{
    s == t.used()
}

// Whether a line holds the BIC of a record that has one.
fn holds_bic(line: &[u8], party: &Party) -> bool
    ensures { result ≡ holds_bic party.now line.now }
{
    limits_of(party.option).bic_count != 0 && is_text(trim(line), &party.bic)
}

// Whether the bytes of a line are the profile's, and none is a small letter where the line holds the BIC.
fn are_inside(line: &[u8], holds: bool) -> bool
    ensures { result ≡ (is_narrow line.now && is_capital holds line.now) }
{
    line.iter()
        .all(|b| is_in(*b, NARROW) && !(holds && is_in(*b, SMALL)))
}

// Whether a line may start so: after the first, none does with a colon or a hyphen.
fn is_opening(line: &[u8], n: usize) -> bool
    ensures { result ≡ is_opening n line.now }
{
    n == 1 || !matches!(line, [b':' | b'-', ..])
}

// Whether the profile takes a line by its number, whether an earlier one holds the BIC, and whether it does.
fn is_inside(line: &[u8], n: usize, after: bool, holds: bool) -> bool
    ensures { result ≡ is_inside n after holds line.now }
{
    !after && !line.is_empty() && is_opening(line, n) && are_inside(line, holds)
}

// The lines of a body one after the other, or 32 with the first at fault.
fn parse_lines(party: &Party, body: &[u8]) -> Result<(), ParseError>
    ensures { told result ≡ profile_reply party.now body.now }
{
    let mut after = false;
    for (k, part) in lines_of(body).enumerate() {
        let line = part_of(body, part);
        let holds = holds_bic(line, party);
        if !is_inside(line, k + 1, after, holds) {
            return Err(ParseError::OutsideProfile(k + 1));
        }
        after |= holds;
    }
    Ok(())
}

// What was read of a body, under the profile: a refusal stands, and what is accepted is tested.
fn under_profile(answer: Result<Party, ParseError>, body: &[u8]) -> Result<Party, ParseError>
    ensures { told_answer result ≡ profiled (told_answer answer) body.now }
{
    let party = answer?;
    parse_lines(&party, body)?;
    Ok(party)
}

// The reader of an option, under the profile.
pub fn read(option: PartyOption, body: &[u8]) -> Result<Party, ParseError>
    ensures { told_answer result ≡ read_profiled option body.now }
{
    under_profile(reader::read(option, body), body)
}

// A choice, which detects, under the profile.
pub fn parse(choice: Choice, body: &[u8]) -> Result<Party, ParseError>
    ensures { told_answer result ≡ parse_profiled choice body.now }
{
    under_profile(reader::choices::parse(choice, body), body)
}

// A choice by a letter, 0 for none, under the profile.
pub fn parse_with_variant(choice: Choice, body: &[u8], letter: u8) -> Result<Party, ParseError>
    ensures { told_answer result ≡ parse_with_variant_profiled choice body.now letter }
{
    under_profile(
        reader::choices::parse_with_variant(choice, body, letter),
        body,
    )
}
