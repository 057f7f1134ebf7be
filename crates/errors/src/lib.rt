// Refusals, ported from errors.rs of swift-mt-message: the wording of a message becomes a case, with the body line where it has one.
#![tactic(auto)]

ghost use Rattle.std.specs.Prelude.{◌≡◌};
ghost use Rattle.errors.specs.Refusals.{refusal_at, refusal_of};

// What a call refuses for. The cases stand in the order of document 01's numbers; a line is a body line, counted from 1.
#[derive(Clone, Copy, Debug, PartialEq, Eq)]
pub enum ParseError {
    // 1: a wrong count of lines at the start
    LineCount,
    // 2: the form or the length of an account or identifier
    PartyIdentifier(usize),
    // 3: an illegal byte outside a BIC
    IllegalByte(usize),
    // 4: a name or a numbered text that is too long
    TooLong(usize),
    // 5: not a numbered line
    NotNumbered(usize),
    // 6: a number of 59F out of turn
    OutOfTurn(usize),
    // 7: names, counted last, that are none or over four
    NameCount,
    // 8: a missing BIC line
    BicMissing,
    // 9: the length of a BIC
    BicLength(usize),
    // 10: a byte of a BIC
    BicByte(usize),
    // 11: no option of the choice accepts
    NoOption,
    // 12: a body over 2,048 bytes
    BodyTooLong,
    // 13: a byte above 127
    NotAscii,
    // 14: a letter that is neither A to Z nor 0
    NotALetter,
    // 15: a tag that is none of the eleven
    UnknownTag,
    // 16: a line at the read position that neither opens a field nor ends the page
    StrayLine,
    // 17: a read at the page's length
    PageLength,
    // 18: a page over 32,768 bytes
    PageTooLong,
    // 21: a position that is none to read or write at, or an entry that is not what the page has
    Position,
    // 22: a record the same as none that an accepted body gives
    NoSuchRecord,
    // 23: a record that a page can't carry
    NotCarried,
    // 24: too little space
    NoSpace,
    // 31: no free entry in an index, or no such entry
    NoEntry,
    // 32: a line that breaks a rule of the network profile
    OutsideProfile(usize),
    // 42: under 241 bytes lent for a record, which document 01 has not
    ShortRecord,
}

// A refusal as document 01 gives it: its number, and a body line or 0.
#[derive(Clone, Copy, Debug, PartialEq, Eq)]
pub struct Refusal {
    pub number: u8,
    pub line: usize,
}

impl From<ParseError> for Refusal {
    ghost from_gives = { λ e r. r ≡ refusal_of e };

    fn from(e: ParseError) -> Refusal
        ensures { result ≡ refusal_of e }
    {
        match e {
            ParseError::LineCount => at(1, 0),
            ParseError::PartyIdentifier(n) => at(2, n),
            ParseError::IllegalByte(n) => at(3, n),
            ParseError::TooLong(n) => at(4, n),
            ParseError::NotNumbered(n) => at(5, n),
            ParseError::OutOfTurn(n) => at(6, n),
            ParseError::NameCount => at(7, 0),
            ParseError::BicMissing => at(8, 0),
            ParseError::BicLength(n) => at(9, n),
            ParseError::BicByte(n) => at(10, n),
            ParseError::NoOption => at(11, 0),
            ParseError::BodyTooLong => at(12, 0),
            ParseError::NotAscii => at(13, 0),
            ParseError::NotALetter => at(14, 0),
            ParseError::UnknownTag => at(15, 0),
            ParseError::StrayLine => at(16, 0),
            ParseError::PageLength => at(17, 0),
            ParseError::PageTooLong => at(18, 0),
            ParseError::Position => at(21, 0),
            ParseError::NoSuchRecord => at(22, 0),
            ParseError::NotCarried => at(23, 0),
            ParseError::NoSpace => at(24, 0),
            ParseError::NoEntry => at(31, 0),
            ParseError::OutsideProfile(n) => at(32, n),
            ParseError::ShortRecord => at(42, 0),
        }
    }
}

// A number and a line.
fn at(number: u8, line: usize) -> Refusal
    ensures { result ≡ refusal_at number line }
{
    Refusal { number, line }
}
