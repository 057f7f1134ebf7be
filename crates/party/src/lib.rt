// The party record, which no Rust file has: it stands for the Rust's eleven structs, with their texts by value, and for the enums, with
// the option beside one record. The limits of the eleven options stand here in one table.
#![tactic(auto)]

ghost use Rattle.std.specs.Prelude.{◌≡◌, [], ◌∷◌, length, take};
ghost use Rattle.party.specs.Limits.{limits_of, place_of, option_at};
ghost use Rattle.party.specs.Text.{text_of, used, part_in};
ghost use Rattle.party.specs.Party.{blank as blank_party, where_limit, names_of, where_numbered, Same};
ghost use Rattle.party.specs.Decides.{Decides};

// The eleven options, under the names of the Rust's structs.
#[derive(Clone, Copy, Debug, PartialEq, Eq)]
pub enum PartyOption {
    Field50NoOption,
    Field50A,
    Field50F,
    Field50K,
    Field50C,
    Field50L,
    Field50G,
    Field50H,
    Field59NoOption,
    Field59A,
    Field59F,
}

// The most bytes that a text holds.
pub const TEXT_MOST: usize = 38;

// A text by value: the first len bytes.
#[derive(Clone, Copy)]
pub struct Text {
    pub bytes: [u8; TEXT_MOST],
    pub len: usize,
}

impl Text {
    // The bytes that it uses: as many as its length says, or all 38 where that passes them.
    pub fn used(&self) -> &[u8]
        ensures { result.now ≡ (used self.now).bytes }
    {
        &self.bytes[..self.len.min(TEXT_MOST)]
    }
}

// A party: its option, whether the body gave an account or identifier, that text, the BIC, as many names as count says, and in 50F the
// digit of each name's line.
#[derive(Clone, Copy)]
pub struct Party {
    pub option: PartyOption,
    pub present: bool,
    pub account: Text,
    pub bic: Text,
    pub count: usize,
    pub name_and_address: [Text; 4],
    pub digits: [u8; 4],
}

// A part of a body: where it starts, and its length.
#[derive(Clone, Copy, Debug, PartialEq, Eq)]
pub struct Part {
    pub start: usize,
    pub len: usize,
}

impl Part {
    // The part that is all of a body.
    pub fn whole(body: &[u8]) -> Part
        ensures { result ≡ record { start = 0; len = length body.now } }
    {
        Part {
            start: 0,
            len: body.len(),
        }
    }
}

// The part that holds nothing.
pub const NO_PART: Part = Part { start: 0, len: 0 };

// A party by the parts of a body that its texts are; the small fields stand last, so that it is copied without gaps.
#[derive(Clone, Copy, Debug, PartialEq, Eq)]
pub struct Parts {
    pub account: Part,
    pub bic: Part,
    pub name_and_address: [Part; 4],
    pub count: usize,
    pub digits: [u8; 4],
    pub option: PartyOption,
    pub present: bool,
}

// What a body is to an option: a BIC, a text, or lines.
#[derive(Clone, Copy, Debug, PartialEq, Eq)]
pub enum Layout {
    BicOnly,
    TextOnly,
    ByLines,
}

// What the first line is to an option: no account or identifier, an identifier, or an account, whose forms differ.
#[derive(Clone, Copy, Debug, PartialEq, Eq)]
pub enum First {
    NoAccount,
    Identified,
    Account,
    ShortAccount,
    SlashAccount,
    AnyAccount,
    WholeLine,
}

// How the lines of names are numbered: not at all, with any digits, or in turn.
#[derive(Clone, Copy, Debug, PartialEq, Eq)]
pub enum Numbering {
    Unnumbered,
    Numbered,
    InTurn,
}

// All that is said of an option: a row of the table.
#[derive(Clone, Copy, Debug, PartialEq, Eq)]
pub struct Limits {
    // the tag: its field, 50 or 59, and its letter, 0 for none
    pub field: u8,
    pub letter: u8,
    // how many lines the body has, where they are counted first; max_lines is 0 where any more will do
    pub min_lines: usize,
    pub max_lines: usize,
    // what the body is, and what its first line is
    pub layout: Layout,
    pub first: First,
    // the length of the account, or of the identifier after its slashes; account_max is 0 where the option has none
    pub account_min: usize,
    pub account_max: usize,
    // whether a slash is written before it
    pub slash: bool,
    // how many BICs there are, and how many names there may be
    pub bic_count: usize,
    pub max_names: usize,
    // how long the text of a name may be, and how the lines of names are numbered
    pub name_max: usize,
    pub numbering: Numbering,
}

static LIMITS: [Limits; OPTION_COUNT] = [
    // Field50NoOption
    Limits {
        field: 50,
        letter: 0,
        min_lines: 1,
        max_lines: 4,
        layout: Layout::ByLines,
        first: First::NoAccount,
        account_min: 0,
        account_max: 0,
        slash: false,
        bic_count: 0,
        max_names: 4,
        name_max: 35,
        numbering: Numbering::Unnumbered,
    },
    // Field50A
    Limits {
        field: 50,
        letter: b'A',
        min_lines: 1,
        max_lines: 0,
        layout: Layout::ByLines,
        first: First::Identified,
        account_min: 0,
        account_max: 34,
        slash: true,
        bic_count: 1,
        max_names: 0,
        name_max: 0,
        numbering: Numbering::Unnumbered,
    },
    // Field50F
    Limits {
        field: 50,
        letter: b'F',
        min_lines: 2,
        max_lines: 0,
        layout: Layout::ByLines,
        first: First::WholeLine,
        account_min: 1,
        account_max: 35,
        slash: false,
        bic_count: 0,
        max_names: 4,
        name_max: 33,
        numbering: Numbering::Numbered,
    },
    // Field50K
    Limits {
        field: 50,
        letter: b'K',
        min_lines: 1,
        max_lines: 0,
        layout: Layout::ByLines,
        first: First::Account,
        account_min: 0,
        account_max: 34,
        slash: true,
        bic_count: 0,
        max_names: 4,
        name_max: 35,
        numbering: Numbering::Unnumbered,
    },
    // Field50C
    Limits {
        field: 50,
        letter: b'C',
        min_lines: 0,
        max_lines: 0,
        layout: Layout::BicOnly,
        first: First::NoAccount,
        account_min: 0,
        account_max: 0,
        slash: false,
        bic_count: 1,
        max_names: 0,
        name_max: 0,
        numbering: Numbering::Unnumbered,
    },
    // Field50L
    Limits {
        field: 50,
        letter: b'L',
        min_lines: 0,
        max_lines: 0,
        layout: Layout::TextOnly,
        first: First::WholeLine,
        account_min: 1,
        account_max: 35,
        slash: false,
        bic_count: 0,
        max_names: 0,
        name_max: 0,
        numbering: Numbering::Unnumbered,
    },
    // Field50G
    Limits {
        field: 50,
        letter: b'G',
        min_lines: 2,
        max_lines: 2,
        layout: Layout::ByLines,
        first: First::SlashAccount,
        account_min: 1,
        account_max: 34,
        slash: true,
        bic_count: 1,
        max_names: 0,
        name_max: 0,
        numbering: Numbering::Unnumbered,
    },
    // Field50H
    Limits {
        field: 50,
        letter: b'H',
        min_lines: 2,
        max_lines: 0,
        layout: Layout::ByLines,
        first: First::AnyAccount,
        account_min: 1,
        account_max: 34,
        slash: true,
        bic_count: 0,
        max_names: 4,
        name_max: 35,
        numbering: Numbering::Unnumbered,
    },
    // Field59NoOption
    Limits {
        field: 59,
        letter: 0,
        min_lines: 1,
        max_lines: 0,
        layout: Layout::ByLines,
        first: First::ShortAccount,
        account_min: 0,
        account_max: 34,
        slash: true,
        bic_count: 0,
        max_names: 4,
        name_max: 35,
        numbering: Numbering::Unnumbered,
    },
    // Field59A
    Limits {
        field: 59,
        letter: b'A',
        min_lines: 1,
        max_lines: 0,
        layout: Layout::ByLines,
        first: First::ShortAccount,
        account_min: 0,
        account_max: 34,
        slash: true,
        bic_count: 1,
        max_names: 0,
        name_max: 0,
        numbering: Numbering::Unnumbered,
    },
    // Field59F
    Limits {
        field: 59,
        letter: b'F',
        min_lines: 1,
        max_lines: 0,
        layout: Layout::ByLines,
        first: First::Identified,
        account_min: 0,
        account_max: 34,
        slash: true,
        bic_count: 0,
        max_names: 4,
        name_max: 33,
        numbering: Numbering::InTurn,
    },
];

// The text that holds nothing.
pub const NOTHING: Text = Text {
    bytes: [0u8; TEXT_MOST],
    len: 0,
};

// The option's place in the table.
pub fn index_of(option: PartyOption) -> usize
    ensures { result ≡ place_of option }
{
    option as usize
}

// How many options there are.
pub const OPTION_COUNT: usize = 11;

// The options in the order of the table.
pub static OPTIONS: [PartyOption; OPTION_COUNT] = [
    PartyOption::Field50NoOption,
    PartyOption::Field50A,
    PartyOption::Field50F,
    PartyOption::Field50K,
    PartyOption::Field50C,
    PartyOption::Field50L,
    PartyOption::Field50G,
    PartyOption::Field50H,
    PartyOption::Field59NoOption,
    PartyOption::Field59A,
    PartyOption::Field59F,
];

// The option at a place in the table, the first where there is none.
pub fn option_at(place: usize) -> PartyOption
    ensures { result ≡ option_at place }
{
    match OPTIONS.get(place) {
        Some(option) => *option,
        None => PartyOption::Field50NoOption,
    }
}

// The option's limits.
pub fn limits_of(option: PartyOption) -> &'static Limits
    ensures { result.now ≡ limits_of option }
{
    &LIMITS[index_of(option)]
}

// The text of the first 38 bytes of a slice, with the bytes after it zero.
pub fn text_of(s: &[u8]) -> Text
    ensures { result ≡ text_of s.now }
{
    let len = s.len().min(TEXT_MOST);
    let mut bytes = [0u8; TEXT_MOST];
    bytes[..len].copy_from_slice(&s[..len]);
    Text { bytes, len }
}

// The bytes of a part, those that the body has.
pub fn part_of(body: &[u8], part: Part) -> &[u8]
    ensures { result.now ≡ part_in body.now part }
{
    let start = part.start.min(body.len());
    let len = part.len.min(body.len() - start);
    &body[start..start + len]
}

// The blank record: what `load` gives where there is no record, and what the definitions have beside a refusal and a page's end.
pub fn blank() -> Party
    ensures { result ≡ blank_party }
{
    Party {
        option: PartyOption::Field50NoOption,
        present: false,
        account: NOTHING,
        bic: NOTHING,
        count: 0,
        name_and_address: [NOTHING; 4],
        digits: [0u8; 4],
    }
}

// Whether two texts hold the same.
fn same_text(t: &Text, u: &Text) -> bool
    ensures { Decides result (used t.now ≡ used u.now) }
{
    t.len == u.len && t.used() == u.used()
}

// Whether the texts of an option hold the same, where its limit for them is not 0.
fn same_where(limit: usize, t: &Text, u: &Text) -> bool
    ensures { Decides result (where_limit limit (used t.now ∷ []) ≡ where_limit limit (used u.now ∷ [])) }
{
    limit == 0 || same_text(t, u)
}

// Whether the first names of two records hold the same, as many as count says.
fn same_names(p: &Party, q: &Party, count: usize) -> bool
    ensures { Decides result (names_of count p.now ≡ names_of count q.now) }
{
    p.name_and_address
        .iter()
        .zip(&q.name_and_address)
        .take(count)
        .all(|(t, u)| same_text(t, u))
}

// Whether their first digits are the same, where the option has digits beside its texts.
fn same_numbers(numbering: Numbering, p: &Party, q: &Party, count: usize) -> bool
    ensures { Decides result (where_numbered numbering (take count p.now.digits) ≡ where_numbered numbering (take count q.now.digits)) }
{
    match numbering {
        Numbering::Numbered => {
            let n = count.min(4);
            p.digits[..n] == q.digits[..n]
        }
        Numbering::Unnumbered | Numbering::InTurn => true,
    }
}

// Whether two records are the same: option, presence, count, used bytes and used digits agree.
pub fn same(p: Party, q: Party) -> bool
    ensures { Decides result (Same p q) }
{
    let limits = limits_of(p.option);
    p.option == q.option
        && p.present == q.present
        && p.count == q.count
        && same_where(limits.account_max, &p.account, &q.account)
        && same_where(limits.bic_count, &p.bic, &q.bic)
        && same_numbers(limits.numbering, &p, &q, p.count)
        && (limits.max_names == 0 || same_names(&p, &q, p.count))
}
