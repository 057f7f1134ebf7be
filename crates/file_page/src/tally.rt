// What is said on standard error.
use std::fmt::{self, Display, Formatter};
use yewdome::{CAUSES_UNIT, PACK_UNIT, READ_END};

// The causes by which a field is filed as other bytes than came, a bit each.
#[derive(Clone, Copy, PartialEq)]
struct Causes(u64);

// They are named in this order. A page trims no blanks, bit 8.
const NAMES: [(u64, &str); 4] = [
    (1, "CR before an LF inside the body"),
    (2, "empty last line"),
    (4, "lines after the BIC"),
    (16, "CR before the LF that closes the field"),
];

impl Display for Causes {
    fn fmt<W: fmt::Write>(&self, f: &mut Formatter<W>) -> fmt::Result {
        let mut mark = ": ";
        for (bit, name) in NAMES {
            if self.0 & bit != 0 {
                write!(f, "{mark}{name}")?;
                mark = ", ";
            }
        }
        Ok(())
    }
}

// What the page's filing says of a field, or of the end.
#[derive(Clone, Copy)]
enum Answer {
    Filed(Causes),
    End,
    Refused { number: u64, line: u64 },
}

// A refusal's number × 65,536 and its line stand above the other answers; of these the end has 65,536, and a filed record its causes × 131,072.
impl From<u64> for Answer {
    fn from(answer: u64) -> Answer {
        let refusal = answer / PACK_UNIT;
        if refusal != 0 {
            Answer::Refused {
                number: refusal / READ_END,
                line: refusal % READ_END,
            }
        } else if answer / READ_END == 1 {
            Answer::End
        } else {
            Answer::Filed(Causes(answer / CAUSES_UNIT))
        }
    }
}

// How many fields were filed, of them as other bytes than came, and refused.
#[derive(Clone, Copy)]
struct Tally {
    filed: usize,
    changed: usize,
    refused: usize,
}

impl Display for Tally {
    fn fmt<W: fmt::Write>(&self, f: &mut Formatter<W>) -> fmt::Result {
        write!(f, "{} filed, ", self.filed)?;
        if 0 < self.changed {
            write!(f, "{} of them as other bytes than came, ", self.changed)?;
        }
        write!(f, "{} refused", self.refused)
    }
}

// Says which of the answers of a page, counted from 1, are refusals and which fields were filed as other bytes than came, and how many of each
// there are. What can't be said is left unsaid.
pub(crate) fn say_answers(rt: &impl Eprint, answers: &[u64]) {
    let mut tally = Tally {
        filed: 0,
        changed: 0,
        refused: 0,
    };
    for (i, &answer) in answers.iter().enumerate() {
        let place = i + 1;
        match Answer::from(answer) {
            Answer::Filed(causes) => {
                tally.filed += 1;
                if causes != Causes(0) {
                    tally.changed += 1;
                    let _ = eprintln!(rt; "answer {place}: filed as other bytes than came{causes}");
                }
            }
            Answer::End => {}
            Answer::Refused { number, line } => {
                tally.refused += 1;
                let _ = eprintln!(rt; "answer {place}: refused with {number}, line {line}");
            }
        }
    }
    let _ = eprintln!(rt; "{tally}");
}
