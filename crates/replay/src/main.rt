// Replays a list of calls from standard input, through the functions that C and Rust call, and compares what each gives with what the list
// expects: bodies read, records written and causes told of 6,000 cases of which the Rust's answers are known; then pages filled, closed,
// read, overwritten and looked up. Says which lines differ, and at the end how many there are of each kind.
#![tactic(auto)]

mod call;
mod cases;
mod count;
mod input;
mod list;
mod pages;
mod record;

use call::Call;
use cases::judge;
use count::{Counts, Difference};
use input::read_full;
use list::{Line, unescape};
use pages::{Page, Records};
use std::io::Read;

// What a list is replayed on.
#[derive(Drop)]
struct Player<'a> {
    page: Page,
    records: Records<'a>,
    counts: Counts,
}

// Prints the text of a line, with counts. It has the room for the text, which would be cleared for every line that is played.
#[inline(never)]
fn say(rt: &impl Print, line: Line<'_>, counts: &Counts) {
    let mut room = [0u8; 4096];
    counts.print(rt, unescape(line.field(1), &mut room));
}

impl<'a> Player<'a> {
    // Plays a line, but for a comment.
    fn play(&mut self, rt: &impl Print, line: Line<'a>) -> Result<(), Difference> {
        if line.text.starts_with(b"#") {
            return Ok(());
        }
        match Call::try_from(line)? {
            Call::ReadBody(reader) => judge(line, reader, &mut self.counts)?,
            Call::Define => self.records.define(line)?,
            Call::Begin => self.page.begin(),
            Call::Add(way) => {
                let record = self.records.get(line.number(3));
                self.page.add(line, way, record, &mut self.counts)?;
            }
            Call::Close => self.page.close(line)?,
            Call::ReadPage(way) => {
                let record = self.records.get(line.number(6));
                self.page.read(line, way, record, &mut self.counts)?;
            }
            Call::Overwrite => self.page.overwrite(line, &mut self.counts),
            Call::Say => say(rt, line, &self.counts),
        }
        Ok(())
    }
}

// Plays every line of the list.
fn replay(rt: &impl Print, list: &[u8]) {
    let first = list.split(|b| *b == b'\n').next().unwrap_or(b"");
    let mut player = Player {
        page: Page::new(),
        records: Records::new(Line { text: first }),
        counts: Counts::new(),
    };
    for (number, piece) in (1u64..).zip(list.split_inclusive(|b| *b == b'\n')) {
        let text = piece.strip_suffix(b"\n").unwrap_or(piece);
        if let Err(difference) = player.play(rt, Line { text }) {
            player.counts.note(rt, difference, number);
        }
    }
}

// Reads the list into the room for it, and replays it.
fn run(rt: &impl Print, input: &mut impl Read, room: &mut [u8]) {
    let len = read_full(input, room);
    if len == room.len() {
        let _ = println!(rt; "error: the list is too long");
        return;
    }
    replay(rt, &room[..len]);
}

// By reference the array has its length from its type; a proof that counts so many bytes would be too deep.
fn lend(rt: &impl Print, input: &mut impl Read, room: &mut [u8; 1048576]) {
    run(rt, input, room);
}

fn main(rt: HostRuntime) {
    let mut room = [0u8; 1048576];
    lend(&rt, &mut rt.stdin(), &mut room);
}
