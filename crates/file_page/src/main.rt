// Reads a page from standard input, files each record that reads and that a page carries on a new page, in the order met, up to the first
// end line, closes that page and writes it to standard output. Says on standard error which answers are refusals, and how many of each
// there are.
#![tactic(auto)]

mod input;
mod tally;

ghost use Rattle.std.specs.Prelude.{◌≡◌, ◌≤◌, ◌<◌, length, IfOk};
ghost use Rattle.page_reader.specs.Pages.{page_most};
ghost use Rattle.page_writer.specs.IndexState.{no_index};
ghost use Rattle.page_writer.specs.Demand3.{closing};
ghost use Rattle.yewdome.specs.Filing.{records_of};

use input::read_full;
use page_reader::PAGE_MOST;
use std::fmt::{self, Display, Formatter};
use std::io::Read;
use tally::say_answers;
use yewdome::{PACK_UNIT, yewdome_page_file};

// Files the page on a new one, and writes that: it is what `whole_page` speaks of, for the records that the page's reads give. Closing is not
// refused in a buffer of at least 2 bytes, as `whole_page` says too.
fn file_page(rt: &(impl Print + Eprint), page: &[u8], buf: &mut [u8], answers: &mut [u64])
    requires { (2 ≤ length buf.old) × (length page.now < length answers.old) }
    ensures { buf.new ≡ (closing no_index (records_of page.now) buf.old).buffer }
{
    let filed = yewdome_page_file(page, buf, answers);
    let count = (filed / PACK_UNIT) as usize;
    let end = (filed % PACK_UNIT) as usize;
    say_answers(rt, &answers[..count]);
    if rt.write_all(&buf[..end]).is_err() {
        let _ = eprintln!(rt; "error: the page was not written whole");
    }
}

// Why standard input has no page.
#[derive(Clone, Copy)]
enum NoPage {
    Empty,
    TooLong,
}

impl Display for NoPage {
    fn fmt<W: fmt::Write>(&self, f: &mut Formatter<W>) -> fmt::Result {
        f.write_str(match self {
            NoPage::Empty => "it is empty",
            NoPage::TooLong => "it is over 32,768 bytes",
        })
    }
}

// Reads the page. The room for it is longer than a page, so that a longer input is seen.
fn read_page<'a>(input: &mut impl Read, room: &'a mut [u8]) -> Result<&'a [u8], NoPage>
    ensures { IfOk result (λ page. length page.now ≤ page_most) }
{
    match read_full(input, room) {
        0 => Err(NoPage::Empty),
        len if PAGE_MOST < len => Err(NoPage::TooLong),
        len => Ok(&room[..len]),
    }
}

fn run(
    rt: &(impl Print + Eprint),
    input: &mut impl Read,
    room: &mut [u8],
    buf: &mut [u8],
    answers: &mut [u64],
)
    requires { (2 ≤ length buf.old) × (page_most < length answers.old) }
{
    match read_page(input, room) {
        Ok(page) => file_page(rt, page, buf, answers),
        Err(e) => {
            let _ = eprintln!(rt; "error: no page on standard input: {e}");
        }
    }
}

// Numbers for the answers of any page: one more than it has bytes.
const ANSWERS: usize = PAGE_MOST + 1;

fn main(rt: HostRuntime) {
    let mut room = [0u8; 65536];
    let mut buf = [0u8; 65536];
    let mut answers = [0; ANSWERS];
    run(&rt, &mut rt.stdin(), &mut room, &mut buf, &mut answers);
}
