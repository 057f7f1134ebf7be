// The finder of LFs and the plain loop that it replaced, for the benchmark of the two.
#![tactic(auto)]

ghost use Rattle.std.specs.Prelude.{◌≡◌, ◌+◌, drop};
ghost use Rattle.field_utils.specs.Lines.{upto};

use field_utils::lines::{find, find_lf};

// The finder.
pub fn yewdome_find_lf(s: &[u8], from: usize) -> usize
    ensures { result ≡ from + upto 10 (drop from s.now) }
{
    find_lf(s, from)
}

// The plain loop, byte by byte: its judge.
pub fn yewdome_find_lf_plain(s: &[u8], from: usize) -> usize
    ensures { result ≡ from + upto 10 (drop from s.now) }
{
    find(s, from, b'\n')
}
