// The functions of `finders` for C: each export calls the one of its name and states its clauses again.
#![tactic(auto)]

ghost use Rattle.std.specs.Prelude.{◌≡◌, ◌+◌, drop};
ghost use Rattle.field_utils.specs.Lines.{upto};

// The finder.
#[unsafe(no_mangle)]
pub extern "C" fn yewdome_find_lf(s: &[u8], from: usize) -> usize
    ensures { result ≡ from + upto 10 (drop from s.now) }
{
    finders::yewdome_find_lf(s, from)
}

// The plain loop, byte by byte: its judge.
#[unsafe(no_mangle)]
pub extern "C" fn yewdome_find_lf_plain(s: &[u8], from: usize) -> usize
    ensures { result ≡ from + upto 10 (drop from s.now) }
{
    finders::yewdome_find_lf_plain(s, from)
}
