// What the Rust has of std: the lines of a text as an iterator, a text trimmed, and the test for ASCII.
ghost use Rattle.std.specs.Prelude.{◌≡◌, ℕ, ◌+◌, ◌-◌, ◌≤◌, length, drop, nat_le};
ghost use Rattle.std.specs.Iterator.{at_most};
ghost use Rattle.swift_utils.specs.Bytes.{all};
ghost use Rattle.field_utils.specs.Lines.{upto, lines, without_cr};
ghost use Rattle.field_utils.specs.Cursor.{GivesLine};
ghost use Rattle.field_utils.specs.Words.{Passed};
ghost use Rattle.field_utils.specs.Trim.{white, trimmed, trimmed_end};

use crate::words::{BLOCK, is_clear, is_low, lf_mask, word};
use party::Part;

// Up to so many bytes are searched by single words, before blocks of them are passed.
const NEAR: usize = 128;

// The bytes of a slice from a place on, none where it is past the end.
pub fn suffix(s: &[u8], skip: usize) -> &[u8]
    ensures { result.now ≡ drop skip s.now }
{
    &s[skip.min(s.len())..]
}

// Where a byte first stands from a place on, or the length where it does not; a place past the length is given back.
pub fn find(s: &[u8], from: usize, b: u8) -> usize
    ensures { result ≡ from + upto b (drop from s.now) }
{
    let rest = suffix(s, from);
    from + rest.iter().position(|x| *x == b).unwrap_or(rest.len())
}

// How many bytes stand before the first LF, or how many there are, by words of eight bytes; up to seven at the end go singly.
fn find_by_word(s: &[u8]) -> usize
    ensures { result ≡ upto 10 s.now }
{
    let (words, _) = s.as_chunks::<8>();
    for (i, bytes) in words.iter().enumerate() {
        let mask = lf_mask(word(bytes));
        if mask != 0 {
            return i * 8 + mask.trailing_zeros() as usize / 8;
        }
    }
    find(s, words.len() * 8, b'\n')
}

// The same as a place, from another on.
fn find_from(s: &[u8], from: usize) -> usize
    requires { from ≤ length s.now }
    ensures { result ≡ from + upto 10 (drop from s.now) }
{
    from + find_by_word(&s[from..])
}

// The place after the blocks from a place on that are seen to have no LF.
fn pass_blocks(s: &[u8], from: usize) -> usize
    requires { from ≤ length s.now }
    ensures { Passed s.now from result }
{
    let (blocks, _) = s[from..].as_chunks::<BLOCK>();
    let clear = blocks.iter().position(|block| !is_clear(block));
    from + BLOCK * clear.unwrap_or(blocks.len())
}

// Where the next LF stands from a place on, or the length where there is none; a place past the length is given back.
pub fn find_lf(s: &[u8], from: usize) -> usize
    ensures { result ≡ from + upto 10 (drop from s.now) }
{
    if s.len() <= from {
        return from;
    }
    if s.len() - from < NEAR {
        return find_from(s, from);
    }
    let end = from + NEAR;
    let found = find_by_word(&s[from..end]);
    if found < NEAR {
        return from + found;
    }
    find_from(s, pass_blocks(s, end))
}

// The lines of a text that are left from a place on, each the part of the text that it is.
#[derive(Clone, Copy, Debug)]
pub struct Lines<'a> {
    pub text: &'a [u8],
    pub at: usize,
}

// The lines of a text.
pub fn lines_of(text: &[u8]) -> Lines<'_>
    ensures text { result.text.now ≡ text.now }
    ensures at { result.at ≡ 0 }
{
    Lines { text, at: 0 }
}

impl<'a> Lines<'a> {
    // The bytes that are left.
    pub fn rest(&self) -> &'a [u8]
        ensures { result.now ≡ drop self.now.at self.now.text.now }
    {
        suffix(self.text, self.at)
    }
}

impl<'a> Iterator for Lines<'a> {
    type Item = Part;

    ghost next_gives = { GivesLine };

    ghost remaining = { λ s. at_most (length s.text.now - s.at) };

    #[tactic(auto, using(crate::proofs::Places::next_done, crate::proofs::Places::next_last, crate::proofs::Places::next_lf))]
    fn next(&mut self) -> Option<Part> {
        let text = self.text;
        let start = self.at;
        if text.len() <= start {
            return None;
        }
        let lf = find_lf(text, start);
        let (len, at) = if lf < text.len() {
            (without_cr(&text[start..lf]).len(), lf + 1)
        } else {
            (lf - start, lf)
        };
        self.at = at;
        Some(Part { start, len })
    }
}

// A line without one CR at its end, as a part of it.
#[tactic(auto, using(crate::proofs::Places::without_cr_dropped, crate::proofs::Places::without_cr_kept))]
pub fn without_cr(line: &[u8]) -> &[u8]
    ensures { result.now ≡ without_cr line.now }
{
    match line {
        [rest @ .., b'\r'] => rest,
        _ => line,
    }
}

// How many lines there are.
pub fn count_lines(s: &[u8]) -> usize
    ensures { result ≡ length (lines s.now) }
{
    lines_of(s).count()
}

// A byte that trimming takes away: 9 to 13 and 32.
#[tactic(auto, unfolding(crate::specs::Trim::white))]
fn is_white(b: u8) -> bool
    ensures { result ≡ white b }
{
    matches!(b, b'\t'..=b'\r' | b' ')
}

// The part without such bytes at its end.
#[tactic(auto, using(crate::proofs::Trims::last_white, crate::proofs::Trims::last_there, crate::proofs::Trims::end_short))]
fn trim_end(s: &[u8]) -> &[u8]
    ensures { result.now ≡ trimmed_end s.now }
{
    let mut part = s;
    while let [rest @ .., last] = part {
        if !is_white(*last) {
            break;
        }
        part = rest;
    }
    part
}

// The part without such bytes at both ends.
pub fn trim(s: &[u8]) -> &[u8]
    ensures { result.now ≡ trimmed s.now }
{
    let mut part = s;
    while let [first, rest @ ..] = part {
        if !is_white(*first) {
            break;
        }
        part = rest;
    }
    trim_end(part)
}

// Whether no byte of a few is above 127.
#[tactic(auto, using(crate::proofs::AllBytes::ascii_low))]
fn are_low(s: &[u8]) -> bool
    ensures { result ≡ all (λ (b : ℕ). nat_le b 127) s.now }
{
    s.is_ascii()
}

// Whether no byte is above 127, by words of eight bytes, the last over what was seen before; fewer than eight go singly.
pub fn is_ascii(s: &[u8]) -> bool
    ensures { result ≡ all (λ (b : ℕ). nat_le b 127) s.now }
{
    let Some(last) = s.last_chunk::<8>() else {
        return are_low(s);
    };
    let (words, _) = s.as_chunks::<8>();
    for bytes in words {
        if !is_low(word(bytes)) {
            return false;
        }
    }
    is_low(word(last))
}
