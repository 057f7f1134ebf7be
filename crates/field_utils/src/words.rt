// Eight bytes as one number, the first LF among them, whether a block of them has one, and whether one is above 127.
ghost use Rattle.std.specs.Prelude.{◌≡◌, ℕ, true, nat_le};
ghost use Rattle.swift_utils.specs.Bytes.{all};
ghost use Rattle.field_utils.specs.Lines.{upto};
ghost use Rattle.field_utils.specs.Words.{eight, low_bytes, less_ones, lf_mask};

// In every byte an LF, a one, and the highest bit.
const LFS: u64 = 0x0a0a0a0a0a0a0a0a;

const ONES: u64 = 0x0101010101010101;

const HIGHS: u64 = 0x8080808080808080;

// How many bytes are passed at a time where no LF is near.
pub(crate) const BLOCK: usize = 256;

// Eight bytes as one number, the first byte lowest.
pub(crate) fn word(bytes: &[u8; 8]) -> u64
    ensures number { result ≡ eight bytes.now }
    ensures bytes { low_bytes 8 result ≡ bytes.now }
{
    u64::from_le_bytes(*bytes)
}

// A word with LF flipped to zero, less a one in every byte; the borrow runs off the top.
fn less_ones(w: u64) -> u64
    ensures { result ≡ less_ones w }
{
    (w ^ LFS).wrapping_sub(ONES)
}

// A word's mask: its lowest set bit is that of the first LF, whatever the bits above it are.
pub(crate) fn lf_mask(w: u64) -> u64
    ensures { result ≡ lf_mask w }
{
    less_ones(w) & !(w ^ LFS) & HIGHS
}

// Whether no byte of a word is above 127: none has its highest bit.
pub(crate) fn is_low(w: u64) -> bool
    ensures { result ≡ all (λ (b : ℕ). nat_le b 127) (low_bytes 8 w) }
{
    w & HIGHS == 0
}

// Whether a block is seen to have no LF: no byte of it, flipped and less a one, has its highest bit set. One above 127 may have it too.
pub(crate) fn is_clear(block: &[u8; BLOCK]) -> bool
    ensures { result ≡ true → upto 10 block.now ≡ 256 }
{
    let (words, _) = block.as_chunks::<8>();
    let mut seen = 0;
    for bytes in words {
        seen |= less_ones(word(bytes));
    }
    seen & HIGHS == 0
}
