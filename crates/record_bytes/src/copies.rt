// Bytes copied by eight, sixteen and thirty-two.
ghost use Rattle.std.specs.Prelude.{◌≡◌, true, false, ◌+◌, ◌*◌, ◌≤◌, leb, length};
ghost use Rattle.std.proofs.Math.Seq.{paste};

// Copies the first N bytes of a slice and the last N, which may be some of the first: of a constant size, each goes as a word.
fn put_ends<const N: usize>(place: &mut [u8], s: &[u8])
    requires { (length place.old ≡ length s.now) × (N ≤ length s.now) × (length s.now ≤ 2 * N) }
    ensures { place.new ≡ s.now }
{
    *place.first_chunk_mut::<N>().unwrap() = *s.first_chunk().unwrap();
    *place.last_chunk_mut::<N>().unwrap() = *s.last_chunk().unwrap();
}

// Copies a slice, as `copy_from_slice` does; 64 bytes or fewer without a call.
pub(crate) fn put_bytes(place: &mut [u8], s: &[u8])
    requires { length place.old ≡ length s.now }
    ensures { place.new ≡ s.now }
{
    match s.len() {
        0..8 => {
            for (i, b) in s.iter().enumerate() {
                place[i] = *b;
            }
        }
        8..16 => put_ends::<8>(place, s),
        16..32 => put_ends::<16>(place, s),
        32..=64 => put_ends::<32>(place, s),
        _ => place.copy_from_slice(s),
    }
}

// Copies a slice to a place, if it fits there, and says whether it does; if not, no byte changes.
pub fn copy(s: &[u8], buf: &mut [u8], at: usize) -> bool
    ensures value { result ≡ leb (at + length s.now) (length buf.old) }
    ensures buf_after { buf.new ≡ elim (leb (at + length s.now) (length buf.old)) [ true ↦ paste buf.old at s.now (length s.now) | false ↦ buf.old ] }
{
    if buf.len() < at || buf.len() - at < s.len() {
        return false;
    }
    put_bytes(&mut buf[at..at + s.len()], s);
    true
}
