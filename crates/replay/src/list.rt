// A line of the list: its fields, and the numbers and bytes that a field stands for. tests/README.md has the format.
ghost use Rattle.std.specs.Prelude.{◌<◌, ◌≤◌, length};

use yewdome::POSITION_ROOM;

// What a field that is no number gives; no number of the list is so high.
const NO_NUMBER: u16 = u16::MAX;

// A line, without its LF.
#[derive(Clone, Copy)]
pub struct Line<'a> {
    pub text: &'a [u8],
}

impl<'a> Line<'a> {
    // The field after k tabs; empty where the line has fewer.
    pub(crate) fn field(self, k: usize) -> &'a [u8] {
        self.text.split(|b| *b == b'\t').nth(k).unwrap_or(b"")
    }

    // The number in field k.
    pub(crate) fn number(self, k: usize) -> usize
        ensures { result ≤ 65535 }
    {
        usize::from(decimal(self.field(k)).unwrap_or(NO_NUMBER))
    }

    // The number in field k as a byte.
    pub(crate) fn byte(self, k: usize) -> u8 {
        (self.number(k) % 256) as u8
    }

    // Two numbers from field k on, the first × 65,536: a refusal's number and line; or 0, and what an accepted call gives.
    pub(crate) fn pair(self, k: usize) -> u64
        requires { k < 100 }
        ensures { result ≤ 4294967295 }
    {
        (self.number(k) * POSITION_ROOM as usize + self.number(k + 1)) as u64
    }
}

// The number that digits stand for, where they are some and it is below 65,520. The library's `parse` would take a sign, and more numbers.
fn decimal(digits: &[u8]) -> Option<u16> {
    if digits.is_empty() {
        return None;
    }
    let mut value = 0;
    for &b in digits {
        if !b.is_ascii_digit() || 6551 < value {
            return None;
        }
        value = 10 * value + u16::from(b - b'0');
    }
    Some(value)
}

// The value of a digit in base 16, or 16. The library's `to_digit` would take capitals.
fn digit(b: u8) -> u8
    ensures { result ≤ 16 }
{
    match b {
        b'0'..=b'9' => b - b'0',
        b'a'..=b'f' => b - b'a' + 10,
        _ => 16,
    }
}

// The first byte that a field stands for, three bytes of an escape or one, and the rest of the field.
fn first_byte(field: &[u8]) -> Option<(u8, &[u8])> {
    match field {
        [] => None,
        [b'\\', high, low, rest @ ..] => {
            let byte = digit(*high).wrapping_mul(16).wrapping_add(digit(*low));
            Some((byte, rest))
        }
        [b, rest @ ..] => Some((*b, rest)),
    }
}

// Puts the bytes that a field stands for at the start of a room, as far as there is room for them, and gives them there.
pub(crate) fn unescape<'a>(field: &[u8], room: &'a mut [u8]) -> &'a [u8]
    ensures { length result.now ≤ length room.old }
{
    let mut rest = field;
    for (i, slot) in room.iter_mut().enumerate() {
        let Some((byte, after)) = first_byte(rest) else {
            return &room[..i];
        };
        *slot = byte;
        rest = after;
    }
    room
}

// Copies a text to the start of a room, as far as there is room for it.
pub(crate) fn put(text: &[u8], room: &mut [u8]) {
    let len = text.len().min(room.len());
    room[..len].copy_from_slice(&text[..len]);
}
