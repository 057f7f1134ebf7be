// Records, and the rooms from which bytes are lent.
ghost use Rattle.std.specs.Prelude.{◌<◌, ◌≤◌, length};
ghost use Rattle.record_bytes.specs.RecordBytes.{record_size};

use crate::list::{Line, put, unescape};
use record_bytes::{DIGITS_AT, TEXT_SIZE, TEXTS_AT};

// A room of stale bytes, each above 127, as in no text that is written, and not that of a place near it.
pub(crate) fn stale_room() -> [u8; 256] {
    let mut room = [0u8; 256];
    for (i, byte) in room.iter_mut().enumerate() {
        *byte = (128 + i % 127) as u8;
    }
    room
}

// Whether the bytes stand at 8, and every other byte of the room is stale.
pub(crate) fn has_only(room: &[u8; 256], bytes: &[u8]) -> bool {
    let mut due = stale_room();
    put(bytes, &mut due[8..]);
    *room == due
}

// Loads the record of a line, from field k on, into 241 bytes: those that no text takes stay as they are, and so does each of the six texts
// that `used` has as '0'.
pub(crate) fn load(line: Line<'_>, k: usize, used: &[u8], record: &mut [u8])
    requires { (k < 100) × (record_size ≤ length «record».old) }
{
    for i in 0..TEXTS_AT {
        record[i] = line.byte(k + i);
    }
    for i in 0..6 {
        if !matches!(used.get(i), Some(b'0')) {
            let at = TEXTS_AT + TEXT_SIZE * i;
            let len = unescape(line.field(k + 3 + i), &mut record[at + 1..]).len();
            record[at] = (len % 256) as u8;
        }
    }
    unescape(line.field(k + 9), &mut record[DIGITS_AT..]);
}
