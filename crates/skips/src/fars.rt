// The far numbers of all bytes at all depths, as 256 records of sixteen numbers held by value.
ghost use Rattle.std.specs.Prelude.{◌≡◌, ◌<◌, ◌≤◌, length};
ghost use Rattle.rules.specs.sets.Limits.{byte_file_size, depths};
ghost use Rattle.rules.specs.scans.Hits.{over};
ghost use Rattle.rules.specs.skips.Skips.{byte_file};
ghost use Rattle.words.specs.Items.{keywords_in};
ghost use Rattle.skips.specs.Fars.{Bytes, lowered, lowered_by, far_table};

use crate::measured::Measured;
use crate::records::put_record;
use rules::{DEPTHS, OPCODES};
use words::{count_of, item_at};

// A byte's sixteen numbers, lowered by one place where it has d bytes after it.
fn lower(numbers: [u8; DEPTHS], d: usize) -> [u8; DEPTHS]
    requires { d < depths }
    ensures { result ≡ lowered numbers d }
{
    let mut next = numbers;
    for z in 0..d {
        next[z] = next[z].min((d - z) as u8);
    }
    next
}

// The numbers of all bytes, lowered by the places that a keyword has for them.
fn lower_by(far: &mut [[u8; DEPTHS]; OPCODES], word: &[u16])
    requires { Bytes word.now }
    ensures { far.new ≡ lowered_by word.now far.old }
{
    for (k, byte) in word.iter().enumerate() {
        let a = *byte as usize;
        far[a] = lower(far[a], word.len() - 1 - k);
    }
}

// The largest far numbers, in one pass over the places that keywords have for bytes.
pub(crate) fn far_numbers(set: Measured<'_>) -> [[u8; DEPTHS]; OPCODES]
    ensures { result ≡ far_table (keywords_in set.entry.words.list.now) }
{
    let list = set.words.list;
    let mut far = [[set.cap as u8; DEPTHS]; OPCODES];
    for i in 0..count_of(list) {
        lower_by(&mut far, item_at(list, i).units);
    }
    far
}

// The byte file with the largest numbers, at the front of a buffer.
pub(crate) fn put_bytes(set: Measured<'_>, buffer: &mut [u8])
    requires { byte_file_size ≤ length buffer.old }
    ensures { buffer.new ≡ over (byte_file (keywords_in set.entry.words.list.now)) buffer.old }
{
    let far = far_numbers(set);
    for (a, numbers) in far.iter().enumerate() {
        put_record(buffer, a, *numbers);
    }
}
