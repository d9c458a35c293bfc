// The reader of a keyword set's bytes: the tests 1 to 6, and the keywords as words. Only this crate knows a record's
// size and the places in it.
#![tactic(auto)]

ghost use Rattle.std.specs.Prelude.{◌≡◌, ◌*◌, ◌<◌, ◌≤◌, length};
ghost use Rattle.rules.specs.sets.Limits.{record_size, most_keywords, longest_word};
ghost use Rattle.rules.specs.sets.Sets.{keyword_of};
ghost use Rattle.words.specs.Items.{item_size, word_of};
ghost use Rattle.sets.specs.Reading.{Stated, padding_fault, Reading, RecordRead, Read, Lent};

use rules::{KEYWORDS, LONGEST, Refusal};
use words::{ITEM, Keywords, Word, put, repeated};

// The bytes of a record.
pub const RECORD: usize = 20;

// Whether some byte of a record behind the n of its keyword is not zero.
fn unpadded(bytes: &[u8], n: usize) -> bool
    requires { Stated bytes.now n }
    ensures { result ≡ padding_fault bytes.now n }
{
    bytes[1 + n..16].iter().any(|b| *b != 0)
}

// The energy that a record states, low byte first.
fn energy(bytes: &[u8]) -> u32
    requires { length bytes.now ≡ record_size }
    ensures { result ≡ (keyword_of 0 bytes.now).energy }
{
    u32::from_le_bytes([bytes[16], bytes[17], bytes[18], bytes[19]])
}

// The keyword of a record that states the length n, with its number.
fn word(bytes: &[u8], number: usize, n: usize) -> Word
    requires { Stated bytes.now n × (number < most_keywords) }
    ensures { (word_of result ≡ keyword_of number bytes.now) × (result.len ≤ longest_word) }
{
    let mut units = [0u16; LONGEST];
    for k in 0..n {
        units[k] = u16::from(bytes[1 + k]);
    }
    Word {
        number: number as u16,
        len: n,
        units,
        energy: energy(bytes),
    }
}

// The tests 4, 5 and 6 of record i, where the records before it passed; its keyword goes behind theirs.
fn read_record(set: &[u8], i: usize, list: &mut [u16]) -> Result<(), Refusal>
    requires { Reading set.now i list.old }
    ensures { RecordRead set.now i result list.new }
{
    let record = i as u16;
    let bytes = &set[RECORD * i..RECORD * i + RECORD];
    let n = usize::from(bytes[0]);
    if n == 0 {
        return Err(Refusal::Length { record });
    }
    if LONGEST < n {
        return Err(Refusal::Length { record });
    }
    if unpadded(bytes, n) {
        return Err(Refusal::Padding { record });
    }
    put(list, i, word(bytes, i, n));
    let end = ITEM * (i + 1);
    if repeated(&list[..end], i) {
        return Err(Refusal::Repeated { record });
    }
    Ok(())
}

// The tests 1 to 6 of a set, and its keywords at the front of a list with room for 64; how many there are.
pub fn read(set: &[u8], list: &mut [u16]) -> Result<usize, Refusal>
    requires { item_size * most_keywords ≤ length list.old }
    ensures { Read set.now result list.new }
{
    let size = set.len();
    if size == 0 {
        return Err(Refusal::SetEmpty);
    }
    if size % RECORD != 0 {
        return Err(Refusal::SetSize);
    }
    let count = size / RECORD;
    if KEYWORDS < count {
        return Err(Refusal::TooManyKeywords);
    }
    for i in 0..count {
        read_record(set, i, list)?;
    }
    Ok(count)
}

// The tests 1 to 6 of a set, and its keywords as a value, lent from a list with room for 64.
pub fn read_keywords<'a>(set: &[u8], list: &'a mut [u16]) -> Result<Keywords<'a>, Refusal>
    requires { item_size * most_keywords ≤ length list.old }
    ensures { Lent set.now result }
{
    let count = read(set, list)?;
    let end = ITEM * count;
    Ok(Keywords { list: &list[..end] })
}
