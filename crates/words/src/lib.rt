// The words: the keywords of a set as one list of 16-bit numbers, nineteen a keyword. What is behind the tests of a
// set reads keywords from here alone, and only this crate knows where a number lies.
#![tactic(auto)]

ghost use Rattle.std.specs.Prelude.{◌≡◌, ◌+◌, ◌*◌, ◌<◌, ◌≤◌, length, take, get_or};
ghost use mathlib.Core.List.{Memᴰ};
ghost use Rattle.std.proofs.Math.Seq.{paste};
ghost use Rattle.rules.specs.sets.Limits.{longest_word};
ghost use Rattle.rules.specs.strings.Strings.{same, ends};
ghost use Rattle.rules.specs.sets.Sets.{Keyword, shortest, is_keyword};
ghost use Rattle.rules.specs.rows.Rows.{rows_of, read_by};
ghost use Rattle.rules.specs.Beside.{Sound, nth, common, most_common, Named};
ghost use Rattle.rules.proofs.sets.Once.{sound_once};
ghost use Rattle.words.specs.Items.{item_size, Words, Has, keywords_in, word_of, stored, Stored};
ghost use Rattle.words.specs.Read.{way_of, read_at, earlier};

use rules::{LONGEST, Way};

// The numbers of a keyword: its number, its length, fifteen units, its energy in two halves, the low one first.
pub const ITEM: usize = 19;

// The numbers of a list that is enough for every set.
pub const LIST: usize = 1216;

// The keywords of a set that passed its tests, in their list.
#[derive(Clone, Copy)]
pub struct Keywords<'a> {
    pub list: &'a [u16],
    pub ghost shaped: { Words list.now },
    pub ghost sound: { Sound (keywords_in list.now) } by { sound_once (keywords_in list.now) },
}

// A keyword as the list has it.
#[derive(Clone, Copy)]
pub struct Item<'a> {
    pub number: u16,
    pub units: &'a [u16],
    pub energy: u32,
}

// A keyword as a value, to be put in a list: its first `len` units count.
#[derive(Drop)]
pub struct Word {
    pub number: u16,
    pub len: usize,
    pub units: [u16; LONGEST],
    pub energy: u32,
}

// How many keywords the list holds.
pub fn count_of(words: &[u16]) -> usize
    ensures { result ≡ length (keywords_in words.now) }
{
    words.len() / ITEM
}

// The keyword at place i.
pub fn item_at(words: &[u16], i: usize) -> Item<'_>
    requires { Has words.now i }
    ensures number { result.number ≡ (nth (keywords_in words.now) i).number }
    ensures units { result.units.now ≡ (nth (keywords_in words.now) i).word }
    ensures energy { result.energy ≡ (nth (keywords_in words.now) i).energy }
    ensures short { length result.units.now ≤ longest_word }
{
    let at = ITEM * i;
    let from = at + 2;
    let to = from + usize::from(words[at + 1]);
    let low = u32::from(words[at + 17]);
    let high = u32::from(words[at + 18]);
    Item {
        number: words[at],
        units: &words[from..to],
        energy: low + 65536 * high,
    }
}

// Unit k of a string as it is read.
pub fn unit(string: &[u16], k: usize, way: Way) -> u16
    requires { k < length string.now }
    ensures { result ≡ get_or (read_by (way_of way) string.now) k 0 }
{
    match way {
        Way::Forward => string[k],
        Way::Backward => string[string.len() - 1 - k],
    }
}

// How many units two strings, as they are read, have in common before the first difference.
fn shared(string: &[u16], other: &[u16], way: Way) -> usize
    ensures { result ≡ common (read_by (way_of way) string.now) (read_by (way_of way) other.now) }
{
    let least = string.len().min(other.len());
    for k in 0..least {
        if unit(string, k, way) != unit(other, k, way) {
            return k;
        }
    }
    least
}

// Whether a string ends with another.
pub fn ends_with(string: &[u16], other: &[u16]) -> bool
    ensures { result ≡ ends other.now string.now }
{
    if string.len() < other.len() {
        return false;
    }
    let from = string.len() - other.len();
    other == &string[from..]
}

// Whether an earlier keyword has the units of the one at place i.
pub fn repeated(words: &[u16], i: usize) -> bool
    requires { Has words.now i }
    ensures { result ≡ is_keyword (take i (keywords_in words.now)) (nth (keywords_in words.now) i).word }
{
    let word = item_at(words, i).units;
    for j in 0..i {
        let earlier = item_at(words, j).units;
        if earlier == word {
            return true;
        }
    }
    false
}

// How much of the keyword at place i, as it is read, an earlier one begins with too.
pub fn most_shared(words: Keywords<'_>, i: usize, way: Way) -> usize
    requires { Has words.list.now i }
    ensures { result ≡ most_common (earlier (way_of way) (keywords_in words.entry.list.now) i)
        (read_at (way_of way) (keywords_in words.entry.list.now) i) }
{
    let word = item_at(words.list, i).units;
    let mut most = 0;
    for j in 0..i {
        let earlier = item_at(words.list, j).units;
        most = most.max(shared(earlier, word, way));
    }
    most
}

// How many rows the keywords have, read one way: each adds what no earlier one begins with.
pub fn count_rows(words: Keywords<'_>, way: Way) -> usize
    ensures { (result ≡ length (rows_of (way_of way) (keywords_in words.entry.list.now)))
        × (result < 65536) }
{
    let mut rows = 1;
    for i in 0..count_of(words.list) {
        rows += item_at(words.list, i).units.len() - most_shared(words, i, way);
    }
    rows
}

// The length of the shortest keyword.
pub fn shortest_of(words: Keywords<'_>) -> usize
    ensures { result ≡ shortest (keywords_in words.entry.list.now) }
{
    let mut least = item_at(words.list, 0).units.len();
    for i in 1..count_of(words.list) {
        least = least.min(item_at(words.list, i).units.len());
    }
    least
}

// The place of the keyword with a number. Numbers rise, so it is no later than the number says.
pub fn place_of(words: Keywords<'_>, number: usize) -> usize
    requires { Named (keywords_in words.list.now) number }
    ensures { Has words.entry.list.now result
        × ((k : Keyword) → Memᴰ k (keywords_in words.entry.list.now) → k.number ≡ number
        → nth (keywords_in words.entry.list.now) result ≡ k) }
{
    for i in (0..count_of(words.list).min(number + 1)).rev() {
        if usize::from(item_at(words.list, i).number) == number {
            return i;
        }
    }
    unreachable!()
}

// The units of a keyword, from a place of the list on.
fn put_units(words: &mut [u16], from: usize, units: [u16; LONGEST])
    requires { from + longest_word ≤ length words.old }
    ensures { (words.new ≡ paste words.old from units longest_word) × (length units ≡ longest_word) }
{
    words[from..from + LONGEST].copy_from_slice(&units);
}

// A keyword at place i of a list with room for it.
pub fn put(words: &mut [u16], i: usize, word: Word)
    requires { (item_size * i + item_size ≤ length words.old) × (word.len ≤ longest_word) }
    ensures { (words.new ≡ stored words.old i word)
        × Stored words.old i (word_of word) words.new }
{
    let at = ITEM * i;
    let units = word.units;
    words[at] = word.number;
    words[at + 1] = word.len as u16;
    put_units(words, at + 2, units);
    words[at + 17] = (word.energy % 65536) as u16;
    words[at + 18] = (word.energy / 65536) as u16;
}
