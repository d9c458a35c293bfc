// The backward rows in row order, each as a suffix of a keyword, and the record of each.
ghost use Rattle.std.specs.Prelude.{◌≡◌, ◌+◌, ◌*◌, ◌<◌, ◌≤◌, length};
ghost use Rattle.std.proofs.Props.{props};
ghost use Rattle.rules.specs.sets.Limits.{row_record};
ghost use Rattle.rules.specs.rows.Rows.{backward, rows_of};
ghost use Rattle.rules.specs.scans.Hits.{over};
ghost use Rattle.rules.specs.skips.Skips.{row_file, record_of};
ghost use Rattle.rules.proofs.sets.Once.{sound_once};
ghost use Rattle.words.specs.Items.{keywords_in};
ghost use Rattle.skips.specs.Suffixes.{At, suffix_at};

use crate::measured::Measured;
use crate::numbers::{ends_within, holds_before, largest};
use crate::records::put_record;
use rules::{ROW, Way};
use words::{item_at, most_shared};

// A row of a set: its number, and the suffix that it stands for, the last `depth` bytes of the keyword at a place.
#[derive(Clone, Copy)]
pub(crate) struct Row<'a> {
    pub set: Measured<'a>,
    pub number: usize,
    pub keyword: usize,
    pub depth: usize,
    pub ghost stands: { At (keywords_in set.words.list.now) number keyword depth } by { Prim.hlevel (props, sound_once) },
}

// Row 0, the empty suffix.
pub(crate) fn first(set: Measured<'_>) -> Row<'_>
    ensures { (result.number ≡ 0) × (result.set.words.list.now ≡ set.entry.words.list.now) }
{
    Row {
        set,
        number: 0,
        keyword: 0,
        depth: 0,
    }
}

// The row behind a row: one byte more of the same keyword, or the first suffix of a later keyword that no earlier one
// ends with.
pub(crate) fn next(row: Row<'_>) -> Row<'_>
    requires { row.number + 1 < length (rows_of backward (keywords_in row.set.words.list.now)) }
    ensures { (result.number ≡ row.entry.number + 1)
        × (result.set.words.list.now ≡ row.entry.set.words.list.now) }
{
    let words = row.set.words;
    let mut i = row.keyword;
    let mut z = row.depth;
    // keyword and depth step together, so there is no range to go over
    while z == item_at(words.list, i).units.len() {
        i += 1;
        z = most_shared(words, i, Way::Backward);
    }
    Row {
        set: row.set,
        number: row.number + 1,
        keyword: i,
        depth: z + 1,
    }
}

// A row's suffix, as it stands in the list.
fn suffix_of<'a>(row: Row<'a>) -> &'a [u16]
    ensures { result.now
        ≡ suffix_at (keywords_in row.entry.set.words.list.now) row.entry.keyword row.entry.depth }
{
    let word = item_at(row.set.words.list, row.keyword).units;
    let from = word.len() - row.depth;
    &word[from..]
}

// The record of a row with the largest numbers: the suffix in its sixteen places, inner, edge.
pub(crate) fn record_of(row: Row<'_>) -> [u8; ROW]
    ensures { result ≡ record_of (keywords_in row.entry.set.words.list.now)
        (suffix_at (keywords_in row.entry.set.words.list.now) row.entry.keyword row.entry.depth) }
{
    let suffix = suffix_of(row);
    let mut numbers = [0u8; ROW];
    numbers[0] = suffix.len() as u8;
    for (k, byte) in suffix.iter().enumerate() {
        numbers[1 + k] = *byte as u8;
    }
    numbers[16] = largest(row.set, suffix, holds_before) as u8;
    numbers[17] = largest(row.set, suffix, ends_within) as u8;
    numbers
}

// The row file with the largest numbers, at the front of a buffer.
pub(crate) fn put_rows(set: Measured<'_>, buffer: &mut [u8])
    requires { row_record * set.rows ≤ length buffer.old }
    ensures { buffer.new ≡ over (row_file (keywords_in set.entry.words.list.now)) buffer.old }
{
    let mut row = first(set);
    put_record(buffer, row.number, record_of(row));
    while row.number + 1 < set.rows {
        row = next(row);
        put_record(buffer, row.number, record_of(row));
    }
}
