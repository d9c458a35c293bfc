// The rows of keywords, keyword by keyword.
ghost use Rattle.std.specs.Prelude.{◌+◌, ◌*◌, ◌≤◌, length, take};
ghost use Rattle.rules.specs.sets.Limits.{row_cells};
ghost use Rattle.rules.specs.rows.Rows.{rows_of};
ghost use Rattle.words.specs.Items.{keywords_in};
ghost use Rattle.words.specs.Read.{way_of};
ghost use Rattle.rows.specs.Builds.{Inserting, Built};

use crate::cells::{Cell, put};
use crate::tree::{append, ask};
use rules::{CELLS, Way};
use words::{Keywords, count_of, item_at, unit};

// The rows of the keyword at place i behind those of the keywords before it; how many rows there are then.
fn insert(ws: &mut [u16], words: Keywords<'_>, i: usize, way: Way, rows: usize) -> usize
    requires { Inserting (way_of way) (keywords_in words.list.now) i rows ws.old }
    ensures { Built (way_of way) (take (i + 1) (keywords_in words.entry.list.now)) result ws.old ws.new }
{
    let keyword = item_at(words.list, i);
    let mut count = rows;
    let mut row = 0;
    for k in 0..keyword.units.len() {
        let c = unit(keyword.units, k, way);
        let found = ask(ws, row, c);
        match found.child {
            Some(next) => row = next,
            None => {
                append(ws, count, row, found.last, c);
                row = count;
                count += 1;
            }
        }
    }
    put(ws, row, Cell::Key, keyword.number + 1);
    count
}

// The rows of all keywords; how many there are.
pub(crate) fn build(ws: &mut [u16], words: Keywords<'_>, way: Way) -> usize
    requires { row_cells * length (rows_of (way_of way) (keywords_in words.list.now)) ≤ length ws.old }
    ensures { Built (way_of way) (keywords_in words.entry.list.now) result ws.old ws.new }
{
    ws[..CELLS].fill(0);
    let mut rows = 1;
    for i in 0..count_of(words.list) {
        rows = insert(ws, words, i, way, rows);
    }
    rows
}
