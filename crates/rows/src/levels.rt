// The failure and dictionary rows of all rows, level by level, never depth first.
ghost use Rattle.std.specs.Prelude.{◌+◌, length};
ghost use Rattle.rules.specs.sets.Limits.{longest_word};
ghost use Rattle.rules.specs.rows.Rows.{forward, rows_of};
ghost use Rattle.words.specs.Items.{keywords_in};
ghost use Rattle.rows.specs.Tree.{Held, Beyond};
ghost use Rattle.rows.specs.Falls.{Filling};
ghost use Rattle.rows.specs.Levels.{Level, Levelled};

use crate::failures::fill_row;
use rules::{KEYWORDS, LONGEST};
use words::{Keywords, count_of, item_at};

// One level, with where each keyword stands by its place in the list: from the rows of the prefixes of one length to
// those one byte longer.
fn fill_level(ws: &mut [u16], words: Keywords<'_>, depth: usize, standing: &mut [u16; KEYWORDS])
    requires { Level (keywords_in words.list.now) depth standing.old ws.old }
    ensures { Levelled (keywords_in words.entry.list.now) (depth + 1) standing.new ws.old ws.new }
{
    for i in 0..count_of(words.list) {
        let word = item_at(words.list, i).units;
        if depth < word.len() {
            let parent = standing[i] as usize;
            let row = fill_row(ws, parent, word[depth]);
            standing[i] = row as u16;
        }
    }
}

// The failure and dictionary rows of all levels.
pub(crate) fn fill(ws: &mut [u16], words: Keywords<'_>)
    requires { Held forward (keywords_in words.list.now) (rows_of forward (keywords_in words.list.now)) ws.old }
    ensures { Filling (keywords_in words.entry.list.now) longest_word ws.new
        × Beyond (length (rows_of forward (keywords_in words.entry.list.now))) ws.old ws.new }
{
    let mut standing = [0u16; KEYWORDS];
    for depth in 0..LONGEST {
        fill_level(ws, words, depth, &mut standing);
    }
}
