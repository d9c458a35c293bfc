// What is measured once of a set's keywords: how many backward rows they have, and the shortest one's length, at which
// all numbers are capped.
ghost use Rattle.std.specs.Prelude.{◌≡◌, length};
ghost use Rattle.rules.specs.sets.Sets.{shortest};
ghost use Rattle.rules.specs.rows.Rows.{backward, rows_of};
ghost use Rattle.words.specs.Items.{keywords_in};

use words::{Keywords, shortest_of};

// The keywords of a set that passed its tests, with those two numbers.
#[derive(Clone, Copy)]
pub(crate) struct Measured<'a> {
    pub words: Keywords<'a>,
    pub rows: usize,
    pub cap: usize,
    pub ghost counted: { rows ≡ length (rows_of backward (keywords_in words.list.now)) },
    pub ghost capped: { cap ≡ shortest (keywords_in words.list.now) },
}

// The keywords of a set whose rows are counted.
pub(crate) fn measure(words: Keywords<'_>, rows: usize) -> Measured<'_>
    requires { rows ≡ length (rows_of backward (keywords_in words.list.now)) }
    ensures { (result.words.list.now ≡ words.entry.list.now) × (result.rows ≡ rows) }
{
    Measured {
        words,
        rows,
        cap: shortest_of(words),
    }
}
