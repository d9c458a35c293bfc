// The step that follows failures, and the failure and dictionary rows of one row.
ghost use Rattle.std.specs.Prelude.{List, [], ℕ, ◌+◌, ◌*◌, get_or};
ghost use Rattle.rules.specs.sets.Sets.{Keyword};
ghost use Rattle.rows.specs.Falls.{Ready, Moved, Fillable, Filled};

use crate::cells::{Cell, dictionary, failure, key, put};
use crate::tree::ask;

// Where a step leads, and how many questions it took.
#[derive(Drop)]
pub struct Advanced {
    pub row: usize,
    pub asked: usize,
}

// The row behind the byte c: the longest suffix of the row's string, with c behind it, that is a row.
pub fn advance(ws: &[u16], row: usize, c: u16) -> Advanced
    requires { (R : List (List ℕ)) × (d : ℕ) × Ready R d row ws.now }
    ensures { (R : List (List ℕ)) (d : ℕ) → Ready R d row ws.now → Moved R (get_or R row []) c result }
{
    let mut at = row; // 0 is the row of the empty string, and no none
    let mut asked = 0;
    loop {
        let found = ask(ws, at, c);
        asked += 1;
        if let Some(next) = found.child {
            return Advanced { row: next, asked };
        }
        if at == 0 {
            return Advanced { row: 0, asked };
        }
        at = failure(ws, at);
    }
}

// The failure and dictionary rows of the child that the byte c leads to, from those of the levels above; the child.
pub(crate) fn fill_row(ws: &mut [u16], parent: usize, c: u16) -> usize
    requires { (ks : List Keyword) × (d : ℕ) × Fillable ks d parent c ws.old }
    ensures { (ks : List Keyword) (d : ℕ)
        → Fillable ks d parent c ws.old
        → Filled ks parent c result ws.old ws.new }
{
    let found = ask(ws, parent, c);
    let row = found.child.unwrap();
    let fail = if parent == 0 {
        0
    } else {
        let up = failure(ws, parent);
        advance(ws, up, c).row
    };
    let dict = match key(ws, fail) {
        Some(_) => fail,
        None => dictionary(ws, fail).unwrap_or(0),
    };
    put(ws, row, Cell::Failure, fail as u16);
    put(ws, row, Cell::Dictionary, dict as u16);
    row
}
