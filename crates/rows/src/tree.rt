// The child question, and one row more.
ghost use Rattle.std.specs.Prelude.{◌≡◌, List, [], ℕ, ◌+◌, ◌*◌, ◌<◌, ◌≤◌, length, get_or, IfSome};
ghost use Rattle.rules.specs.sets.Limits.{row_cells};
ghost use Rattle.rows.specs.Tree.{Tree, Answered, appended};

use crate::cells::{Cell, byte, child, put, sibling};
use rules::CELLS;

// What a question found: the child, if there is one; the last row that was compared, if one was; how many were.
#[derive(Drop)]
pub struct Asked {
    pub child: Option<usize>,
    pub last: Option<usize>,
    pub compared: usize,
}

// Which child of a row has the byte c.
pub fn ask(ws: &[u16], row: usize, c: u16) -> Asked
    requires { (R : List (List ℕ)) × Tree R ws.now × (row < length R) }
    ensures { (R : List (List ℕ)) → Tree R ws.now → row < length R → Answered R (get_or R row []) c result }
{
    let mut last = None;
    let mut compared = 0;
    let mut next = child(ws, row);
    while let Some(at) = next {
        compared += 1;
        last = next;
        if byte(ws, at) == c {
            return Asked {
                child: Some(at),
                last,
                compared,
            };
        }
        next = sibling(ws, at);
    }
    Asked {
        child: None,
        last,
        compared,
    }
}

// A new row behind the others, linked from its parent, or from the last of its siblings where there are some.
pub(crate) fn append(ws: &mut [u16], rows: usize, parent: usize, last: Option<usize>, c: u16)
    requires { (row_cells * rows + row_cells ≤ length ws.old)
        × (parent < rows)
        × IfSome last (λ i. i < rows)
        × (rows < 65536) }
    ensures { ws.new ≡ appended ws.old rows parent last c }
{
    let number = rows as u16;
    match last {
        None => put(ws, parent, Cell::Child, number),
        Some(last) => put(ws, last, Cell::Sibling, number),
    }
    let at = CELLS * rows;
    ws[at] = c;
    ws[at + 1..at + CELLS].fill(0);
}
