// The six numbers of a row, by name.
ghost use Rattle.std.specs.Prelude.{◌≡◌, ◌+◌, ◌*◌, ◌<◌, ◌≤◌, length, get_or, set};
ghost use Rattle.rules.specs.sets.Limits.{row_cells};
ghost use Rattle.rows.specs.Cells.{place};
ghost use Rattle.rows.specs.Tree.{link, own};

use rules::CELLS;

// The numbers of a row, in their order.
#[derive(Clone, Copy)]
pub(crate) enum Cell {
    Byte,
    Child,
    Sibling,
    Failure,
    Key,
    Dictionary,
}

// A number of a row.
fn get(ws: &[u16], row: usize, which: Cell) -> u16
    requires { row_cells * row + row_cells ≤ length ws.now }
    ensures { result ≡ get_or ws.now (row_cells * row + place which) 0 }
{
    ws[CELLS * row + which as usize]
}

// Writes a number of a row.
pub(crate) fn put(ws: &mut [u16], row: usize, which: Cell, number: u16)
    requires { row_cells * row + row_cells ≤ length ws.old }
    ensures { ws.new ≡ set ws.old (row_cells * row + place which) number }
{
    ws[CELLS * row + which as usize] = number;
}

// A number of a row as the row that it names; it names none where it is 0.
fn named(ws: &[u16], row: usize, which: Cell) -> Option<usize>
    requires { row_cells * row + row_cells ≤ length ws.now }
    ensures { (result ≡ link (get_or ws.now (row_cells * row + place which) 0))
        × (get_or ws.now (row_cells * row + place which) 0 < 65536) }
{
    match get(ws, row, which) {
        0 => None,
        at => Some(usize::from(at)),
    }
}

// The byte that the row adds to its parent.
pub(crate) fn byte(ws: &[u16], row: usize) -> u16
    requires { row_cells * row + row_cells ≤ length ws.now }
    ensures { result ≡ get_or ws.now (row_cells * row + 0) 0 }
{
    get(ws, row, Cell::Byte)
}

// The lowest-numbered child.
pub(crate) fn child(ws: &[u16], row: usize) -> Option<usize>
    requires { row_cells * row + row_cells ≤ length ws.now }
    ensures { (result ≡ link (get_or ws.now (row_cells * row + 1) 0))
        × (get_or ws.now (row_cells * row + 1) 0 < 65536) }
{
    named(ws, row, Cell::Child)
}

// The next higher row with the same parent.
pub(crate) fn sibling(ws: &[u16], row: usize) -> Option<usize>
    requires { row_cells * row + row_cells ≤ length ws.now }
    ensures { (result ≡ link (get_or ws.now (row_cells * row + 2) 0))
        × (get_or ws.now (row_cells * row + 2) 0 < 65536) }
{
    named(ws, row, Cell::Sibling)
}

// The failure row. It is row 0 itself where no longer suffix is a row.
pub(crate) fn failure(ws: &[u16], row: usize) -> usize
    requires { row_cells * row + row_cells ≤ length ws.now }
    ensures { (result ≡ get_or ws.now (row_cells * row + 3) 0) × (result < 65536) }
{
    usize::from(get(ws, row, Cell::Failure))
}

// The row's own keyword number.
pub fn key(ws: &[u16], row: usize) -> Option<u16>
    requires { row_cells * row + row_cells ≤ length ws.now }
    ensures { (result ≡ own (get_or ws.now (row_cells * row + 4) 0))
        × (get_or ws.now (row_cells * row + 4) 0 < 65536) }
{
    get(ws, row, Cell::Key).checked_sub(1)
}

// The row of the longest proper suffix that is a keyword.
pub fn dictionary(ws: &[u16], row: usize) -> Option<usize>
    requires { row_cells * row + row_cells ≤ length ws.now }
    ensures { (result ≡ link (get_or ws.now (row_cells * row + 5) 0))
        × (get_or ws.now (row_cells * row + 5) 0 < 65536) }
{
    named(ws, row, Cell::Dictionary)
}
