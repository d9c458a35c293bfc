// The rows of keywords in a lent workspace: six numbers a row. Only this crate's code knows where a number lies.
#![tactic(auto)]

pub mod cells; // cells.rt: one number of a row
pub mod tree; // tree.rt: the child question, and one row more
pub mod build; // build.rt: the rows of keywords
pub mod failures; // failures.rt: the step that follows failures, and the failure of one row
pub mod levels; // levels.rt: the failures of all rows
pub mod entry; // entry.rt: the tests of trace and workspace that a job begins with

ghost use Rattle.std.specs.Prelude.{◌≡◌, ◌*◌, ◌≤◌, length};
ghost use Rattle.rules.specs.sets.Limits.{row_cells};
ghost use Rattle.rules.specs.rows.Rows.{rows_of, cells};
ghost use Rattle.rules.specs.scans.Hits.{over};
ghost use Rattle.words.specs.Items.{keywords_in};
ghost use Rattle.words.specs.Read.{way_of};
ghost use Rattle.rows.specs.Beginning.{Begun};

use crate::entry::enter;
use rules::{Refusal, Way};
use words::Keywords;

// The rows of keywords, read one way, at the front of a workspace with room for them; how many there are.
fn lay(ws: &mut [u16], words: Keywords<'_>, way: Way) -> usize
    requires { row_cells * length (rows_of (way_of way) (keywords_in words.list.now)) ≤ length ws.old }
    ensures { (result ≡ length (rows_of (way_of way) (keywords_in words.entry.list.now)))
        × (ws.new ≡ over (cells (way_of way) (keywords_in words.entry.list.now)) ws.old) }
{
    let rows = build::build(ws, words, way);
    if let Way::Forward = way {
        levels::fill(ws, words);
    }
    rows
}

// What each job begins with, once its keywords are read: the tests 8 and 9, of a trace of so many bytes and of the
// workspace, and where they pass the rows at its front; how many there are, or the refusal. A job that has no trace
// passes none, and test 8 passes.
pub fn begin(ws: &mut [u16], words: Keywords<'_>, way: Way, trace: usize) -> Result<u16, Refusal>
    ensures { Begun (way_of way) (keywords_in words.entry.list.now) trace ws.old result ws.new }
{
    enter(words, way, trace, ws.len())?;
    Ok(lay(ws, words, way) as u16)
}
