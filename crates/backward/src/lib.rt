// The backward scan: windows read from their ends, moved on by the numbers of a table that was judged safe.
#![tactic(auto)]

ghost use Rattle.std.specs.Prelude.{◌≡◌, List, ◌++◌, ℕ, ◌<◌, length};
ghost use Rattle.rules.specs.rows.Rows.{backward};
ghost use Rattle.rules.specs.scans.Hits.{Hit};
ghost use Rattle.rules.specs.answers.Refusals.{entry_verdict};
ghost use Rattle.rules.specs.answers.Answers.{told};
ghost use Rattle.rules.specs.answers.Promises.{Backward, BackwardOf};
ghost use Rattle.words.specs.Items.{keywords_in};
ghost use Rattle.hits.specs.Tallies.{Tallied};
ghost use Rattle.backward.specs.Windowed.{Moving, move_in, Closing, window_of, Safe, Ran};

mod met; // met.rt: the numbers of the keywords that a window has met

use crate::met::Met;
use hits::{Tally, list, nothing};
use rows::cells::key;
use rows::tree::ask;
use rules::{DEPTHS, ROW, Refusal, Totals};
use sets::read_keywords;
use skips::{Table, check_words};
use words::{Keywords, LIST};

// How far a window moves on that stopped at a row of some depth: by edge where no byte was left unread before it,
// else by the lesser of edge and the greater of inner and the far number of the byte that has no child.
#[tactic(auto, unfolding(rules::specs::skips::Runs::move_by))]
fn move_on(table: Table<'_>, row: usize, depth: usize, missing: Option<u8>) -> usize
    requires { Moving table.row_file.now table.byte_file.now row depth }
    ensures { (result ≡ move_in table.entry.row_file.now table.entry.byte_file.now row depth missing)
        × (result < 256) }
{
    let edge = usize::from(table.row_file[ROW * row + 17]);
    let Some(byte) = missing else {
        return edge;
    };
    let inner = usize::from(table.row_file[ROW * row + 16]);
    let far = usize::from(table.byte_file[DEPTHS * usize::from(byte) + depth]);
    edge.min(inner.max(far))
}

// The hits of a window, longest first: the keywords that it met last are listed first.
fn list_window(
    words: Keywords<'_>,
    hits: &mut [u32],
    end: usize,
    met: &[u16],
    tally: Tally,
) -> Tally
    requires { (done : List Hit)
        × (old : List ℕ)
        × Closing words.list.now end met.now done old tally hits.old }
    ensures { (done : List Hit) (old : List ℕ)
        → Closing words.entry.list.now end met.now done old tally hits.old
        → Tallied (done ++ window_of (keywords_in words.entry.list.now) end met.now) old result hits.new }
{
    let mut next = tally;
    for number in met.iter().rev() {
        next = list(words, hits, end, usize::from(*number), next);
    }
    next
}

// What the windows found, and how many questions they asked.
#[derive(Drop)]
pub(crate) struct Seen {
    pub tally: Tally,
    pub questions: usize,
}

// The windows of a trace, one after the other.
fn run(ws: &[u16], words: Keywords<'_>, trace: &[u8], table: Table<'_>, hits: &mut [u32]) -> Seen
    requires { Safe words.list.now trace.now table.row_file.now table.byte_file.now ws.now }
    ensures { Ran (keywords_in words.entry.list.now) trace.now table.entry.row_file.now table.entry.byte_file.now
        hits.old
        result
        hits.new }
{
    let mut tally = nothing();
    let mut questions = 0;
    let mut met = Met::empty();
    let mut end = usize::from(table.row_file[17]);
    while end <= trace.len() {
        met.clear();
        let mut unread = &trace[..end];
        let mut reached = 0;
        let row = 'bytes: loop {
            let Some((byte, rest)) = unread.split_last() else {
                break 'bytes reached;
            };
            questions += 1;
            let Some(next) = ask(ws, reached, u16::from(*byte)).child else {
                break 'bytes reached;
            };
            reached = next;
            unread = rest;
            if let Some(number) = key(ws, reached) {
                met.push(number);
            }
        };
        tally = list_window(words, hits, end, met.numbers(), tally);
        end += move_on(table, row, end - unread.len(), unread.last().copied());
    }
    Seen { tally, questions }
}

// The backward scan of a trace for the keywords of a list, with a table: refusals 8 to 14, else what was found.
fn scan_words(
    words: Keywords<'_>,
    trace: &[u8],
    table: Table<'_>,
    workspace: &mut [u16],
    hits: &mut [u32],
) -> Result<Totals, Refusal>
    ensures { BackwardOf
        (entry_verdict backward (keywords_in words.entry.list.now) (length trace.now)
        (length workspace.old))
        (keywords_in words.entry.list.now)
        trace.now
        table.entry.row_file.now
        table.entry.byte_file.now
        workspace.old
        hits.old
        (told result)
        workspace.new
        hits.new }
{
    check_words(words, trace.len(), table, workspace)?;
    let seen = run(workspace, words, trace, table, hits);
    Ok(seen.tally.totals(seen.questions))
}

// The backward scan of a trace with a set and a table: refusals 1 to 6 and 8 to 14, else what was found.
pub fn scan(
    set: &[u8],
    trace: &[u8],
    row_file: &[u8],
    byte_file: &[u8],
    workspace: &mut [u16],
    hits: &mut [u32],
) -> Result<Totals, Refusal>
    ensures { Backward set.now trace.now row_file.now byte_file.now
        workspace.old hits.old (told result) workspace.new hits.new }
{
    let mut list = [0u16; LIST];
    let words = read_keywords(set, &mut list)?;
    let table = Table {
        row_file,
        byte_file,
    };
    scan_words(words, trace, table, workspace, hits)
}
