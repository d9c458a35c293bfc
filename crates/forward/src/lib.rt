// The forward scan: every occurrence, found by one pass over the trace.
#![tactic(auto)]

ghost use Rattle.std.specs.Prelude.{◌≡◌, List, [], ◌++◌, ℕ, ◌+◌, ◌<◌, length, take, get_or};
ghost use Rattle.rules.specs.sets.Sets.{Keyword};
ghost use Rattle.rules.specs.rows.Rows.{forward};
ghost use Rattle.rules.specs.answers.Refusals.{entry_verdict};
ghost use Rattle.rules.specs.answers.Answers.{told};
ghost use Rattle.rules.specs.answers.Promises.{Forward, ForwardOf};
ghost use Rattle.words.specs.Items.{keywords_in};
ghost use Rattle.rows.specs.Laid.{Laid};
ghost use Rattle.forward.specs.Progress.{dictionary_in, AllFound, Scanning, Course, Ending, Listing, Going};

use hits::{Tally, list, nothing};
use rows::begin;
use rows::cells::{dictionary, key};
use rows::failures::advance;
use rules::{Refusal, Totals, Way};
use sets::read_keywords;
use words::{Keywords, LIST};

// What a scan reads beside the trace: keywords, and a workspace with their forward rows.
#[derive(Clone, Copy)]
pub(crate) struct Equipped<'a> {
    pub words: Keywords<'a>,
    pub ws: &'a [u16],
    pub ghost laid: { Laid forward (keywords_in words.list.now) ws.now },
}

// A scan under way: the row that stands for what was read, how many bytes that were, how many questions they took,
// and the hits found in them.
#[derive(Drop)]
pub(crate) struct Running {
    pub row: usize,
    pub end: usize,
    pub questions: usize,
    pub tally: Tally,
}

// A scan that has read nothing.
pub(crate) fn fresh() -> Running
    ensures { (ks : List Keyword) (hits : List ℕ) → Scanning ks [] hits result hits }
{
    Running {
        row: 0,
        end: 0,
        questions: 0,
        tally: nothing(),
    }
}

// One hit more at an end, of a row's own keyword, where the row is a keyword: what is left then are the hits of its
// dictionary row.
fn list_own(scan: Equipped<'_>, hits: &mut [u32], at: usize, end: usize, tally: Tally) -> Tally
    ghost course: { Course }
    requires { Listing (keywords_in scan.words.list.now) course at end tally hits.old }
    ensures { Listing (keywords_in scan.entry.words.list.now) course (dictionary_in scan.entry.ws.now at) end
        result hits.new }
{
    match key(scan.ws, at) {
        Some(number) => list(scan.words, hits, end, usize::from(number), tally),
        None => tally,
    }
}

// The hits at an end whose row stands for what was read: the row's own keyword, then those of its dictionary rows,
// longest first.
fn list_hits(scan: Equipped<'_>, hits: &mut [u32], row: usize, end: usize, tally: Tally) -> Tally
    ghost course: { Course }
    requires { Ending (keywords_in scan.words.list.now) course row end tally hits.old }
    ensures { AllFound (keywords_in scan.entry.words.list.now) (take end course.whole) course.old result hits.new }
{
    let mut next = list_own(scan, hits, row, end, tally);
    let mut at = row;
    while let Some(behind) = dictionary(scan.ws, at) {
        next = list_own(scan, hits, behind, end, next);
        at = behind;
    }
    next
}

// One byte of the trace.
fn step(scan: Equipped<'_>, hits: &mut [u32], c: u16, run: Running) -> Running
    ghost course: { Course }
    requires going { Going (keywords_in scan.words.list.now) course run hits.old }
    requires next { (run.end < length course.whole) × (c ≡ get_or course.whole run.end 0) }
    ensures going { Going (keywords_in scan.entry.words.list.now) course result hits.new }
    ensures further { result.end ≡ run.end + 1 }
{
    let moved = advance(scan.ws, run.row, c);
    let end = run.end + 1;
    let questions = run.questions + moved.asked;
    let tally = list_hits(scan, hits, moved.row, end, run.tally);
    Running {
        row: moved.row,
        end,
        questions,
        tally,
    }
}

// The bytes of a trace, from wherever the scan stands.
pub(crate) fn proceed(scan: Equipped<'_>, trace: &[u8], hits: &mut [u32], run: Running) -> Running
    ghost course: { Course }
    requires going { Going (keywords_in scan.words.list.now) course run hits.old }
    requires rest { course.whole ≡ take run.end course.whole ++ trace.now }
    ensures { Scanning (keywords_in scan.entry.words.list.now) course.whole course.old result hits.new }
{
    let mut next = run;
    for c in trace {
        next = step(scan, hits, u16::from(*c), next);
    }
    next
}

// The forward scan of a trace with keywords that passed their tests: refusals 8 and 9, else what was found.
fn scan_words(
    words: Keywords<'_>,
    trace: &[u8],
    workspace: &mut [u16],
    hits: &mut [u32],
) -> Result<Totals, Refusal>
    ensures { ForwardOf
        (entry_verdict forward (keywords_in words.entry.list.now) (length trace.now)
        (length workspace.old))
        (keywords_in words.entry.list.now)
        trace.now
        workspace.old
        hits.old
        (told result)
        workspace.new
        hits.new }
{
    begin(workspace, words, Way::Forward, trace.len())?;
    let scan = Equipped {
        words,
        ws: workspace,
    };
    let found = proceed(scan, trace, hits, fresh());
    Ok(found.tally.totals(found.questions))
}

// The forward scan of a trace with a set: refusals 1 to 6, 8 and 9, else what was found.
pub fn scan(
    set: &[u8],
    trace: &[u8],
    workspace: &mut [u16],
    hits: &mut [u32],
) -> Result<Totals, Refusal>
    ensures { Forward set.now trace.now workspace.old hits.old (told result)
        workspace.new hits.new }
{
    let mut list = [0u16; LIST];
    let words = read_keywords(set, &mut list)?;
    scan_words(words, trace, workspace, hits)
}
