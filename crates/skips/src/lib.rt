// Skip tables: making the largest safe numbers, and checking that a lent table holds none above them.
#![tactic(auto)]

pub mod measured; // measured.rt: a set's keywords, their rows and the shortest one's length
pub mod records; // records.rt: a record at its place in a buffer
pub mod numbers; // numbers.rt: inner and edge of a suffix
pub mod fars; // fars.rt: the far numbers of all bytes
pub mod suffixes; // suffixes.rt: the backward rows in row order, and their records
pub mod judge; // judge.rt: the tests of a table

ghost use Rattle.std.specs.Prelude.{length};
ghost use Rattle.rules.specs.rows.Rows.{backward};
ghost use Rattle.rules.specs.answers.Refusals.{entry_verdict};
ghost use Rattle.rules.specs.answers.Answers.{told_counted};
ghost use Rattle.rules.specs.answers.Promises.{Make, MakeOf, Check, CheckOf};
ghost use Rattle.words.specs.Items.{keywords_in};

use crate::fars::put_bytes;
use crate::judge::judge;
use crate::measured::measure;
use crate::suffixes::put_rows;
use rows::begin;
use rules::{BYTES, ROW, Refusal, Way};
use sets::read_keywords;
use words::{Keywords, LIST};

// A table: the file with the numbers of the rows and the one with those of the bytes.
#[derive(Clone, Copy)]
pub struct Table<'a> {
    pub row_file: &'a [u8],
    pub byte_file: &'a [u8],
}

// Making for the keywords of a set: refusals 9, 15 and 16, else the number of rows.
fn make_words(
    words: Keywords<'_>,
    workspace: &mut [u16],
    row_buffer: &mut [u8],
    byte_buffer: &mut [u8],
) -> Result<u16, Refusal>
    ensures { MakeOf
        (entry_verdict backward (keywords_in words.entry.list.now) 0 (length workspace.old))
        (keywords_in words.entry.list.now) workspace.old row_buffer.old byte_buffer.old
        (told_counted result) workspace.new row_buffer.new byte_buffer.new }
{
    let rows = begin(workspace, words, Way::Backward, 0)?;
    let set = measure(words, rows as usize);
    if row_buffer.len() < ROW * set.rows {
        return Err(Refusal::RowBufferShort { rows });
    }
    if byte_buffer.len() < BYTES {
        return Err(Refusal::ByteBufferShort);
    }
    put_rows(set, row_buffer);
    put_bytes(set, byte_buffer);
    Ok(rows)
}

// The largest numbers of a set, at the front of two lent buffers: refusals 1 to 6, 9, 15 and 16, else the number of
// rows.
pub fn make(
    set: &[u8],
    workspace: &mut [u16],
    row_buffer: &mut [u8],
    byte_buffer: &mut [u8],
) -> Result<u16, Refusal>
    ensures { Make set.now workspace.old row_buffer.old byte_buffer.old (told_counted result)
        workspace.new row_buffer.new byte_buffer.new }
{
    let mut list = [0u16; LIST];
    let words = read_keywords(set, &mut list)?;
    make_words(words, workspace, row_buffer, byte_buffer)
}

// The check for the keywords of a set, and what a scan of a trace of so many bytes under the table begins with:
// refusals 8 to 14, else the number of rows.
pub fn check_words(
    words: Keywords<'_>,
    trace: usize,
    table: Table<'_>,
    workspace: &mut [u16],
) -> Result<u16, Refusal>
    ensures { CheckOf
        (entry_verdict backward (keywords_in words.entry.list.now) trace (length workspace.old))
        (keywords_in words.entry.list.now) table.entry.row_file.now table.entry.byte_file.now
        workspace.old (told_counted result) workspace.new }
{
    let rows = begin(workspace, words, Way::Backward, trace)?;
    judge(measure(words, rows as usize), table)?;
    Ok(rows)
}

// Whether a table is safe for a set: refusals 1 to 6 and 9 to 14, else the number of rows.
pub fn check(
    set: &[u8],
    row_file: &[u8],
    byte_file: &[u8],
    workspace: &mut [u16],
) -> Result<u16, Refusal>
    ensures { Check set.now row_file.now byte_file.now workspace.old (told_counted result)
        workspace.new }
{
    let mut list = [0u16; LIST];
    let words = read_keywords(set, &mut list)?;
    check_words(
        words,
        0,
        Table {
            row_file,
            byte_file,
        },
        workspace,
    )
}
