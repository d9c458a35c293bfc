// The tests of a table, 10 to 14.
ghost use Rattle.std.specs.Prelude.{◌≡◌, ◌+◌, ◌*◌, ◌≤◌, ◌<◌, length, take, drop};
ghost use Rattle.rules.specs.sets.Limits.{row_record, byte_file_size, most_rows};
ghost use Rattle.rules.specs.skips.Skips.{suffix_rows};
ghost use Rattle.rules.specs.answers.Refusals.{faulty, row_verdicts, far_verdicts, table_verdict};
ghost use Rattle.rules.specs.answers.Promises.{verdict_of};
ghost use Rattle.words.specs.Items.{keywords_in};
ghost use Rattle.skips.specs.Judging.{fault_of};

use crate::Table;
use crate::fars::far_numbers;
use crate::measured::Measured;
use crate::suffixes::{first, next, record_of};
use rules::{BYTES, DEPTHS, ROW, Refusal};

// Whether a number of a file is 0 or above the largest.
fn faulty(largest: u8, n: u8) -> bool
    ensures { result ≡ faulty largest n }
{
    n == 0 || largest < n
}

// The fault of a row's record in the row file beside the best one, which has the largest numbers: it names another
// suffix, or a number is 0 or above the largest.
fn fault(file: &[u8], row: usize, best: [u8; ROW]) -> Result<(), Refusal>
    requires { (row_record * row + row_record ≤ length file.now) × (row < most_rows) }
    ensures { verdict_of result
        ≡ fault_of row best (take row_record (drop (row_record * row) file.now)) }
{
    let from = ROW * row;
    let found = &file[from..from + ROW];
    if found[..16] != best[..16] {
        return Err(Refusal::RowNamesAnother { row: row as u16 });
    }
    if faulty(best[16], found[16]) || faulty(best[17], found[17]) {
        return Err(Refusal::RowNumber { row: row as u16 });
    }
    Ok(())
}

// The tests 11 and 12 of a row file of the right size.
fn judge_rows(set: Measured<'_>, file: &[u8]) -> Result<(), Refusal>
    requires { length file.now ≡ row_record * set.rows }
    ensures { verdict_of result ≡ row_verdicts (keywords_in set.entry.words.list.now) 0
        (suffix_rows (keywords_in set.entry.words.list.now)) file.now }
{
    let mut row = first(set);
    fault(file, row.number, record_of(row))?;
    while row.number + 1 < set.rows {
        row = next(row);
        fault(file, row.number, record_of(row))?;
    }
    Ok(())
}

// Test 14 of a byte file of the right size.
fn judge_bytes(set: Measured<'_>, file: &[u8]) -> Result<(), Refusal>
    requires { length file.now ≡ byte_file_size }
    ensures { verdict_of result
        ≡ far_verdicts (keywords_in set.entry.words.list.now) byte_file_size 0 file.now }
{
    let far = far_numbers(set);
    for (p, n) in file.iter().enumerate() {
        if faulty(far[p / DEPTHS][p % DEPTHS], *n) {
            return Err(Refusal::FarNumber { place: p as u16 });
        }
    }
    Ok(())
}

// The tests 10 to 14 of a table.
pub(crate) fn judge(set: Measured<'_>, table: Table<'_>) -> Result<(), Refusal>
    ensures { verdict_of result ≡ table_verdict (keywords_in set.entry.words.list.now)
        table.entry.row_file.now table.entry.byte_file.now }
{
    if table.row_file.len() != ROW * set.rows {
        return Err(Refusal::RowFileSize {
            rows: set.rows as u16,
        });
    }
    judge_rows(set, table.row_file)?;
    if table.byte_file.len() != BYTES {
        return Err(Refusal::ByteFileSize);
    }
    judge_bytes(set, table.byte_file)
}
