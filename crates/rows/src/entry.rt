// The tests of trace and workspace that a job begins with, once its keywords are read.
ghost use Rattle.std.specs.Prelude.{◌≡◌};
ghost use Rattle.rules.specs.answers.Refusals.{entry_verdict};
ghost use Rattle.rules.specs.answers.Promises.{verdict_of};
ghost use Rattle.words.specs.Items.{keywords_in};
ghost use Rattle.words.specs.Read.{way_of};

use rules::{CELLS, Refusal, TRACE, WORKSPACE, Way};
use words::{Keywords, count_rows};

// The tests 8 and 9 of keywords that are read one way, a trace of so many bytes and a workspace of so many numbers. A
// workspace that is enough for every set needs no count of the rows.
pub(crate) fn enter(words: Keywords<'_>, way: Way, trace: usize, room: usize) -> Result<(), Refusal>
    ensures { verdict_of result ≡ entry_verdict (way_of way) (keywords_in words.entry.list.now) trace room }
{
    if TRACE < trace {
        return Err(Refusal::TraceTooLong);
    }
    if WORKSPACE <= room {
        return Ok(());
    }
    let rows = count_rows(words, way);
    if room < CELLS * rows {
        return Err(Refusal::WorkspaceShort { rows: rows as u16 });
    }
    Ok(())
}
