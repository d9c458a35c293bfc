// What the host compiler and the bench group call, over slices; `bezowik_c` hands it to C. Each needs no earlier check.
#![tactic(auto)]

pub mod answer; // answer.rt: an answer in its twenty bytes

ghost use Rattle.std.specs.Prelude.{◌≡◌, ◌≤◌, ◌<◌, length};
ghost use Rattle.rules.specs.sets.Limits.{answer_size};
ghost use Rattle.rules.specs.scans.Hits.{over};
ghost use Rattle.rules.specs.answers.Answers.{told, told_counted, answer_bytes};
ghost use Rattle.bezowik.specs.Calls.{told_of};
ghost use Rattle.bezowik.specs.declared.answer.Answer.{Answer};
ghost use Rattle.rules.specs.answers.Promises.{host_told, Host, Forward, Backward, Make, Check};
ghost use Rattle.bezowik.specs.Calls.{ForwardCall, BackwardCall, MakeCall, CheckCall};

use crate::answer::Answer;
use backward::scan as scan_backward;
use forward::scan;
use rules::{ANSWER, Refusal, Totals, WORKSPACE};
use skips::{check, make};

// The answer of a job, written in its twenty bytes; a shorter buffer is refused, and the job does not run. The job is
// lent and not given, so that the caller knows what it left in the buffers that it holds.
fn answered<R: Into<Answer>, F: FnMut() -> R>(answer: &mut [u8], job: &mut F) -> Answer
    requires { F.IsAlwaysCallable job.old }
    ensures short { length answer.old < answer_size
        → (result.number ≡ 17) × (answer.new ≡ answer.old) × (job.new ≡ job.old) }
    ensures called { answer_size ≤ length answer.old
        → ((found : R) × F.step job.old found job.new × R.converts found result)
        × (answer.new ≡ over (answer_bytes (told_of result)) answer.old) }
{
    if answer.len() < ANSWER {
        return Answer::from(Refusal::AnswerShort);
    }
    let found: Answer = job().into();
    found.write(answer);
    found
}

// The forward scan with a workspace that is enough for every set, and no hit listed.
fn cost(set: &[u8], trace: &[u8]) -> Result<Totals, Refusal>
    ensures { told result ≡ host_told set.now trace.now }
{
    let mut workspace = [0u16; WORKSPACE];
    let mut hits = [0u32; 1];
    scan(set, trace, &mut workspace, &mut hits)
}

// The cost of a trace: the forward scan's count, questions and energy, in an answer of twenty bytes. The result is
// the refusal's number, or 0.
pub fn bezowik_cost(set: &[u8], trace: &[u8], answer: &mut [u8]) -> u16
    ensures { Host set.now trace.now answer.old result answer.new }
{
    let mut costs = || cost(set, trace);
    answered(answer, &mut costs).number
}

// The forward scan, with the caller's workspace and hit buffer.
pub fn bezowik_forward(
    set: &[u8],
    trace: &[u8],
    workspace: &mut [u16],
    hits: &mut [u32],
    answer: &mut [u8],
) -> u16
    ensures { ForwardCall set.now trace.now workspace.old hits.old answer.old result
        workspace.new hits.new answer.new }
{
    let mut scans = ||
        ensures { Forward set.entry.now trace.entry.now workspace.entry.now hits.entry.now (told result)
            workspace.exit.now hits.exit.now }
    { scan(set, trace, workspace, hits) };
    answered(answer, &mut scans).number
}

// The backward scan under a lent table, which is checked at each call.
pub fn bezowik_backward(
    set: &[u8],
    trace: &[u8],
    row_file: &[u8],
    byte_file: &[u8],
    workspace: &mut [u16],
    hits: &mut [u32],
    answer: &mut [u8],
) -> u16
    ensures { BackwardCall set.now trace.now row_file.now byte_file.now
        workspace.old hits.old answer.old result
        workspace.new hits.new answer.new }
{
    let mut scans = ||
        ensures { Backward set.entry.now trace.entry.now row_file.entry.now byte_file.entry.now
            workspace.entry.now hits.entry.now (told result) workspace.exit.now hits.exit.now }
    { scan_backward(set, trace, row_file, byte_file, workspace, hits) };
    answered(answer, &mut scans).number
}

// Making skip tables: the largest safe numbers at the front of two buffers. The answer has the rows in the place of the
// count.
pub fn bezowik_make(
    set: &[u8],
    workspace: &mut [u16],
    row_buffer: &mut [u8],
    byte_buffer: &mut [u8],
    answer: &mut [u8],
) -> u16
    ensures { MakeCall set.now workspace.old row_buffer.old byte_buffer.old
        answer.old result
        workspace.new row_buffer.new byte_buffer.new answer.new }
{
    let mut makes = ||
        ensures { Make set.entry.now workspace.entry.now row_buffer.entry.now byte_buffer.entry.now
            (told_counted result)
            workspace.exit.now row_buffer.exit.now byte_buffer.exit.now }
    { make(set, workspace, row_buffer, byte_buffer) };
    answered(answer, &mut makes).number
}

// The check of a skip table. The answer has the rows in the place of the count.
pub fn bezowik_check(
    set: &[u8],
    row_file: &[u8],
    byte_file: &[u8],
    workspace: &mut [u16],
    answer: &mut [u8],
) -> u16
    ensures { CheckCall set.now row_file.now byte_file.now workspace.old
        answer.old result
        workspace.new answer.new }
{
    let mut checks = ||
        ensures { Check set.entry.now row_file.entry.now byte_file.entry.now workspace.entry.now
            (told_counted result) workspace.exit.now }
    { check(set, row_file, byte_file, workspace) };
    answered(answer, &mut checks).number
}
