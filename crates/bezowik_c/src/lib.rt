// The five calls of `bezowik` as C functions: a slice is a pointer and then a count. Nothing stands here but the doors.
#![tactic(auto)]

ghost use Rattle.rules.specs.answers.Promises.{Host};
ghost use Rattle.bezowik.specs.Calls.{ForwardCall, BackwardCall, MakeCall, CheckCall};

// The cost of a trace.
#[unsafe(no_mangle)]
pub extern "C" fn bezowik_cost(set: &[u8], trace: &[u8], answer: &mut [u8]) -> u16
    ensures { Host set.now trace.now answer.old result answer.new }
{
    bezowik::bezowik_cost(set, trace, answer)
}

// The forward scan, with the caller's workspace and hit buffer.
#[unsafe(no_mangle)]
pub extern "C" fn bezowik_forward(
    set: &[u8],
    trace: &[u8],
    workspace: &mut [u16],
    hits: &mut [u32],
    answer: &mut [u8],
) -> u16
    ensures { ForwardCall set.now trace.now workspace.old hits.old answer.old result
        workspace.new hits.new answer.new }
{
    bezowik::bezowik_forward(set, trace, workspace, hits, answer)
}

// The backward scan under a lent table.
#[unsafe(no_mangle)]
pub extern "C" fn bezowik_backward(
    set: &[u8],
    trace: &[u8],
    row_file: &[u8],
    byte_file: &[u8],
    workspace: &mut [u16],
    hits: &mut [u32],
    answer: &mut [u8],
) -> u16
    ensures { BackwardCall set.now trace.now row_file.now byte_file.now
        workspace.old hits.old answer.old result
        workspace.new hits.new answer.new }
{
    bezowik::bezowik_backward(set, trace, row_file, byte_file, workspace, hits, answer)
}

// Making skip tables.
#[unsafe(no_mangle)]
pub extern "C" fn bezowik_make(
    set: &[u8],
    workspace: &mut [u16],
    row_buffer: &mut [u8],
    byte_buffer: &mut [u8],
    answer: &mut [u8],
) -> u16
    ensures { MakeCall set.now workspace.old row_buffer.old byte_buffer.old
        answer.old result
        workspace.new row_buffer.new byte_buffer.new answer.new }
{
    bezowik::bezowik_make(set, workspace, row_buffer, byte_buffer, answer)
}

// The check of a skip table.
#[unsafe(no_mangle)]
pub extern "C" fn bezowik_check(
    set: &[u8],
    row_file: &[u8],
    byte_file: &[u8],
    workspace: &mut [u16],
    answer: &mut [u8],
) -> u16
    ensures { CheckCall set.now row_file.now byte_file.now workspace.old
        answer.old result
        workspace.new answer.new }
{
    bezowik::bezowik_check(set, row_file, byte_file, workspace, answer)
}
