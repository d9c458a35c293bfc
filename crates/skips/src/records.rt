// Files of records that have one size.
ghost use Rattle.std.specs.Prelude.{◌≡◌, ◌+◌, ◌*◌, ◌≤◌, length};
ghost use Rattle.skips.specs.Records.{put_at};

// A record at its place in the file at the front of a buffer. Never inlined: the records of a file would become one call of
// memcpy, which C would have to bring.
#[inline(never)]
pub(crate) fn put_record<const N: usize>(buffer: &mut [u8], place: usize, numbers: [u8; N])
    requires { N * place + N ≤ length buffer.old }
    ensures { buffer.new ≡ put_at buffer.old (N * place) numbers.entry }
{
    let from = N * place;
    buffer[from..from + N].copy_from_slice(&numbers);
}
