// The output, gathered in a buffer and written when the buffer is nearly full.
ghost use Rattle.std.specs.Prelude.{◌≡◌, ◌<◌, ◌≤◌, min, length, take, IfOk, OnErr};

use std::io;
use std::io::Write;

// A number of bytes that a slice has: n, or its length where that is less.
pub fn within(n: usize, bytes: &[u8]) -> usize
    ensures most { result ≤ length bytes.now }
    ensures taken { result ≡ length (take result bytes.now) }
    ensures value { result ≡ min n (length bytes.now) }
{
    n.min(bytes.len())
}

// The first `at` bytes of the buffer, written.
pub fn flush<W: Write>(writer: &mut W, out: &[u8], at: usize) -> io::Result<()> {
    let n = within(at, out);
    writer.write_all(&out[..n])
}

// The number of bytes gathered, with room for a line behind them: the buffer is written where it has not. Only that write can fail.
pub fn room<W: Write>(writer: &mut W, out: &[u8], at: usize) -> io::Result<usize>
    ensures ok { IfOk result (λ n. n ≤ 60000) }
    ensures err { OnErr result (60000 < at) }
{
    if at <= 60000 {
        return Ok(at);
    }
    flush(writer, out, at)?;
    Ok(0)
}
