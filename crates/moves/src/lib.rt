// Inner layer: bytes moved within a buffer. Definitions: specs/Reading.antt.
#![tactic(auto)]

ghost use Rattle.std.specs.Prelude.{◌≡◌, ◌+◌, ◌-◌, ◌≤◌, ◌<◌, ◌++◌, length, take, replicate};
ghost use Rattle.std.proofs.Math.Seq.{slice};
ghost use Rattle.base.specs.Reading.{over};
ghost use Rattle.moves.specs.Reading.{laid, removed};

// Moves the bytes from..end up by `by`, the last first; the bytes below from + by stay. Asks for room: the caller has tested it.
pub fn move_up(buf: &mut [u8], from: usize, end: usize, by: usize)
    requires { (from ≤ end) × (end + by ≤ length buf.old) }
    ensures { buf.new ≡ laid (from + by) (slice from end buf.old) buf.old }
{
    for i in (from..end).rev() {
        buf[i + by] = buf[i];
    }
}

// Moves the bytes from..end down by `by`, the first first; what is not overwritten stays. Asks that they stand in the buffer.
fn move_down(buf: &mut [u8], from: usize, end: usize, by: usize)
    requires { (by ≤ from) × (from ≤ end) × (end ≤ length buf.old) }
    ensures { buf.new ≡ laid (from - by) (slice from end buf.old) buf.old }
{
    for i in from..end {
        buf[i - by] = buf[i];
    }
}

// Sets the bytes from..end to 0. Asks that they stand in the buffer, at places of 32 bits. The remainder changes no number: without it LLVM makes
// the loop a call of `memset`, and the library calls nothing.
fn clear(buf: &mut [u8], from: usize, end: usize)
    requires { (from ≤ end) × (end ≤ length buf.old) × (end < 4294967296) }
    ensures { buf.new ≡ laid from (replicate (end - from) 0) buf.old }
{
    for k in from..end {
        buf[k % 4294967296] = 0;
    }
}

// Takes the n bytes at `at` out of the first `len` bytes, which move down; the bytes freed become 0. Asks that they stand there, at places of 32
// bits: a font has 2^20 bytes at most.
pub fn remove(buf: &mut [u8], len: usize, at: usize, n: usize)
    requires { (at + n ≤ len) × (len ≤ length buf.old) × (len < 4294967296) }
    ensures { buf.new ≡ over (removed at n (take len buf.old) ++ replicate n 0) buf.old }
{
    move_down(buf, at + n, len, n);
    clear(buf, len - n, len);
}
