// A program's input, read into a buffer.
#![tactic(auto)]

ghost use Rattle.std.specs.Prelude.{◌≡◌, ◌+◌, ◌*◌, ◌≤◌, length, min, get_or, IfOk, IfSome};

use std::io;
use std::io::Read;

// Reads until the buffer is full or the input ends, and answers how many bytes there are.
pub fn read_full<R: Read>(input: &mut R, buffer: &mut [u8]) -> io::Result<usize>
    ensures bound { IfOk result (λ n. n ≤ length buffer.new) }
    ensures count { IfOk result (λ n. IfSome (R.remaining input.old) (λ bytes. n ≡ min (length bytes) (length buffer.new))) }
{
    let room = buffer.len();
    let mut rest = buffer;
    let n = io::copy(&mut input.take(room as u64), &mut rest)?;
    Ok((n as usize).min(room))
}

// The number of two bytes from the place i on, high byte first; a byte past the end is 0.
pub fn half(bytes: &[u8], i: u32) -> u16
    ensures { result ≡ 256 * get_or bytes.now i 0 + get_or bytes.now (i + 1) 0 }
{
    let high = lent::at(bytes, i as usize, 0);
    let low = lent::at(bytes, i as usize + 1, 0);
    u16::from_be_bytes([high, low])
}
