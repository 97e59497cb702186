// Whole reads and writes for the programs, over std's readers and writers, and a test program's next case. At the three standard streams a `read` or a `write` is one call of the system, with no buffer between.
// A call that a signal interrupts before it moves a byte counts as one that failed: nothing is tried again.
#![tactic(auto)]

#[cfg(test)]
mod tests;

ghost use Rattle.std.specs.Prelude.{◌≡◌, ℕ, ◌++◌, ◌+◌, ◌*◌, ◌≤◌, length, get_or, take, IsTrue, IfSome};
ghost use Rattle.std.specs.Io.KnownBytes.{Appends, Consumes};
ghost use Rattle.io.specs.Digits.{IsDigitCount, last_digits};

pub use io::large_buffer;
use std::io::{Read, Write};

// Writes all of the bytes and answers true, or stops at the first write that takes nothing or fails and answers false, when some of the bytes may have been written. For no bytes it makes no call.
// Kept, a bool: the promise is of a `true`, and a `false` has nothing to tell beside it.
pub fn write_all<W: Write>(to: &mut W, bytes: &[u8]) -> bool
    ensures { IsTrue result → Appends (W.contents to.old) (W.contents to.new) bytes.now }
{
    // Kept, a loop over `write`: after an `Err`, `write_all` of std does not say how much was written, and it tries an interrupted write again.
    let mut done = 0;
    while done < bytes.len() {
        match to.write(&bytes[done..]) {
            Ok(0) | Err(_) => return false,
            Ok(n) => done += n,
        }
    }
    true
}

// Writes n in decimal digits, with no line end, and answers what `write_all` does.
pub fn write_decimal<W: Write>(to: &mut W, n: u64) -> bool
    ensures { IsTrue result → (k : ℕ) × IsDigitCount 10 1 n k
        × Appends (W.contents to.old) (W.contents to.new) (last_digits 10 k n) }
{
    let mut text = [0u8; 20];
    let k = io::decimal(n, &mut text);
    write_all(to, &text[..k])
}

// Writes a field's name and its number in decimal digits. Where the name cannot be written, the number is tried all the same; answers whether all of both was written.
pub fn write_field<W: Write>(to: &mut W, name: &[u8], n: u64) -> bool
    ensures { IsTrue result → (k : ℕ) × IsDigitCount 10 1 n k
        × Appends (W.contents to.old) (W.contents to.new) (name.now ++ last_digits 10 k n) }
{
    let named = write_all(to, name);
    let numbered = write_decimal(to, n);
    named && numbered
}

// Reads until the buffer is full, the input ends or a read fails, and answers how many bytes it put at the start of the buffer. For no room it makes no call.
pub fn read_full<R: Read>(from: &mut R, buf: &mut [u8]) -> usize
    ensures within { result ≤ length buf.new }
    ensures bytes { Consumes (R.remaining from.old) (R.remaining from.new) (take result buf.new) }
{
    // Kept, a loop over `read`: after an `Err`, no method of std says how much was read, and those that fill a buffer try an interrupted read again.
    let mut done = 0;
    while done < buf.len() {
        match from.read(&mut buf[done..]) {
            Ok(0) | Err(_) => return done,
            Ok(n) => done += n,
        }
    }
    done
}

// Reads a test program's next case to the start of the buffer, and answers its bytes: its length in two bytes, themselves included, and what follows. A case has `head` bytes at least.
// None where no case is left, where it is cut short, and where its length is below `head` or above the buffer's.
pub fn read_case<'a, R: Read>(from: &mut R, head: usize, buf: &'a mut [u8]) -> Option<&'a [u8]>
    requires { 2 ≤ head }
    ensures within { IfSome result (λ t. head ≤ length t.now) }
    ensures whole { IfSome result (λ t. length t.now ≡ get_or t.now 0 0 * 256 + get_or t.now 1 0) }
    ensures bytes { IfSome result (λ t. Consumes (R.remaining from.old) (R.remaining from.new) t.now) }
{
    if buf.len() < head || read_full(from, &mut buf[..head]) < head {
        return None;
    }
    let n = usize::from(u16::from_be_bytes([buf[0], buf[1]]));
    if n < head || buf.len() < n || read_full(from, &mut buf[head..n]) < n - head {
        return None;
    }
    Some(&buf[..n])
}
