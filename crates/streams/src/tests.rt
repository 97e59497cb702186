// Readers and writers that fail in mid-stream.
ghost use Rattle.std.specs.Prelude.{◌≤◌, IfOk};

use super::*;
use std::io;
use std::io::ErrorKind;

// Moves two bytes with a call, and fails once `left` calls were made. `calls` counts those that failed, too.
#[derive(Drop)]
struct Faulty {
    left: u8,
    calls: u8,
}

impl Faulty {
    fn after(left: u8) -> Faulty {
        Faulty { left, calls: 0 }
    }

    fn moved(&mut self, most: usize) -> io::Result<usize>
        ensures { IfOk result (λ n. n ≤ most) }
    {
        self.calls = self.calls.saturating_add(1);
        if self.left == 0 {
            return Err(io::Error::from(ErrorKind::Interrupted));
        }
        self.left -= 1;
        Ok(most.min(2))
    }
}

impl Read for Faulty {
    fn read(&mut self, buf: &mut [u8]) -> io::Result<usize> {
        let n = self.moved(buf.len())?;
        buf[..n].fill(7);
        Ok(n)
    }
}

impl Write for Faulty {
    fn write(&mut self, buf: &[u8]) -> io::Result<usize> {
        self.moved(buf.len())
    }

    fn flush(&mut self) -> io::Result<()> {
        Ok(())
    }
}

#[test]
fn writes_stop_at_a_failure(rt: HostRuntime) {
    for (left, bytes, whole, calls) in [
        (2, b"abcd".as_slice(), true, 2),
        (3, b"abcde".as_slice(), true, 3),
        (2, b"abcdefgh".as_slice(), false, 3),
        (0, b"".as_slice(), true, 0),
    ] {
        let mut to = Faulty::after(left);
        assert_eq!(rt; write_all(&mut to, bytes), whole, "after {left}");
        assert_eq!(rt; to.calls, calls, "after {left}");
    }
}

#[test]
fn reads_stop_at_a_failure(rt: HostRuntime) {
    for (left, count, calls) in [(4, 7, 4), (5, 7, 4), (2, 4, 3), (0, 0, 1)] {
        let mut from = Faulty::after(left);
        let mut buf = [0u8; 7];
        assert_eq!(rt; read_full(&mut from, &mut buf), count, "after {left}");
        assert_eq!(rt; from.calls, calls, "after {left}");
    }
}

#[test]
fn numbers_have_no_line_end(rt: HostRuntime) {
    for (number, calls) in [(0, 1), (99, 1), (100, 2), (u64::MAX, 10)] {
        let mut to = Faulty::after(20);
        assert!(rt; write_decimal(&mut to, number), "of {number}");
        assert_eq!(rt; to.calls, calls, "of {number}");
    }
}

#[test]
fn cases_are_whole(rt: HostRuntime) {
    // The last four: one that is cut short, none, a length below the head's, and one above the buffer's.
    for (bytes, head, length) in [
        (b"\x00\x05abc\x00\x02".as_slice(), 2, Some(5)),
        (b"\x00\x02".as_slice(), 2, Some(2)),
        (b"\x00\x04d".as_slice(), 2, None),
        (b"".as_slice(), 2, None),
        (b"\x00\x02abc".as_slice(), 3, None),
        (b"\x00\x06abcd".as_slice(), 2, None),
    ] {
        let mut from = bytes;
        let mut buf = [0u8; 5];
        let case = read_case(&mut from, head, &mut buf);
        assert_eq!(rt; case.map(|t| t.len()), length);
    }
}
