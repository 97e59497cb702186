// Standard output, through a buffer. A write that fails is said on standard error, and the listing ends there.
use call::answers::Answer;
use forms::bytes;
use table::line;

// The first `filled` bytes are to be written.
// Kept, a buffer with a length beside it: it is lent whole to `line`, which stores a line at a place of it.
#[derive(Drop)]
pub struct Output<'a> {
    rt: &'a HostRuntime,
    buf: [u8; 32768],
    filled: usize,
}

impl<'a> Output<'a> {
    pub(crate) fn new(rt: &'a HostRuntime) -> Output<'a> {
        Output {
            rt,
            buf: [0; 32768],
            filled: 0,
        }
    }

    // There is room for a further line.
    pub(crate) fn has_room(&self) -> bool {
        line::has_room(&self.buf, self.filled)
    }

    pub(crate) fn put_header(&mut self) {
        let next = line::header(&mut self.buf, self.filled);
        self.filled = next.unwrap_or(self.filled);
    }

    pub(crate) fn put_line(&mut self, number: u64, answer: Answer) {
        let next = line::line(&mut self.buf, self.filled, number, answer);
        self.filled = next.unwrap_or(self.filled);
    }

    // Writes what is in the buffer; answers whether it could. Either way the buffer is empty then.
    pub(crate) fn flush(&mut self) -> bool {
        let text = bytes::part_of(&self.buf, 0, self.filled);
        self.filled = 0;
        let written = streams::write_all(&mut self.rt.stdout(), text);
        if !written {
            streams::write_all(
                &mut self.rt.stderr(),
                b"listing: writing standard output failed; the listing lacks what could not be written\n",
            );
        }
        written
    }
}
