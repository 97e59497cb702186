// Standard input: the profile, and then items through the feeder. A read may give any number of bytes. One that fails ends the listing: it is said on standard error, and what it cuts short gets no answer.
// The profile stands at the front of the buffer, with what was read with it. Later reads go to BASE, so that the bytes that a feeder holds have room in front of them.
ghost use Rattle.std.specs.Prelude.{◌≡◌, ◌≤◌, ◌-◌, IfOk};
ghost use Rattle.forms.specs.Bytes.{part};
ghost use Rattle.listing.specs.Input.{goes_on};

use crate::output::Output;
use forms::feeder::{Feeder, Taken};
use forms::framing::Framing;
use forms::refusal::Refusal;
use forms::{bytes, feeder, framing};
use std::io;
use std::io::Read;
use std::ops::Range;

// A profile has 188 bytes at most, an unfinished item 64.
const BASE: usize = 256;

// The profile has `keep` bytes. What was read behind the items that were answered stands from `at` to `end`.
// Kept, places in a buffer and no slices of it: these would lend it, and a read writes to it.
#[derive(Drop)]
pub struct Input<'a> {
    rt: &'a HostRuntime,
    buf: [u8; 32768],
    keep: usize,
    at: usize,
    end: usize,
}

// The chunk is not the end of the input, and does not finish the item.
#[tactic(auto, unfolding(crate::specs::Input::goes_on))]
fn goes_on(f: Feeder, c: &[u8]) -> bool
    ensures { result ≡ goes_on f c.now }
{
    (0 < c.len()) & matches!(feeder::take(f, c), Taken::Unfinished)
}

impl<'a> Input<'a> {
    pub(crate) fn new(rt: &'a HostRuntime) -> Input<'a> {
        Input {
            rt,
            buf: [0; 32768],
            keep: 0,
            at: 0,
            end: 0,
        }
    }

    pub(crate) fn profile(&self) -> &[u8] {
        bytes::part_of(&self.buf, 0, self.keep)
    }

    // The bytes at those places.
    pub(crate) fn part(&self, places: Range<usize>) -> &[u8]
        ensures { result.now ≡ part self.now.buf places.start (places.end - places.start) }
    {
        bytes::part_of(
            &self.buf,
            places.start,
            places.end.saturating_sub(places.start),
        )
    }

    // What was read and not answered.
    fn left(&self) -> &[u8]
        ensures { result.now ≡ part self.now.buf self.now.at (self.now.end - self.now.at) }
    {
        self.part(self.at..self.end)
    }

    // One read to place `at` and behind it; answers where its bytes end. That it fails is said.
    fn read_to(&mut self, at: usize) -> io::Result<usize>
        requires { at ≤ 32768 }
        ensures { IfOk result (λ e. (at ≤ e) × (e ≤ 32768)) }
    {
        let got = self.rt.stdin().read(&mut self.buf[at..]);
        if got.is_err() {
            streams::write_all(
                &mut self.rt.stderr(),
                b"listing: reading standard input failed; the listing ends before what could not be read\n",
            );
        }
        Ok(at + got?)
    }

    // Reads until the profile is whole, or the input ends. (No more is waited for than is needed, so no whole read stands in place of the loop.)
    pub(crate) fn find_profile(&mut self) -> io::Result<()> {
        let mut end = 0;
        while framing::is_short(framing::of_profile(end, bytes::number::<2>(&self.buf))) {
            let next = self.read_to(end)?;
            if next == end {
                break;
            }
            end = next;
        }
        if let Framing::Whole(n) = framing::of_profile(end, bytes::number::<2>(&self.buf)) {
            self.keep = n;
        }
        self.at = self.keep;
        self.end = end;
        Ok(())
    }

    // How many bytes the item has that stands first in what is left, None where it is not whole; refusal 1 where its length is of no item.
    fn item_size(&self) -> Result<Option<usize>, Refusal> {
        match feeder::take(feeder::new(), self.left()) {
            Taken::Whole(n) => Ok(Some(n)),
            Taken::Unfinished => Ok(None),
            // A new feeder is not closed.
            Taken::Bad(_) | Taken::Closed => Err(Refusal::MalformedItem),
        }
    }

    // One read to BASE and behind it, which is all that is left then.
    fn read_next(&mut self) -> io::Result<()> {
        self.end = self.read_to(BASE)?;
        self.at = BASE;
        Ok(())
    }

    // Reads on behind the unfinished item that is left, until a read finishes it or the input ends. Its bytes then stand in front of that read.
    // A loop on what the feeder takes of each read, of which there is no telling beforehand: no iterator is plainer.
    fn read_on(&mut self) -> io::Result<()> {
        let mut feeder = feeder::feed(feeder::new(), self.left()).feeder;
        self.read_next()?;
        while goes_on(feeder, self.left()) {
            feeder = feeder::feed(feeder, self.left()).feeder;
            self.read_next()?;
        }
        // Tried: `Gathered::bytes`; the proof that it is no longer than BASE did not close, since its promise has no bound.
        let held = bytes::part_of(&feeder.held.bytes, 0, feeder.held.count);
        self.at = BASE - held.len();
        self.buf[self.at..BASE].copy_from_slice(held);
        Ok(())
    }

    // Where the next item stands: in what is left, or, where it is not whole there, put together from what follows in the input. None where the input ends, or a read or a write fails; refusal 1 for bytes that are no whole item.
    pub(crate) fn find_item(
        &mut self,
        output: &mut Output<'_>,
    ) -> Result<Option<Range<usize>>, Refusal> {
        let mut size = self.item_size();
        let more = size == Ok(None);
        if (more || !output.has_room()) && !output.flush() {
            return Ok(None);
        }
        if more {
            if self.read_on().is_err() {
                return Ok(None);
            }
            size = self.item_size();
        }
        match size? {
            Some(n) => {
                let at = self.at;
                // An item has 65 bytes at most: so it needs no `requires`, the sum is one that stops.
                self.at = at.saturating_add(n);
                Ok(Some(at..self.at))
            }
            None if self.left().is_empty() => Ok(None),
            None => Err(Refusal::MalformedItem),
        }
    }
}
