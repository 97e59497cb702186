// Items that arrive in bits (document 02, T-02): a feeder gathers the bytes of chunks of any size, and hands out each item once it is whole.
ghost use Rattle.std.specs.Prelude.{◌≡◌, ◌++◌, [], ◌+◌, ◌≤◌, length, get_or};
ghost use Rattle.forms.specs.Feeder.{bytes_of, gathered, holding, new_feeder, stopped_feeder, begins, closed_as, taken_as, take_of, whole_fed, fed_as, feed_of, reset_of};

use crate::framing::Framing;
use crate::item::Item;
use crate::refusal::Refusal;
use crate::{bytes, framing, item};

// The first `count` of the bytes. Those behind them mean nothing, and are zeros in what is handed out.
// A buffer with a length beside it: no heap; and feeders come from outside with any count, past 65 too (`Cases.closed_refused`, the program `chunks`), so no slice and no invariant.
#[derive(Clone, Copy)]
pub struct Gathered {
    pub bytes: [u8; 65],
    pub count: usize,
}

impl Gathered {
    // The bytes that are held, without the zeros.
    pub fn bytes(&self) -> &[u8]
        ensures { result.now ≡ bytes_of self.now }
    {
        bytes::part_of(&self.bytes, 0, self.count)
    }
}

// The bytes of the unfinished item, and whether a length field has stopped the feeder.
// A flag beside a value: feeders come from outside in any state, a stopped one that holds bytes too (`Cases.closed_refused`), and `feed` hands it back unchanged.
#[derive(Clone, Copy)]
pub struct Feeder {
    pub held: Gathered,
    pub stopped: bool,
}

// What a feeder takes of a chunk, before anything is read.
// Four cases and no Result: `Bad` has a count of bytes beside it.
#[derive(Clone, Copy)]
pub enum Taken {
    // Refusal 15: nothing is taken.
    Closed,
    // A length field outside 14..65 is complete with so many bytes of the chunk.
    Bad(usize),
    // The item is not whole: all of the chunk is taken.
    Unfinished,
    // The item is whole with so many bytes of the chunk.
    Whole(usize),
}

// An item that is handed out, the place of its digits or entries in its bytes, and its bytes.
#[derive(Clone, Copy)]
pub struct Handed {
    pub item: Item,
    pub at: usize,
    pub bytes: Gathered,
}

// The next feeder, how many bytes of the chunk were used, and what was completed.
// Completed is an item; none, where all of the chunk was used and no item is whole; or refusal 1 or 15.
#[derive(Clone, Copy)]
pub struct Fed {
    pub feeder: Feeder,
    pub used: usize,
    pub completed: Result<Option<Handed>, Refusal>,
}

// The next feeder, and how many bytes were dropped.
#[derive(Clone, Copy)]
pub struct Dropped {
    pub feeder: Feeder,
    pub count: usize,
}

// The bytes h and c, one behind the other.
// Two runs that lie apart, here and in `byte_at`, `begin` and `complete`: a struct of two slices would be made anew for each.
fn join(h: &[u8], c: &[u8]) -> Gathered
    requires { length h.now + length c.now ≤ 65 }
    ensures { result ≡ gathered (h.now ++ c.now) }
{
    let mut bytes = [0u8; 65];
    bytes::copy_in(&mut bytes, 0, h);
    bytes::copy_in(&mut bytes, h.len(), c);
    let count = h.len() + c.len();
    Gathered { bytes, count }
}

// No bytes.
fn nothing() -> Gathered
    ensures { result ≡ gathered [] }
{
    Gathered {
        bytes: [0u8; 65],
        count: 0,
    }
}

// Feeders: one that holds the bytes of an unfinished item; one as new; one that a length field has stopped.
fn hold(held: Gathered) -> Feeder
    ensures { result ≡ holding held }
{
    Feeder {
        held,
        stopped: false,
    }
}

pub fn new() -> Feeder
    ensures { result ≡ new_feeder }
{
    hold(nothing())
}

fn stopped() -> Feeder
    ensures { result ≡ stopped_feeder }
{
    Feeder {
        held: nothing(),
        stopped: true,
    }
}

// The byte at place i of h and c, one behind the other; 0 past the end.
fn byte_at(h: &[u8], c: &[u8], i: usize) -> u8
    ensures { result ≡ get_or (h.now ++ c.now) i 0 }
{
    if i < h.len() {
        h[i]
    } else {
        bytes::at(c, i - h.len())
    }
}

// What the bytes h and c, one behind the other, begin with.
fn begin(h: &[u8], c: &[u8]) -> Framing
    ensures { result ≡ begins (h.now ++ c.now) }
{
    let n = usize::from(byte_at(h, c, 0)) * 256 + usize::from(byte_at(h, c, 1));
    framing::of_item(h.len() + c.len(), n)
}

// Refusal 15, of a feeder that holds h.
fn is_closed(stopped: bool, h: &[u8]) -> bool
    ensures { result ≡ closed_as stopped h.now }
{
    stopped | !framing::is_short(framing::of_item(h.len(), bytes::number::<2>(h)))
}

// What is taken of a chunk behind the bytes h.
fn take_on(f: Framing, h: &[u8]) -> Taken
    ensures { result ≡ taken_as f h.now }
{
    match f {
        Framing::Short => Taken::Unfinished,
        Framing::Bad => Taken::Bad(2usize.saturating_sub(h.len())),
        Framing::Whole(n) => Taken::Whole(n.saturating_sub(h.len())),
    }
}

// What the feeder takes of the chunk: `feed` without reading, for an owner who hands the item's bytes on to be read there.
#[tactic(auto, unfolding(crate::specs::Feeder::take_of, crate::specs::Feeder::is_closed))]
pub fn take(f: Feeder, chunk: &[u8]) -> Taken
    ensures { result ≡ take_of f chunk.now }
{
    let h = f.held.bytes();
    if is_closed(f.stopped, h) {
        Taken::Closed
    } else {
        take_on(begin(h, chunk), h)
    }
}

// The whole item that is the bytes h and c, one behind the other; n of them are the chunk's.
fn complete(h: &[u8], c: &[u8], n: usize) -> Fed
    requires { length h.now + length c.now ≤ 65 }
    ensures { result ≡ whole_fed n (h.now ++ c.now) }
{
    let g = join(h, c);
    let read = item::read_item(g.bytes());
    Fed {
        feeder: new(),
        used: n,
        completed: read.map(|(item, at)| Some(Handed { item, at, bytes: g })),
    }
}

// The next feeder and what is answered, where so much is taken of the chunk.
fn feed_on(t: Taken, f: Feeder, chunk: &[u8]) -> Fed
    requires { t ≡ take_of f chunk.now }
    ensures { result ≡ fed_as t f chunk.now }
{
    let h = f.held.bytes();
    match t {
        Taken::Closed => Fed {
            feeder: f,
            used: 0,
            completed: Err(Refusal::FeederClosed),
        },
        Taken::Bad(n) => Fed {
            feeder: stopped(),
            used: n,
            completed: Err(Refusal::MalformedItem),
        },
        Taken::Unfinished => Fed {
            feeder: hold(join(h, chunk)),
            used: chunk.len(),
            completed: Ok(None),
        },
        Taken::Whole(n) => complete(h, bytes::part_of(chunk, 0, n), n),
    }
}

// A chunk for the feeder: an item, refusal 1, the chunk used up, or refusal 15.
#[tactic(auto, unfolding(crate::specs::Feeder::feed_of))]
pub fn feed(f: Feeder, chunk: &[u8]) -> Fed
    ensures { result ≡ feed_of f chunk.now }
{
    feed_on(take(f, chunk), f, chunk)
}

// Drops the unfinished item.
#[tactic(auto, unfolding(crate::specs::Feeder::reset_of, crate::specs::Feeder::is_closed))]
pub fn reset(f: Feeder) -> Dropped
    ensures { result ≡ reset_of f }
{
    let h = f.held.bytes();
    let feeder = new();
    if is_closed(f.stopped, h) {
        Dropped { feeder, count: 0 }
    } else {
        Dropped {
            feeder,
            count: h.len(),
        }
    }
}
