// A test program: feeders as bytes on standard input, damaged ones too, each with chunks and resets, which go through the public `feed` and `reset`.
// A case: its length (2 bytes, themselves included); a feeder, 65 bytes, its count (8) and whether it is stopped (1 byte, 0 if not); and steps to the case's end.
// A step is a number of 2 bytes: 65535 for a reset, any other for a chunk of so many bytes, which follow.
// Each case is answered by a line with its number, and each call by a line (show.rt). After an item and after an answer 1 the chunk's rest is offered again.
#![tactic(auto)]

mod show;

ghost use Rattle.std.specs.Prelude.{◌≤◌, length};

use forms::feeder::{Fed, Feeder, Gathered};
use forms::refusal::Refusal;
use forms::{bytes, feeder};
use std::io::{Stdin, Stdout};

// The length of a case without steps.
const HEAD: usize = 76;

const RESET: u16 = 65535;

// The feeder that a case hands in.
fn feeder_of(s: &[u8]) -> Feeder
    requires { 76 ≤ length s.now }
{
    Feeder {
        held: Gathered {
            bytes: *s[2..].first_chunk().unwrap(),
            count: usize::from_be_bytes(*s[67..].first_chunk().unwrap()),
        },
        stopped: s[75] != 0,
    }
}

// An item or an answer 1: the rest is offered again.
fn is_answer(fed: Fed) -> bool {
    matches!(fed.completed, Ok(Some(_)) | Err(Refusal::MalformedItem))
}

// Feeds a chunk, and offers its rest again. As every answer uses a byte, one call more than it has bytes is enough.
fn feed_chunk(out: &mut Stdout, f: Feeder, c: &[u8]) -> Feeder {
    let mut feeder = f;
    let mut rest = c;
    for _ in 0..=c.len() {
        let fed = feeder::feed(feeder, rest);
        show::show_fed(out, fed);
        feeder = fed.feeder;
        if !is_answer(fed) {
            break;
        }
        rest = bytes::from(rest, fed.used);
    }
    feeder
}

fn reset(out: &mut Stdout, f: Feeder) -> Feeder {
    let d = feeder::reset(f);
    show::show_dropped(out, d);
    d.feeder
}

// The steps t of a case, one after the other.
fn run_steps(out: &mut Stdout, f: Feeder, t: &[u8]) {
    let mut feeder = f;
    let mut rest = t;
    while let Some((number, after)) = rest.split_first_chunk() {
        let n = u16::from_be_bytes(*number);
        if n == RESET {
            feeder = reset(out, feeder);
            rest = after;
        } else {
            feeder = feed_chunk(out, feeder, bytes::part_of(after, 0, usize::from(n)));
            rest = bytes::from(after, usize::from(n));
        }
    }
}

fn run(from: &mut Stdin, out: &mut Stdout, s: &mut [u8]) {
    for number in 1..=u64::MAX {
        let Some(t) = streams::read_case(from, HEAD, s) else {
            return;
        };
        show::show_case(out, number);
        run_steps(out, feeder_of(t), &t[HEAD..]);
    }
}

fn main(rt: HostRuntime) {
    let mut input = streams::large_buffer();
    run(&mut rt.stdin(), &mut rt.stdout(), &mut input);
}
