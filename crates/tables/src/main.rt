// A test program: tables as bytes on standard input, damaged ones and such as no run reaches, each with one item, which goes through the public `feed`.
// A case: its length (2 bytes, themselves included), the number of slots n (0..100), n slots (form.rt), the length of a profile (1 byte) and the profile, and the item's bytes to the end.
// Each case is answered by the item's line of a listing, with the case's number, and by the n slots as they are then.
#![tactic(auto)]

ghost use Rattle.std.specs.Prelude.{◌≡◌, ◌≤◌, length};

mod form;

use call::answers::Answer;
use forms::bytes;
use std::io::{Stdin, Stdout};
use table::slot::Slot;
use table::{feed, line, slot};

const MOST: usize = 100;

// What a case holds, in its bytes.
#[derive(Clone, Copy)]
pub struct Case<'a> {
    pub count: usize,
    pub slots: &'a [u8],
    pub profile: &'a [u8],
    pub item: &'a [u8],
}

// Where a case is cut short, zeros stand in place of the bytes that lack.
fn case_in(s: &[u8]) -> Case<'_>
    ensures { result.count ≤ 100 }
{
    let count = usize::from(bytes::at(s, 2)).min(MOST);
    let tail = bytes::from(s, 3 + count * form::SIZE);
    let length = usize::from(bytes::at(tail, 0));
    Case {
        count,
        slots: bytes::from(s, 3),
        profile: bytes::part_of(tail, 1, length),
        item: bytes::from(tail, 1 + length),
    }
}

// Stores the line and the slots; answers how many bytes that is.
fn put_answer(d: &mut [u8; 65536], number: u64, answer: Answer, slots: &[Slot]) -> usize
    requires { length slots.now ≤ 100 }
    ensures { result ≤ 65536 }
{
    let end = line::line(d, 0, number, answer).unwrap_or(0);
    for (place, slot) in d[end..].as_chunks_mut().0.iter_mut().zip(slots) {
        *place = form::form_of(*slot);
    }
    end + slots.len() * form::SIZE
}

// Lends the first n slots, of as many as any case may need, and answers the case.
fn answer_case(s: &[u8], d: &mut [u8; 65536], number: u64) -> usize
    ensures { result ≤ 65536 }
{
    let case = case_in(s);
    let mut places = [slot::blank_slot(); MOST];
    let slots = &mut places[..case.count];
    for (i, slot) in slots.iter_mut().enumerate() {
        *slot = form::slot_of(bytes::from(case.slots, i * form::SIZE));
    }
    let answer = feed::feed(slots, case.item, case.profile);
    put_answer(d, number, answer, slots)
}

fn run(from: &mut Stdin, out: &mut Stdout, s: &mut [u8], d: &mut [u8; 65536]) {
    for number in 1..=u64::MAX {
        let Some(case) = streams::read_case(from, 2, s) else {
            return;
        };
        let n = answer_case(case, d, number);
        streams::write_all(out, &d[..n]);
    }
}

fn main(rt: HostRuntime) {
    let mut input = streams::large_buffer();
    let mut output = streams::large_buffer();
    run(&mut rt.stdin(), &mut rt.stdout(), &mut input, &mut output);
}
