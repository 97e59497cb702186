// A benchmark program: items fed over and over to one table, by the public `feed` or by `feed_sound`; or trigger checks (trigger.rt).
// Standard input: what to do (1 byte), how often (4 bytes), a profile, and items to the end, after the last of which comes the first again; at most 65536 bytes.
// 0 `feed`, 1 `feed_sound`: writes how many items were fed and how many of them were refused.
// 2 trigger checks with the last digit first, any other number from the front; the items are Setups: writes how many checks were made, in how many a stored number matched, and how many digit pairs were compared.
#![tactic(auto)]

mod trigger;

use call::answers::Answer;
use forms::comparison::Comparison;
use forms::{bytes, comparison};
use std::io::Stdout;
use streams::{write_all, write_decimal, write_field};
use table::{feed, slot};
use trigger::Checked;

const FEED: u8 = 0;

const FEED_SOUND: u8 = 1;

const LAST_FIRST: u8 = 2;

// The profile stands behind the five bytes of the head.
const HEAD: usize = 5;

// The bytes of a form, which begins with its length, at the start of s.
fn form_in(s: &[u8]) -> &[u8] {
    bytes::part_of(s, 0, bytes::number::<2>(s))
}

// What to feed, and how often: the items still to come before the first one comes again are `rest`.
#[derive(Clone, Copy)]
pub struct Input<'a> {
    pub profile: &'a [u8],
    pub items: &'a [u8],
    pub rest: &'a [u8],
    pub total: usize,
}

impl<'a> Input<'a> {
    fn new(buf: &'a [u8]) -> Input<'a> {
        let profile = form_in(bytes::from(buf, HEAD));
        let items = bytes::from(buf, HEAD + bytes::number::<2>(bytes::from(buf, HEAD)));
        Input {
            profile,
            items,
            rest: items,
            total: bytes::number::<4>(bytes::from(buf, 1)),
        }
    }

    // The next item.
    fn next_item(&mut self) -> &'a [u8] {
        let item = form_in(self.rest);
        self.rest = bytes::from(self.rest, bytes::number::<2>(self.rest));
        if self.rest.is_empty() {
            self.rest = self.items;
        }
        item
    }
}

// How many of the items are refused.
fn count_refused<F: FnMut(&[u8]) -> Answer>(mut input: Input<'_>, mut feed: F) -> u64
    requires { F.IsAlwaysCallable feed }
{
    let mut refused: u64 = 0;
    for _ in 0..input.total {
        if feed(input.next_item()).is_err() {
            refused = refused.saturating_add(1);
        }
    }
    refused
}

// The sums of all checks.
fn check_all<F: Fn(&[u8], &[u8]) -> Comparison>(mut input: Input<'_>, compare: F) -> Checked
    requires { F.IsAlwaysCallable compare }
{
    let mut all = Checked {
        matched: 0,
        pairs: 0,
    };
    for _ in 0..input.total {
        let c = trigger::check(input.profile, input.next_item(), &compare);
        all.matched = all.matched.saturating_add(c.matched);
        all.pairs = all.pairs.saturating_add(c.pairs);
    }
    all
}

fn write_checked(out: &mut Stdout, c: Checked) {
    write_field(out, b" ", c.matched as u64);
    write_field(out, b" ", c.pairs as u64);
}

// The table is fresh, and so sound, and stays so. How many there are to be is written first, before any of them.
// A write that fails goes unsaid, and what follows it is tried all the same: the output then lacks a part.
fn report(out: &mut Stdout, buf: &[u8]) {
    let input = Input::new(buf);
    let mut slots = slot::fresh();
    write_decimal(out, input.total as u64);
    match bytes::at(buf, 0) {
        FEED => {
            let refused = count_refused(input, |item| feed::feed(&mut slots, item, input.profile));
            write_field(out, b" ", refused);
        }
        FEED_SOUND => {
            let refused = count_refused(
                input,
                |item| feed::feed_sound(&mut slots, item, input.profile),
            );
            write_field(out, b" ", refused);
        }
        LAST_FIRST => write_checked(out, check_all(input, comparison::compare)),
        _ => write_checked(out, check_all(input, trigger::compare_from_the_front)),
    }
    write_all(out, b"\n");
}

fn main(rt: HostRuntime) {
    let mut buf = streams::large_buffer();
    let n = streams::read_full(&mut rt.stdin(), &mut buf);
    report(&mut rt.stdout(), &buf[..n]);
}
