// What the layer `forms` answers to the bytes of a vector, as text.
// A write that fails goes unsaid, and what follows it is tried all the same: the output then lacks a part, and the comparison finds it.
use forms::item::{Bcsm, Body, Entry, Item};
use forms::profile::ProfileView;
use forms::refusal::Refusal;
use forms::{bytes, item, profile, write};
use std::io::Stdout;
use streams::{write_all, write_field};

// The kind's number: that of the body read, not of the byte it was read from. Document 01's numbers, once more: those of `forms` are its own.
// Kept, a number for each variant by hand: `as` has none for variants with fields, and this program is there to compare with what `forms` says.
fn kind_of(body: Body) -> u8 {
    match body {
        Body::Setup(s) => match s.bcsm {
            Bcsm::Originating => 1,
            Bcsm::Terminating => 11,
        },
        Body::RouteFailure(_) => 2,
        Body::Busy(_) => 3,
        Body::NoAnswer => 4,
        Body::Seized => 5,
        Body::Answer => 6,
        Body::MidCall(_) => 7,
        Body::Moved => 8,
        Body::Clear(_, _) => 9,
        Body::PeriodOver(_) => 10,
        Body::RequestReport(_) => 20,
        Body::Continue => 21,
        Body::Connect(_, _) => 22,
        Body::Release => 23,
        Body::ApplyCharging(_, _) => 24,
        Body::ActivityTest => 25,
        Body::Abort => 26,
    }
}

// ` POINT/LEG/MODE/TIMER`.
fn show_entry(out: &mut Stdout, e: Entry) {
    write_field(out, b" ", u64::from(e.point));
    write_field(out, b"/", u64::from(e.leg));
    write_field(out, b"/", u64::from(e.mode));
    write_field(out, b"/", u64::from(e.timer.0));
}

// How many entries the body has: none where it is no Request report.
fn entries_of(body: Body) -> u8 {
    match body {
        Body::RequestReport(count) => count,
        _ => 0,
    }
}

// The item, written over bytes 0xEE, gives the bytes s that it was read from, and leaves those after them as they were.
// There is always one after them: a vector has 256 bytes at most.
fn is_same(item: Item, rest: &[u8], s: &[u8]) -> bool {
    let mut d = [0xEEu8; 257];
    match write::write_item(item, rest, &mut d) {
        Ok(n) => n == s.len()
            && bytes::leads(s, &d)
            && bytes::from(&d, n).iter().all(|b| *b == 0xEE),
        Err(_) => false,
    }
}

// The item read from s, whose digits or entries, of which it shows the entries, begin at place `at`.
// Writing is the inverse of reading: ` DIFFERS` is always a fault.
fn show_fields(out: &mut Stdout, item: Item, at: usize, s: &[u8]) {
    let rest = bytes::from(s, at);
    write_field(out, b"item ", u64::from(kind_of(item.body)));
    write_field(out, b" call ", u64::from(item.call));
    write_field(out, b" time ", item.time.0);
    write_field(out, b" at ", at as u64);
    write_field(out, b" rest ", rest.len() as u64);
    for i in 0..entries_of(item.body) {
        show_entry(out, item::nth_entry(rest, i));
    }
    if is_same(item, rest, s) {
        write_all(out, b" same");
    } else {
        write_all(out, b" DIFFERS");
    }
}

// Items and profiles are refused alike, by a number.
fn show_refused(out: &mut Stdout, r: Refusal) {
    write_field(out, b"refused ", u64::from(r.number()));
}

// The item that the bytes are, or the refusal.
pub(crate) fn show_item(out: &mut Stdout, s: &[u8]) {
    match item::read_item(s) {
        Ok((item, at)) => show_fields(out, item, at, s),
        Err(r) => show_refused(out, r),
    }
}

// The profile read from s. Its lists stand in s. A choice's number is its place among the choices.
fn show_view(out: &mut Stdout, p: ProfileView, s: &[u8]) {
    let lengths = profile::list_at(s, p.lengths);
    let services = profile::list_at(s, p.services);
    write_field(out, b"profile handling ", p.handling as u64);
    write_field(out, b" timer ", u64::from(p.timer.0));
    write_field(out, b" sense ", p.sense as u64);
    write_field(out, b" lengths ", lengths.len() as u64);
    write_field(out, b" services ", services.len() as u64);
    write_field(out, b" forwarding ", p.forwarding as u64);
}

// The profile that the bytes are, or the refusal.
pub(crate) fn show_profile(out: &mut Stdout, s: &[u8]) {
    match profile::read_profile(s) {
        Ok(p) => show_view(out, p, s),
        Err(r) => show_refused(out, r),
    }
}
