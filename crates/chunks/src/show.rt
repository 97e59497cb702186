// The lines of the answers, on standard output:
//   fed USED item HEX left LEFT, fed USED refused NUMBER left LEFT, fed USED used-up left LEFT, reset DROPPED left LEFT
// LEFT is the feeder afterwards: its count, the bytes that it holds, if any, and whether it is stopped.
// A write that fails goes unsaid, and what follows it is tried all the same: the output then lacks a part, and the comparison finds it.
use forms::feeder::{Dropped, Fed, Feeder, Gathered};
use std::io::Stdout;
use streams::{write_all, write_field};

// Two digits a byte.
fn put_bytes(out: &mut Stdout, g: Gathered) {
    let mut digits = [0u8; 130];
    let bytes = g.bytes();
    let text = &mut digits[..2 * bytes.len()];
    hex::encode_to_slice(bytes, text).unwrap();
    write_all(out, text);
}

fn put_left(out: &mut Stdout, f: Feeder) {
    write_field(out, b" left ", f.held.count as u64);
    if 0 < f.held.count {
        write_all(out, b" ");
        put_bytes(out, f.held);
    }
    if f.stopped {
        write_all(out, b" stopped");
    }
    write_all(out, b"\n");
}

pub(crate) fn show_fed(out: &mut Stdout, fed: Fed) {
    write_field(out, b"fed ", fed.used as u64);
    match fed.completed {
        Ok(Some(handed)) => {
            write_all(out, b" item ");
            put_bytes(out, handed.bytes);
        }
        Ok(None) => {
            write_all(out, b" used-up");
        }
        Err(r) => {
            write_field(out, b" refused ", u64::from(r.number()));
        }
    }
    put_left(out, fed.feeder);
}

pub(crate) fn show_dropped(out: &mut Stdout, d: Dropped) {
    write_field(out, b"reset ", d.count as u64);
    put_left(out, d.feeder);
}

pub(crate) fn show_case(out: &mut Stdout, number: u64) {
    write_field(out, b"case ", number);
    write_all(out, b"\n");
}
