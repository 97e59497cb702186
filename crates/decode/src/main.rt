// Runs the layer `forms` on test vectors: text in, one line out for each line in.
// `# ..` and an empty line come out as they are; `item HEX` and `profile HEX` give what was read, or the refusal; any other line gives `?`.
#![tactic(auto)]

mod show;

use forms::bytes;
use std::io::Stdout;
use streams::write_all;

// The byte of two hexadecimal digits.
fn byte_of(digits: [u8; 2]) -> Option<u8> {
    let mut byte = [0u8];
    hex::decode_to_slice(digits.as_slice(), &mut byte).ok()?;
    Some(byte[0])
}

// Stores the bytes that t stands for at the start of d, and answers them: pairs of hexadecimal digits, with blanks between pairs. None where it is of another form, and where d is too short.
// (Pair by pair: to search for each blank takes a third more instructions on a long line of pairs with blanks between.)
fn unhex<'d>(t: &[u8], d: &'d mut [u8]) -> Option<&'d [u8]> {
    let mut n = 0;
    let mut rest = t;
    while let [first, after @ ..] = rest {
        if *first == b' ' {
            rest = after;
            continue;
        }
        let [second, after @ ..] = after else {
            return None;
        };
        *d.get_mut(n)? = byte_of([*first, *second])?;
        n += 1;
        rest = after;
    }
    d.get(..n)
}

// The answer to a vector whose digits are t: each form has its own reader.
fn show_vector<F: Fn(&mut Stdout, &[u8])>(out: &mut Stdout, t: &[u8], show: F)
    requires { F.IsAlwaysCallable show }
{
    let mut d = [0u8; 256];
    match unhex(t, &mut d) {
        Some(s) => show(out, s),
        None => {
            write_all(out, b"?");
        }
    }
}

// One line out for one line in, whatever it holds. A line goes by how it begins.
fn show_line(out: &mut Stdout, t: &[u8]) {
    if t.is_empty() || bytes::leads(b"#", t) {
        write_all(out, t);
    } else if bytes::leads(b"item", t) {
        show_vector(out, bytes::from(t, 4), show::show_item);
    } else if bytes::leads(b"profile", t) {
        show_vector(out, bytes::from(t, 7), show::show_profile);
    } else {
        write_all(out, b"?");
    }
    write_all(out, b"\n");
}

// Each line in its turn. The last one need not end in a line feed.
fn show_lines(out: &mut Stdout, t: &[u8]) {
    for line in t.split_inclusive(|c| *c == b'\n') {
        match line {
            [line @ .., b'\n'] => show_line(out, line),
            _ => show_line(out, line),
        }
    }
}

// At most one large buffer of input is read; what is beyond it is left.
fn main(rt: HostRuntime) {
    let mut text = streams::large_buffer();
    let n = streams::read_full(&mut rt.stdin(), &mut text);
    show_lines(&mut rt.stdout(), &text[..n]);
}
