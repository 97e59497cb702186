// The fields' ranges, each said once (document 01, Forms), and the frame around every form.
ghost use Rattle.std.specs.Prelude.{◌≡◌, length};
ghost use Rattle.forms.specs.Bytes.{all, leads};
ghost use Rattle.forms.specs.Fields.{nature, digit_count, is_digit_count, is_digit, cause, entry_count, frame};

use crate::bytes;

// The largest values.
const NATURE: u8 = 127;

pub const MOST_DIGITS: u8 = 15;

pub const DIGIT: u8 = 14;

const CAUSE: u8 = 127;

const ENTRIES: u8 = 10;

pub fn is_nature(n: u8) -> bool
    ensures { result ≡ (nature n).in_range }
{
    bytes::is_within(n, 0, NATURE)
}

pub fn is_digit_count(n: usize) -> bool
    ensures { result ≡ (digit_count n).in_range }
{
    (1 <= n) & (n <= MOST_DIGITS as usize)
}

// Each byte is a digit count; below, each is a digit: two names of one function, so that each range is said once.
pub(crate) fn are_digit_counts(s: &[u8]) -> bool
    ensures { result ≡ all is_digit_count s.now }
{
    bytes::all_within(s, 1, MOST_DIGITS)
}

pub(crate) fn is_digit(d: u8) -> bool
    ensures { result ≡ is_digit d }
{
    bytes::is_within(d, 0, DIGIT)
}

// Each byte is a digit.
pub(crate) fn are_digits(s: &[u8]) -> bool
    ensures { result ≡ all is_digit s.now }
{
    bytes::all_within(s, 0, DIGIT)
}

pub(crate) fn is_cause(n: u8) -> bool
    ensures { result ≡ (cause n).in_range }
{
    bytes::is_within(n, 0, CAUSE)
}

pub(crate) fn is_entry_count(n: u8) -> bool
    ensures { result ≡ (entry_count n).in_range }
{
    bytes::is_within(n, 1, ENTRIES)
}

// The bytes begin with their own length and version 1.
pub(crate) fn is_framed(s: &[u8]) -> bool
    ensures { result ≡ leads (frame (length s.now)) s.now }
{
    let n = s.len().to_be_bytes();
    bytes::leads(&[n[6], n[7], 1], s)
}
