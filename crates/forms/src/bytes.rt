// Lent byte runs: reading never leaves them, whatever the place. Numbers are big-endian (document 01, Forms).
ghost use Rattle.std.specs.Prelude.{◌≡◌, ◌+◌, ◌^◌, ◌<◌, ◌≤◌, min, length, get_or, drop};
ghost use Rattle.std.proofs.lemmas.List.Edits.{sets};
ghost use Rattle.forms.specs.Bytes.{from_bytes, part, within, all, contains, leads};

// The byte at `i`, 0 past the end.
pub fn at(s: &[u8], i: usize) -> u8
    ensures { result ≡ get_or s.now i 0 }
{
    if i < s.len() { s[i] } else { 0 }
}

// What follows the first `a` bytes, nothing where there are fewer.
pub fn from(s: &[u8], a: usize) -> &[u8]
    ensures { result.now ≡ drop a s.now }
{
    if a <= s.len() { &s[a..] } else { &s[..0] }
}

// The n bytes from place a on, fewer where there are fewer.
pub fn part_of(s: &[u8], a: usize, n: usize) -> &[u8]
    ensures { result.now ≡ part s.now a n }
{
    let t = from(s, a);
    if n <= t.len() { &t[..n] } else { t }
}

// The number that the first W bytes are, or the first 8 where W is more.
pub fn number<const W: usize>(s: &[u8]) -> usize
    ensures { (result ≡ from_bytes (min W 8) s.now) × (result < 256 ^ min W 8) }
{
    let mut n = 0;
    for i in 0..W.min(8) {
        n = n * 256 + usize::from(at(s, i));
    }
    n
}

pub(crate) fn is_within(n: u8, low: u8, high: u8) -> bool
    ensures { result ≡ within low high n }
{
    (low <= n) & (n <= high)
}

// Each byte is in low..high.
pub(crate) fn all_within(s: &[u8], low: u8, high: u8) -> bool
    ensures { result ≡ all (within low high) s.now }
{
    s.iter().all(|&b| is_within(b, low, high))
}

// Some byte is x. Kept beside std's method: it says what that answers in the words of specs/, so that no caller needs a lemma.
pub fn contains(t: &[u8], x: u8) -> bool
    ensures { result ≡ contains x t.now }
{
    t.contains(&x)
}

// The bytes of `a` are the leading bytes of `d`. Kept beside std's method for the same reason.
pub fn leads(a: &[u8], d: &[u8]) -> bool
    ensures { result ≡ leads a.now d.now }
{
    d.starts_with(a)
}

// Stores the bytes of `s` in `d`, from place `at` on. Kept beside std's method for the same reason.
pub fn copy_in(d: &mut [u8], at: usize, s: &[u8])
    requires { at + length s.now ≤ length d.old }
    ensures { d.new ≡ sets d.old at s.now }
{
    d[at..at + s.len()].copy_from_slice(s);
}
