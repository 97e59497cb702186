// Trigger checks: a Setup's dialled number against the stored numbers of a profile, with the digit pairs that are compared.
// Digits are compared by the engine's comparison, the last one first (document 02, T-03), or all from the front: the old order with the new count, so that nothing but the order differs.
use forms::comparison::Comparison;
use forms::{bytes, profile};

// Where a Setup has its nature, and its digit count with the digits behind it.
const NATURE: usize = 14;

const DIALLED: usize = 17;

// Where a profile has its number count, and the first number.
const COUNT: usize = 6;

const FIRST: usize = 7;

// Of one check or of several: in how many a stored number matched, and how many digit pairs were compared.
#[derive(Clone, Copy)]
pub struct Checked {
    pub matched: usize,
    pub pairs: usize,
}

pub(crate) fn compare_from_the_front(stored: &[u8], dialled: &[u8]) -> Comparison {
    if dialled.len() < stored.len() {
        return Comparison {
            leads: false,
            pairs: 0,
        };
    }
    match stored.iter().zip(dialled).position(|(a, b)| a != b) {
        Some(i) => Comparison {
            leads: false,
            pairs: i + 1,
        },
        None => Comparison {
            leads: true,
            pairs: stored.len(),
        },
    }
}

// The stored numbers in their order, until one matches. Where a stored number's nature is another one, no digits are compared.
pub(crate) fn check<F: Fn(&[u8], &[u8]) -> Comparison>(
    profile: &[u8],
    setup: &[u8],
    compare: F,
) -> Checked
    requires { F.IsAlwaysCallable compare }
{
    let nature = bytes::at(setup, NATURE);
    let dialled = profile::list_at(setup, DIALLED);
    let mut rest = bytes::from(profile, FIRST);
    let mut pairs: usize = 0;
    for _ in 0..bytes::at(profile, COUNT) {
        if bytes::at(rest, 0) == nature {
            let c = compare(profile::list_at(rest, 1), dialled);
            pairs = pairs.saturating_add(c.pairs);
            if c.leads {
                return Checked { matched: 1, pairs };
            }
        }
        rest = bytes::from(rest, 2 + usize::from(bytes::at(rest, 1)));
    }
    Checked { matched: 0, pairs }
}
