// The digit comparison of a trigger check: a stored number with the dialled one, the last digit first, since the numbers of an operator's list share their prefixes (document 02, T-03).
ghost use Rattle.std.specs.Prelude.{◌≡◌, ◌<◌, length};
ghost use Rattle.forms.specs.Comparison.{pairs_of, compare_on, comparison};

// Whether the stored digits lead the dialled number, and how many digit pairs were compared to tell.
// A flag beside a value: the count stands in both cases (document 02, T-03), so the flag says nothing about it.
#[derive(Clone, Copy)]
pub struct Comparison {
    pub leads: bool,
    pub pairs: usize,
}

// The pairs from the front, when one was compared and agreed: the last, which stands behind these.
fn compare_front(stored: &[u8], dialled: &[u8]) -> Comparison
    requires { length stored.now < length dialled.now }
    ensures { result ≡ compare_on 1 (pairs_of stored.now dialled.now) }
{
    match stored.iter().zip(dialled).position(|(a, b)| a != b) {
        Some(i) => Comparison {
            leads: false,
            pairs: i + 2,
        },
        None => Comparison {
            leads: true,
            pairs: stored.len() + 1,
        },
    }
}

// No pair if the dialled number is shorter, else the last, and while all agree those from the front.
#[tactic(auto, using(crate::proofs::ComparisonLaws::shorter, crate::proofs::ComparisonLaws::no_digits, crate::proofs::ComparisonLaws::last_differs, crate::proofs::ComparisonLaws::last_agrees))]
pub fn compare(stored: &[u8], dialled: &[u8]) -> Comparison
    ensures { result ≡ comparison stored.now dialled.now }
{
    let n = stored.len();
    if dialled.len() < n {
        return Comparison {
            leads: false,
            pairs: 0,
        };
    }
    if n == 0 {
        return Comparison {
            leads: true,
            pairs: n,
        };
    }
    let last = n - 1;
    if stored[last] != dialled[last] {
        return Comparison {
            leads: false,
            pairs: 1,
        };
    }
    compare_front(&stored[..last], dialled)
}
