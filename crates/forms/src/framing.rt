// Where a form ends in a run of bytes (document 01, Forms: "Two bytes total length"). Said once, for items and profiles.
ghost use Rattle.std.specs.Prelude.{◌≡◌};
ghost use Rattle.forms.specs.Framing.{framing_of, is_short, item_framing, profile_framing};

// What a run of bytes begins with: a form that is not whole yet, a length that no form has, or a form of so many bytes.
// Three cases and no Result: a length that no form has is refusal 1 of an item and 2 of a profile, so it is no refusal yet.
#[derive(Clone, Copy)]
pub enum Framing {
    Short,
    Bad,
    Whole(usize),
}

pub fn is_short(f: Framing) -> bool
    ensures { result ≡ is_short f }
{
    matches!(f, Framing::Short)
}

// `total` bytes whose first two are the number n, where forms have low..high bytes.
#[tactic(auto, unfolding(crate::specs::Framing::framing_of))]
fn of_form(low: usize, high: usize, total: usize, n: usize) -> Framing
    ensures { result ≡ framing_of low high total n }
{
    if total < 2 {
        return Framing::Short;
    }
    if n < low || high < n {
        return Framing::Bad;
    }
    if total < n {
        return Framing::Short;
    }
    Framing::Whole(n)
}

// Two names of one function: the bounds of each form, said once.
pub fn of_item(total: usize, n: usize) -> Framing
    ensures { result ≡ item_framing total n }
{
    of_form(14, 65, total, n)
}

pub fn of_profile(total: usize, n: usize) -> Framing
    ensures { result ≡ profile_framing total n }
{
    of_form(10, 188, total, n)
}
