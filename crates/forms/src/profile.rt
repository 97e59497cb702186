// Profiles: reading, and what triggering asks of one (document 01, Forms and Triggering). The lists stay in the lent bytes.
ghost use Rattle.std.specs.Prelude.{◌≡◌, [], ◌∷◌, ◌+◌, ◌≤◌, true, get_or, ◌==◌, IfSome};
ghost use Rattle.forms.specs.Fields.{all_in_range};
ghost use Rattle.forms.specs.Profile.{is_release, handling_of, criterion_at, number_fields, sense_in_range, list_at, list_end, number_at, numbers_at, end_in_range, view_at, view_of, profile_of, is_profile, read_profile, matches, some_matches};

use crate::refusal::Refusal;
use crate::units::Seconds;
use crate::{bytes, comparison, fields};

#[derive(Clone, Copy, PartialEq, Eq)]
pub enum Handling {
    Continue,
    Release,
}

#[derive(Clone, Copy, PartialEq, Eq)]
pub enum Criterion {
    Absent,
    Enabling,
    Inhibiting,
}

// A profile in its lent bytes: the values of its single fields, and where the lists of lengths and of services stand.
// Places and no slices: the promise of `read_profile` is an equation with a definition over plain lists, and the lists stay in the lent bytes.
#[derive(Clone, Copy)]
pub struct ProfileView {
    pub handling: Handling,
    pub timer: Seconds,
    pub sense: Criterion,
    pub lengths: usize,
    pub services: usize,
    pub forwarding: Criterion,
}

pub fn is_release(h: Handling) -> bool
    ensures { result ≡ is_release h }
{
    matches!(h, Handling::Release)
}

// The choices at their places. A byte that is no number of a choice is settled by `is_profile`: no TryFrom, which would refuse it here.
fn handling_at(s: &[u8], q: usize) -> Handling
    ensures { result ≡ handling_of (get_or s.now q 0 == 1) }
{
    match bytes::at(s, q) {
        1 => Handling::Release,
        _ => Handling::Continue,
    }
}

fn criterion_at(s: &[u8], q: usize) -> Criterion
    ensures { result ≡ criterion_at s.now q }
{
    match bytes::at(s, q) {
        1 => Criterion::Enabling,
        2 => Criterion::Inhibiting,
        _ => Criterion::Absent,
    }
}

fn sense_in_range(sense: Criterion, total: usize) -> bool
    ensures { result ≡ sense_in_range sense total }
{
    match sense {
        Criterion::Absent => total == 0,
        Criterion::Enabling => 1 <= total,
        Criterion::Inhibiting => 1 <= total,
    }
}

// The list whose count stands at place q: a part of the lent bytes.
pub fn list_at(s: &[u8], q: usize) -> &[u8]
    ensures { result.now ≡ list_at s.now q }
{
    let t = bytes::from(s, q);
    bytes::part_of(t, 1, usize::from(bytes::at(t, 0)))
}

// The place after that list. Places stay small: even 255 numbers of 255 digits end by 7 + 255 × 257 = 65542, and two lists follow them.
// The bound is a `requires` here and below, and no type: no bound on places is kept by this step, which goes on by 256.
fn list_end(s: &[u8], q: usize) -> usize
    requires { q ≤ 70000 }
    ensures { (result ≡ list_end s.now q) × (result ≤ q + 256) }
{
    q + 1 + usize::from(bytes::at(s, q))
}

// The stored number at place q is in range.
fn number_in_range(s: &[u8], q: usize) -> bool
    requires { q ≤ 70000 }
    ensures { result ≡ all_in_range (number_fields (number_at s.now q ∷ [])) }
{
    let digits = list_at(s, q + 1);
    fields::is_nature(bytes::at(s, q))
        & fields::is_digit_count(digits.len())
        & fields::are_digits(digits)
}

// The place after the stored numbers, where all of them are in range.
#[tactic(auto, using(crate::proofs::ProfileLaws::end_next, crate::proofs::ProfileLaws::end_stop, crate::proofs::ProfileLaws::end_none))]
fn numbers_end(s: &[u8]) -> Option<usize>
    ensures { (result ≡ end_in_range (get_or s.now 6 0) s.now 7) × IfSome result (λ end. end ≤ 65542) }
{
    let mut q: usize = 7;
    for _ in 0..bytes::at(s, 6) {
        if !number_in_range(s, q) {
            return None;
        }
        q = list_end(s, q + 1);
    }
    Some(q)
}

// The values at their places, the numbers ending at l.
#[tactic(auto, unfolding(crate::specs::Profile::view_at))]
fn view_at(s: &[u8], l: usize) -> ProfileView
    requires { l ≤ 65542 }
    ensures { (result ≡ view_at s.now l) × ((result.lengths ≤ 66000) × (result.services ≤ 66000)) }
{
    let v = list_end(s, l);
    let handling = handling_at(s, 3);
    let sense = criterion_at(s, 5);
    let forwarding = criterion_at(s, list_end(s, v));
    ProfileView {
        handling,
        timer: Seconds(bytes::at(s, 4) as u32),
        sense,
        lengths: l,
        services: v,
        forwarding,
    }
}

// The bytes are the profile whose view p was read from them, whose stored numbers are in range: length and version, the three choices and the end are as written, and every other field is in range.
// That p is the view of the bytes is required, as in call's `is_triggered` and `all_hold`: a struct of the two would be made for one call and taken apart in it, no plainer.
#[tactic(auto, using(crate::proofs::ProfileLaws::profile_same, crate::proofs::ProfileLaws::in_range_where_numbers), unfolding(crate::specs::Profile::is_profile))]
fn is_profile(s: &[u8], p: ProfileView) -> bool
    requires { ((p ≡ view_of s.now) × (all_in_range (number_fields (numbers_at (get_or s.now 6 0) s.now 7)) ≡ true)) × (p.services ≤ 66000) }
    ensures { result ≡ is_profile (profile_of s.now) s.now }
{
    let lengths = list_at(s, p.lengths);
    let services = list_at(s, p.services);
    let f = list_end(s, p.services);
    let n = bytes::at(s, 6);
    let written = fields::is_framed(s)
        & (bytes::at(s, 3) <= 1)
        & (bytes::at(s, 5) <= 2)
        & (bytes::at(s, f) <= 2)
        & (bytes::from(s, f).len() == 1);
    let in_range = p.timer.is_default_timer()
        & (n <= 10)
        & (lengths.len() <= 3)
        & fields::are_digit_counts(lengths)
        & (services.len() <= 5);
    written & (in_range & sense_in_range(p.sense, usize::from(n) + lengths.len()))
}

// The profile that the bytes are, or refusal 2, malformed profile.
#[tactic(auto, using(crate::proofs::ProfileLaws::no_end), unfolding(crate::specs::Profile::read_profile))]
pub fn read_profile(s: &[u8]) -> Result<ProfileView, Refusal>
    ensures { result ≡ read_profile s.now }
{
    let end = numbers_end(s).ok_or(Refusal::MalformedProfile)?;
    let p = view_at(s, end);
    if is_profile(s, p) {
        Ok(p)
    } else {
        Err(Refusal::MalformedProfile)
    }
}

// The stored number at place q matches the dialled one.
#[tactic(auto, using(crate::proofs::ComparisonLaws::as_before))]
fn match_at(s: &[u8], q: usize, nature: u8, dialled: &[u8]) -> bool
    requires { q ≤ 70000 }
    ensures { result ≡ matches (number_at s.now q) nature dialled.now }
{
    if bytes::at(s, q) != nature {
        return false;
    }
    comparison::compare(list_at(s, q + 1), dialled).leads
}

// Some stored number of the profile matches the dialled one.
#[tactic(auto, using(crate::proofs::ProfileLaws::numbers_next, crate::proofs::ProfileLaws::numbers_none), unfolding(crate::specs::Profile::some_matches, crate::specs::Profile::profile_of))]
pub fn some_match(s: &[u8], nature: u8, dialled: &[u8]) -> bool
    ensures { result ≡ some_matches (profile_of s.now).numbers nature dialled.now }
{
    let mut q: usize = 7;
    for _ in 0..bytes::at(s, 6) {
        if match_at(s, q, nature, dialled) {
            return true;
        }
        q = list_end(s, q + 1);
    }
    false
}
