// Items: the table of kinds, and reading (document 01, Forms). Bytes read as the item whose written form they are.
ghost use Rattle.std.specs.Prelude.{◌≡◌, [], ◌∷◌, true, ◌&&◌, ◌+◌, ◌*◌, ◌≤◌, length, drop};
ghost use Rattle.forms.specs.Bytes.{to_bytes};
ghost use Rattle.forms.specs.Units.{is_clock_reading};
ghost use Rattle.forms.specs.Fields.{leg_number};
ghost use Rattle.forms.specs.Item.{form_of, rest_in_range, setup_of, body_from, body_of, call_in, item_of, item_in_range, is_item, read_item, read_item_at, entry_of, read_entry, fixed, fixed_of};

use crate::refusal::Refusal;
use crate::units::{Seconds, Tenths};
use crate::{bytes, fields};

#[derive(Clone, Copy, PartialEq, Eq)]
pub enum Leg {
    One = 1,
    Two = 2,
}

impl Leg {
    pub fn number(self) -> u8
        ensures { result ≡ leg_number self }
    {
        self as u8
    }
}

// The half of a call that a Setup opens, by its basic call state model: O-BCSM or T-BCSM. Each with the kind of its Setup.
#[derive(Clone, Copy, PartialEq, Eq)]
pub enum Bcsm {
    Originating = 1,
    Terminating = 11,
}

// The fields of a Setup. `count` says how many digits follow.
#[derive(Clone, Copy)]
pub struct Setup {
    pub bcsm: Bcsm,
    pub nature: u8,
    pub service: u8,
    pub forwarded: bool,
    pub count: u8,
}

// The fields of a body. The digits or the entries that follow them stay in the lent bytes; a count says how many there are.
#[derive(Clone, Copy)]
pub enum Body {
    Setup(Setup),
    // Cause.
    RouteFailure(u8),
    Busy(u8),
    NoAnswer,
    Seized,
    Answer,
    // Digit.
    MidCall(u8),
    Moved,
    // Leg, cause.
    Clear(Leg, u8),
    PeriodOver(Leg),
    // Count of entries.
    RequestReport(u8),
    Continue,
    // Nature, digit count.
    Connect(u8, u8),
    Release,
    // Leg, period.
    ApplyCharging(Leg, Tenths),
    ActivityTest,
    Abort,
}

#[derive(Clone, Copy)]
pub struct Item {
    pub call: u32,
    pub time: Tenths,
    pub body: Body,
}

// An entry of a Request report, of any values.
#[derive(Clone, Copy)]
pub struct Entry {
    pub point: u8,
    pub leg: u8,
    pub mode: u8,
    pub timer: Seconds,
}

// What follows the fields. Three cases and no Option of a count: there are two ways of counting what follows.
#[derive(Clone, Copy)]
pub(crate) enum Rest {
    Nothing,
    Digits(u8),
    Entries(u8),
}

// A row of the table of kinds: the kind, the fields' bytes (the first `len`), whether the fields are in range, and what follows.
// A buffer with a length beside it: the fields are made here, so there is no slice to lend, and there is no heap. `row` alone makes it, from an array.
// `in_range` is what the row says of its values, not whether there are any.
#[derive(Clone, Copy)]
pub(crate) struct Fixed {
    pub kind: u8,
    pub len: u8,
    pub bytes: [u8; 5],
    pub in_range: bool,
    pub rest: Rest,
}

// The row of a kind whose fields have N bytes.
fn row<const N: usize>(kind: u8, fields: [u8; N], in_range: bool, rest: Rest) -> Fixed
    requires { N ≤ 5 }
    ensures { result ≡ fixed kind fields.entry in_range rest }
{
    let mut bytes = [0u8; 5];
    bytes::copy_in(&mut bytes, 0, &fields);
    Fixed {
        kind,
        len: N as u8,
        bytes,
        in_range,
        rest,
    }
}

// The table of kinds.
pub(crate) fn fixed_of(body: Body) -> Fixed
    ensures { result ≡ fixed_of (form_of body) }
{
    match body {
        Body::Setup(s) => row(
            s.bcsm as u8,
            [s.nature, s.service, s.forwarded as u8, s.count],
            fields::is_nature(s.nature) & fields::is_digit_count(s.count as usize),
            Rest::Digits(s.count),
        ),
        Body::RouteFailure(cause) => row(2, [cause], fields::is_cause(cause), Rest::Nothing),
        Body::Busy(cause) => row(3, [cause], fields::is_cause(cause), Rest::Nothing),
        Body::NoAnswer => row(4, [], true, Rest::Nothing),
        Body::Seized => row(5, [], true, Rest::Nothing),
        Body::Answer => row(6, [], true, Rest::Nothing),
        Body::MidCall(digit) => row(7, [digit], fields::is_digit(digit), Rest::Nothing),
        Body::Moved => row(8, [], true, Rest::Nothing),
        Body::Clear(leg, cause) => row(
            9,
            [leg.number(), cause],
            fields::is_cause(cause),
            Rest::Nothing,
        ),
        Body::PeriodOver(leg) => row(10, [leg.number()], true, Rest::Nothing),
        Body::RequestReport(count) => row(
            20,
            [count],
            fields::is_entry_count(count),
            Rest::Entries(count),
        ),
        Body::Continue => row(21, [], true, Rest::Nothing),
        Body::Connect(nature, count) => row(
            22,
            [nature, count],
            fields::is_nature(nature) & fields::is_digit_count(count as usize),
            Rest::Digits(count),
        ),
        Body::Release => row(23, [], true, Rest::Nothing),
        Body::ApplyCharging(leg, p) => {
            let n = p.0.to_be_bytes();
            row(
                24,
                [leg.number(), n[4], n[5], n[6], n[7]],
                p.is_period(),
                Rest::Nothing,
            )
        }
        Body::ActivityTest => row(25, [], true, Rest::Nothing),
        Body::Abort => row(26, [], true, Rest::Nothing),
    }
}

fn setup_of(bcsm: Bcsm, nature: u8, service: u8, forwarded: bool, count: u8) -> Setup
    ensures { result ≡ setup_of bcsm nature service forwarded count }
{
    Setup {
        bcsm,
        nature,
        service,
        forwarded,
        count,
    }
}

// The body of the kind n: b0 to b3 are its first bytes, `leg` is the leg that b0 stands for, `p` the number from b1 on.
// A number that no kind has gives an Abort, whose row has the kind 26: the bytes are not it.
#[tactic(auto, unfolding(crate::specs::Item::body_from))]
fn body_from(n: u8, b0: u8, b1: u8, b2: u8, b3: u8, leg: Leg, p: u64) -> Body
    ensures { result ≡ body_from n b0 b1 b2 b3 leg p }
{
    match n {
        1 => Body::Setup(setup_of(Bcsm::Originating, b0, b1, b2 == 1, b3)),
        2 => Body::RouteFailure(b0),
        3 => Body::Busy(b0),
        4 => Body::NoAnswer,
        5 => Body::Seized,
        6 => Body::Answer,
        7 => Body::MidCall(b0),
        8 => Body::Moved,
        9 => Body::Clear(leg, b1),
        10 => Body::PeriodOver(leg),
        11 => Body::Setup(setup_of(Bcsm::Terminating, b0, b1, b2 == 1, b3)),
        20 => Body::RequestReport(b0),
        21 => Body::Continue,
        22 => Body::Connect(b0, b1),
        23 => Body::Release,
        24 => Body::ApplyCharging(leg, Tenths(p)),
        25 => Body::ActivityTest,
        _ => Body::Abort,
    }
}

// The body of the kind n whose bytes are b, whatever they are: a byte that is no leg is settled by the comparison with the written form.
#[tactic(auto, unfolding(crate::specs::Item::body_of))]
fn body_of(n: u8, b: &[u8]) -> Body
    ensures { result ≡ body_of n b.now }
{
    let b0 = bytes::at(b, 0);
    let leg = if b0 == 2 { Leg::Two } else { Leg::One };
    let p = bytes::number::<4>(bytes::from(b, 1)) as u64;
    body_from(
        n,
        b0,
        bytes::at(b, 1),
        bytes::at(b, 2),
        bytes::at(b, 3),
        leg,
        p,
    )
}

// The call's number, whatever the bytes are.
fn call_in(s: &[u8]) -> u32
    ensures { result ≡ call_in s.now }
{
    bytes::number::<4>(bytes::from(s, 4)) as u32
}

// The values at their places, whatever the bytes are.
#[tactic(auto, unfolding(crate::specs::Item::item_of))]
fn item_of(s: &[u8]) -> Item
    ensures { result ≡ item_of s.now }
{
    Item {
        call: call_in(s),
        time: Tenths(bytes::number::<6>(bytes::from(s, 8)) as u64),
        body: body_of(bytes::at(s, 3), bytes::from(s, 14)),
    }
}

// Where the digits or the entries begin.
pub(crate) fn rest_at(f: Fixed) -> usize
    ensures { (result ≡ 14 + f.len) × (result ≤ 269) }
{
    14 + usize::from(f.len)
}

fn rest_in_range(rest: Rest, t: &[u8]) -> bool
    ensures { result ≡ rest_in_range rest t.now }
{
    let n = t.len();
    match rest {
        Rest::Nothing => n == 0,
        Rest::Digits(count) => (n == count as usize) & fields::are_digits(t),
        Rest::Entries(count) => n == count as usize * 5,
    }
}

// Every field of the item is in its range, and `t` is its digits or entries.
pub(crate) fn item_in_range(item: Item, f: Fixed, t: &[u8]) -> bool
    ensures { result ≡ ((f.in_range && rest_in_range f.rest t.now) && is_clock_reading item.time) }
{
    f.in_range & rest_in_range(f.rest, t) & item.time.is_clock_reading()
}

// The same for an item alone: every field is in its range, and `t` is what follows.
#[tactic(auto, unfolding(crate::specs::Item::item_in_range))]
pub fn in_range(item: Item, t: &[u8]) -> bool
    ensures { result ≡ item_in_range item t.now }
{
    item_in_range(item, fixed_of(item.body), t)
}

// The bytes are the item that was read from them, f its row: only what reading does not settle by itself is tested.
#[tactic(auto, using(crate::proofs::ItemLaws::is_item_lem))]
fn is_item(item: Item, f: Fixed, s: &[u8]) -> bool
    requires { ((item ≡ item_of s.now) × (f ≡ fixed_of (form_of item.body))) × (14 ≤ length s.now) }
    ensures { result ≡ is_item item s.now }
{
    let written = bytes::part_of(&f.bytes, 0, usize::from(f.len));
    fields::is_framed(s)
        & (f.kind == bytes::at(s, 3))
        & bytes::leads(written, bytes::from(s, 14))
        & item_in_range(item, f, bytes::from(s, rest_at(f)))
}

// The item that the bytes are, and the place where its digits or entries begin; or refusal 1, malformed item.
#[tactic(auto, using(crate::proofs::ItemLaws::rest_at_lem, crate::proofs::ItemLaws::read_short), unfolding(crate::specs::Item::read_item))]
pub fn read_item(s: &[u8]) -> Result<(Item, usize), Refusal>
    ensures { result ≡ read_item s.now }
{
    if s.len() < 14 {
        return Err(Refusal::MalformedItem);
    }
    let item = item_of(s);
    let f = fixed_of(item.body);
    if is_item(item, f, s) {
        Ok((item, rest_at(f)))
    } else {
        Err(Refusal::MalformedItem)
    }
}

// The item that the bytes from place `a` on are, and the place of its digits or entries.
#[tactic(auto, using(crate::proofs::ItemLaws::place_small), unfolding(crate::specs::Item::read_item_at))]
pub fn read_item_at(s: &[u8], a: usize) -> Result<(Item, usize), Refusal>
    ensures { result ≡ read_item_at s.now a }
{
    if s.len() < a {
        return Err(Refusal::MalformedItem);
    }
    let (item, n) = read_item(bytes::from(s, a))?;
    Ok((item, a + n))
}

#[tactic(auto, unfolding(crate::specs::Item::entry_of))]
fn entry_of(e: &[u8]) -> Entry
    ensures { result ≡ entry_of e.now }
{
    Entry {
        point: bytes::at(e, 0),
        leg: bytes::at(e, 1),
        mode: bytes::at(e, 2),
        timer: Seconds(bytes::number::<2>(bytes::from(e, 3)) as u32),
    }
}

// The entry i of a Request report, whose entries are `t`; zeros past the end.
pub fn nth_entry(t: &[u8], i: u8) -> Entry
    ensures { result ≡ entry_of (drop (i * 5) t.now) }
{
    entry_of(bytes::from(t, usize::from(i) * 5))
}

// The entry at a place, and the place after it; none where no whole entry is left.
#[tactic(auto, unfolding(crate::specs::Item::read_entry))]
pub fn read_entry(s: &[u8], a: usize) -> Option<(Entry, usize)>
    ensures { result ≡ read_entry s.now a }
{
    let e = bytes::from(s, a);
    if 5 <= e.len() {
        Some((entry_of(e), a + 5))
    } else {
        None
    }
}
