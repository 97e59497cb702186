// A slot of the table as 88 bytes, both ways: the form in which the test program takes tables that no run reaches, damaged ones too.
// Numbers are big-endian. Each field has a fixed place, so that any value which a slot can hold has a form, but for the called number's 16th place, which is zero here:
//   0 owner (0 free, 1 a call), 1 call (4), 5 stage, 6 leg 1, 24 leg 2, 42 hold, 43 last time (8), 51 ten armings,
//   61 kept timer (4), 65 default timer (4), 69 default handling, 70 called number: nature, count, 15 digits, 87 kind of call
// A leg: presence, clock of its charge (0 none, 1 waiting, 2 running), period (8), start (8). A field with few values holds the place of its value in one of the lists below, and any further number stands for the first; a hold at a role is 2 more than the role's place.
ghost use Rattle.std.specs.Prelude.{◌≤◌, ◌+◌};

use call::armings::*;
use call::record::*;
use call::roles::Role;
use call::stages::Stage;
use forms::bytes;
use forms::item::Bcsm;
use forms::profile::Handling;
use forms::units::*;
use std::array;
use table::slot::Slot;

pub const SIZE: usize = 88;

const STAGES: [Stage; 3] = [Stage::Analysing, Stage::Alerting, Stage::Active];

const PRESENCES: [Presence; 2] = [Presence::Absent, Presence::Present];

const CLOCKS: [Clock; 3] = [Clock::None, Clock::Waiting, Clock::Running];

const MODES: [Mode; 3] = [Mode::None, Mode::Interrupted, Mode::Notify];

const HANDLINGS: [Handling; 2] = [Handling::Continue, Handling::Release];

const BCSMS: [Bcsm; 2] = [Bcsm::Originating, Bcsm::Terminating];

const ROLES: [Role; 10] = [
    Role::MidCall,
    Role::Disconnect1,
    Role::Abandon,
    Role::Moved,
    Role::RouteFailure,
    Role::Busy,
    Role::NoAnswer,
    Role::Answer,
    Role::Disconnect2,
    Role::Seized,
];

// The value at that place of the list.
fn value_at<T: Copy, const N: usize>(values: [T; N], place: u8) -> T
    requires { 1 ≤ N }
{
    values.get(usize::from(place)).copied().unwrap_or(values[0])
}

// The place of the value in the list, which has every value.
fn place_in<T: Copy + PartialEq, const N: usize>(values: [T; N], value: T) -> u8 {
    let place = values.iter().position(|v| *v == value);
    u8::try_from(place.unwrap_or(0)).unwrap_or(0)
}

// A hold at a role is no value of a list: kept, both ways by hand over the list of roles. (`Hold` has no `==`: it was measured, see there.)
fn hold_at(place: u8) -> Hold {
    match place {
        0 => Hold::None,
        1 => Hold::Trigger,
        _ => match ROLES.get(usize::from(place - 2)) {
            Some(role) => Hold::At(*role),
            None => Hold::None,
        },
    }
}

fn place_of_hold(hold: Hold) -> u8 {
    match hold {
        Hold::None => 0,
        Hold::Trigger => 1,
        // The list is short: so it needs no `requires`, the sum is one that stops.
        Hold::At(role) => place_in(ROLES, role).saturating_add(2),
    }
}

// The N bytes from that place on.
fn array_at<const N: usize>(s: &[u8; SIZE], at: usize) -> [u8; N]
    requires { at + N ≤ 88 }
{
    *s[at..].first_chunk().unwrap()
}

fn tenths_at(s: &[u8; SIZE], at: usize) -> Tenths
    requires { at + 8 ≤ 88 }
{
    Tenths(u64::from_be_bytes(array_at(s, at)))
}

fn number_in(s: &[u8; SIZE]) -> Number {
    let mut digits = [0; PLACES];
    digits[..15].copy_from_slice(&s[72..87]);
    Number {
        nature: s[70],
        count: s[71],
        digits,
    }
}

fn record_in(s: &[u8; SIZE]) -> Record {
    Record {
        last: tenths_at(s, 43),
        period1: tenths_at(s, 8),
        start1: tenths_at(s, 16),
        period2: tenths_at(s, 26),
        start2: tenths_at(s, 34),
        kept: Seconds(u32::from_be_bytes(array_at(s, 61))),
        timer: Seconds(u32::from_be_bytes(array_at(s, 65))),
        armings: array_at::<10>(s, 51).map(|place| Arming {
            mode: value_at(MODES, place),
        }),
        number: number_in(s),
        stage: value_at(STAGES, s[5]),
        hold: hold_at(s[42]),
        handling: value_at(HANDLINGS, s[69]),
        leg1: value_at(PRESENCES, s[6]),
        leg2: value_at(PRESENCES, s[24]),
        clock1: value_at(CLOCKS, s[7]),
        clock2: value_at(CLOCKS, s[25]),
        bcsm: value_at(BCSMS, s[87]),
    }
}

// The slot whose form s begins with. Where s is cut short, zeros stand for the bytes that lack.
pub(crate) fn slot_of(s: &[u8]) -> Slot {
    let whole = array::from_fn(|i| bytes::at(s, i));
    Slot {
        owner: (whole[0] == 1).then_some(u32::from_be_bytes(array_at(&whole, 1))),
        body: record_in(&whole),
    }
}

// Stores the bytes b from that place on.
fn put<const N: usize>(d: &mut [u8; SIZE], at: usize, b: [u8; N])
    requires { at + N ≤ 88 }
{
    d[at..at + N].copy_from_slice(&b);
}

// A leg at its place.
// Kept, its four fields as parameters: so a leg lies in the record.
fn put_leg(
    d: &mut [u8; SIZE],
    at: usize,
    presence: Presence,
    clock: Clock,
    period: Tenths,
    start: Tenths,
)
    requires { at + 18 ≤ 88 }
{
    d[at] = place_in(PRESENCES, presence);
    d[at + 1] = place_in(CLOCKS, clock);
    put(d, at + 2, period.0.to_be_bytes());
    put(d, at + 10, start.0.to_be_bytes());
}

// The form of a slot.
pub(crate) fn form_of(slot: Slot) -> [u8; SIZE] {
    let r = slot.body;
    let mut d = [0; SIZE];
    d[0] = u8::from(slot.owner.is_some());
    d[5] = place_in(STAGES, r.stage);
    d[42] = place_of_hold(r.hold);
    d[69] = place_in(HANDLINGS, r.handling);
    d[70] = r.number.nature;
    d[71] = r.number.count;
    d[87] = place_in(BCSMS, r.bcsm);
    put(&mut d, 1, slot.owner.unwrap_or(0).to_be_bytes());
    put_leg(&mut d, 6, r.leg1, r.clock1, r.period1, r.start1);
    put_leg(&mut d, 24, r.leg2, r.clock2, r.period2, r.start2);
    put(&mut d, 43, r.last.0.to_be_bytes());
    put(&mut d, 51, r.armings.map(|a| place_in(MODES, a.mode)));
    put(&mut d, 61, r.kept.0.to_be_bytes());
    put(&mut d, 65, r.timer.0.to_be_bytes());
    put::<15>(&mut d, 72, *r.number.digits.first_chunk().unwrap());
    d
}
