// The record of one call (document 01, One call), and records with some fields replaced.
ghost use Rattle.std.specs.Prelude.{◌≡◌};
ghost use Rattle.forms.specs.Bytes.{pad};
ghost use Rattle.call.specs.Record.{no_charge, waiting, running, is_present, is_pending, is_held, is_trigger, places, number_of, blank, made, timed, leg_at, with_leg};

use crate::armings;
use crate::armings::Arming;
use crate::roles::Role;
use crate::stages::Stage;
use forms::bytes;
use forms::item::*;
use forms::profile::Handling;
use forms::units::*;

// A leg is there or not. (Document 01 wants the legs as small enums in the record.)
#[derive(Clone, Copy, PartialEq, Eq)]
pub enum Presence {
    Absent,
    Present,
}

impl Presence {
    pub(crate) fn is_present(self) -> bool
        ensures { result ≡ is_present self }
    {
        self == Presence::Present
    }
}

// The clock of a leg's charge: no charge is pending; it waits for the Answer; it runs.
#[derive(Clone, Copy, PartialEq, Eq)]
pub enum Clock {
    None,
    Waiting,
    Running,
}

impl Clock {
    pub(crate) fn is_pending(self) -> bool
        ensures { result ≡ is_pending self }
    {
        self != Clock::None
    }
}

// A leg's pending charge. The start is zero until the clock runs, and the period where no charge is pending. (No enum with its fields: a record of any values is handed in, and refusal 3 asks that the unused ones are zero.)
#[derive(Clone, Copy)]
pub struct Charge {
    pub clock: Clock,
    pub period: Tenths,
    pub start: Tenths,
}

// A leg, as the rules speak of it: present or not, and its pending charge.
#[derive(Clone, Copy)]
pub struct LegState {
    pub presence: Presence,
    pub charge: Charge,
}

// The point of suspension: none, the trigger's, or a met point. (An enum of hold points in the record, by document 01; an Option of a role has no place for the trigger. It is matched and not compared: measured, a derived == takes 12 instructions more a slot in `feed`.)
#[derive(Clone, Copy)]
pub enum Hold {
    None,
    Trigger,
    At(Role),
}

impl Hold {
    pub(crate) fn is_held(self) -> bool
        ensures { result ≡ is_held self }
    {
        !matches!(self, Hold::None)
    }

    pub(crate) fn is_trigger(self) -> bool
        ensures { result ≡ is_trigger self }
    {
        matches!(self, Hold::Trigger)
    }
}

// The places for a called number's digits: one more than it can have, since 16 bytes make one vector.
pub const PLACES: usize = 16;

// The called number; the places past the count are zero. (No heap: the digits lie in the record, and refusal 3 looks at every place.)
#[derive(Clone, Copy)]
pub struct Number {
    pub nature: u8,
    pub count: u8,
    pub digits: [u8; PLACES],
}

// The fields stand by their size, the largest first and the small enums side by side: a byte between two fields that belongs to none is copied apart, with every copy of a record.
// A leg lies in four fields: the rules take it out and put it in (`leg_at`, `with_leg`, `made`). The armings stand in the order of the roles. (The order of the last ten is among the fastest of some thirty that were measured.)
// A kept timer of 0 is none. (No Option of one: document 01 counts it so, 0 to 2047, and refusal 3 looks at it.)
#[derive(Clone, Copy)]
pub struct Record {
    pub last: Tenths,
    pub period1: Tenths,
    pub start1: Tenths,
    pub period2: Tenths,
    pub start2: Tenths,
    pub kept: Seconds,
    pub timer: Seconds,
    pub number: Number,
    pub armings: [Arming; 10],
    pub handling: Handling,
    pub stage: Stage,
    pub hold: Hold,
    pub leg1: Presence,
    pub clock1: Clock,
    pub leg2: Presence,
    pub clock2: Clock,
    pub bcsm: Bcsm,
}

pub(crate) fn no_charge() -> Charge
    ensures { result ≡ no_charge }
{
    Charge {
        clock: Clock::None,
        period: Tenths(0),
        start: Tenths(0),
    }
}

pub(crate) fn waiting(period: Tenths) -> Charge
    ensures { result ≡ waiting period }
{
    Charge {
        clock: Clock::Waiting,
        period,
        start: Tenths(0),
    }
}

pub(crate) fn running(period: Tenths, start: Tenths) -> Charge
    ensures { result ≡ running period start }
{
    Charge {
        clock: Clock::Running,
        period,
        start,
    }
}

// The digits in their places.
fn places_of(digits: &[u8]) -> [u8; PLACES]
    ensures { result ≡ pad places digits.now }
{
    let mut d = [0u8; PLACES];
    bytes::copy_in(&mut d, 0, bytes::part_of(digits, 0, PLACES));
    d
}

pub(crate) fn number_of(nature: u8, count: u8, digits: &[u8]) -> Number
    ensures { result ≡ number_of nature count digits.now }
{
    Number {
        nature,
        count,
        digits: places_of(digits),
    }
}

// The record of a free slot.
pub fn blank_record() -> Record
    ensures { result ≡ blank }
{
    Record {
        last: Tenths(0),
        period1: Tenths(0),
        start1: Tenths(0),
        period2: Tenths(0),
        start2: Tenths(0),
        kept: Seconds(0),
        timer: Seconds(0),
        armings: armings::no_armings(),
        number: Number {
            nature: 0,
            count: 0,
            digits: [0; PLACES],
        },
        stage: Stage::Analysing,
        hold: Hold::None,
        handling: Handling::Continue,
        leg1: Presence::Absent,
        leg2: Presence::Absent,
        clock1: Clock::None,
        clock2: Clock::None,
        bcsm: Bcsm::Originating,
    }
}

// A leg is taken out of the record. (A function of a record by value, as `made`, `with_last` and `with_leg` below: document 01 wants one-call steps by value.)
pub(crate) fn leg_at(leg: Leg, r: Record) -> LegState
    ensures { result ≡ leg_at leg r }
{
    match leg {
        Leg::One => LegState {
            presence: r.leg1,
            charge: Charge {
                clock: r.clock1,
                period: r.period1,
                start: r.start1,
            },
        },
        Leg::Two => LegState {
            presence: r.leg2,
            charge: Charge {
                clock: r.clock2,
                period: r.period2,
                start: r.start2,
            },
        },
    }
}

// All but the profile's defaults and the kind of call is given.
pub(crate) fn made(
    r: Record,
    stage: Stage,
    one: LegState,
    two: LegState,
    hold: Hold,
    last: Tenths,
    armings: [Arming; 10],
    kept: Seconds,
    number: Number,
) -> Record
    ensures { result ≡ made r stage one two hold last armings kept number }
{
    Record {
        last,
        period1: one.charge.period,
        start1: one.charge.start,
        period2: two.charge.period,
        start2: two.charge.start,
        kept,
        armings,
        number,
        stage,
        hold,
        leg1: one.presence,
        clock1: one.charge.clock,
        leg2: two.presence,
        clock2: two.charge.clock,
        ..r
    }
}

// A store into a copy: measured, a struct update takes 17 instructions more an item of `feed_sound`.
pub(crate) fn with_last(r: Record, t: Tenths) -> Record
    ensures { result ≡ timed r t }
{
    let mut s = r;
    s.last = t;
    s
}

// A leg is put into the record.
pub(crate) fn with_leg(leg: Leg, r: Record, l: LegState) -> Record
    ensures { result ≡ with_leg leg r l }
{
    match leg {
        Leg::One => Record {
            leg1: l.presence,
            clock1: l.charge.clock,
            period1: l.charge.period,
            start1: l.charge.start,
            ..r
        },
        Leg::Two => Record {
            leg2: l.presence,
            clock2: l.charge.clock,
            period2: l.charge.period,
            start2: l.charge.start,
            ..r
        },
    }
}
