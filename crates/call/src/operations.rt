// What Period over and the operations do, Request report apart (document 01, One call and Charging).
ghost use Rattle.std.specs.Prelude.{◌≡◌, ◌<◌};
ghost use Rattle.call.specs.Points.{set_of};
ghost use Rattle.forms.specs.Units.{clock_end};
ghost use Rattle.call.specs.Record.{number_of};
ghost use Rattle.call.specs.Operations.{after, route_timer, routed, continued, can_connect, connected, uncharged, dropped, aborted, charged, report_on, period_over, charge_applied};

use crate::answers::*;
use crate::record::*;
use crate::stages::Stage;
use crate::{answers, armings, charging, record};
use forms::item::Leg;
use forms::profile;
use forms::units::*;

// A time that a clock reads, so that no deadline wraps. Made where an item's time was looked at.
#[derive(Clone, Copy)]
pub(crate) struct ClockReading {
    pub time: Tenths,
    ghost in_range: { time.0 < clock_end },
}

fn deadline_after(t: ClockReading, s: Seconds) -> Tenths
    ensures { result ≡ after t.time s }
{
    Tenths(t.time.0 + s.tenths().0)
}

fn route_timer(r: Record) -> Seconds
    ensures { result ≡ route_timer r }
{
    if r.kept.0 == 0 { r.timer } else { r.kept }
}

// Routing starts: the kept timer is used up.
pub(crate) fn route(r: Record, t: ClockReading) -> Stepped
    ensures { result ≡ routed (set_of r.bcsm) r t.time }
{
    let deadline = deadline_after(t, route_timer(r));
    // A store into a copy: a struct update takes more instructions, measured at `with_last`.
    let mut next = r;
    next.kept = Seconds(0);
    answers::go_on(next, answers::silent_reports(), Some(deadline))
}

// Continue, from a hold. (Never inlined: so a record lies in memory where it is handed over, and LLVM takes the vector's maximum that `armings::strongest` speaks of; else it compares the armings one by one.)
#[inline(never)]
#[tactic(auto, unfolding(crate::specs::Operations::continued))]
pub(crate) fn continue_on(r: Record, t: ClockReading) -> Stepped
    ensures { result ≡ continued (set_of r.bcsm) r t.time }
{
    if r.leg1.is_present() & r.leg2.is_present() {
        let mut next = record::with_last(r, t.time);
        next.hold = Hold::None;
        if r.hold.is_trigger() {
            return route(next, t);
        }
        return answers::go_on_quietly(next);
    }
    answers::end(r, None, t.time)
}

pub(crate) fn can_connect(r: Record) -> bool
    ensures { result ≡ can_connect r }
{
    r.hold.is_trigger() | (r.leg1.is_present() & !r.leg2.is_present())
}

// Leg 2 is present again, the stage analysing, and the number replaced.
fn connected_record(r: Record, number: Number, t: Tenths) -> Record
    ensures { result ≡ connected r number t }
{
    Record {
        last: t,
        stage: Stage::Analysing,
        hold: Hold::None,
        leg2: Presence::Present,
        number,
        ..r
    }
}

// The record is connected, and routing starts.
pub(crate) fn connect(r: Record, nature: u8, count: u8, digits: &[u8], t: ClockReading) -> Stepped
    ensures { result ≡ routed (set_of r.bcsm) (connected r (number_of nature count digits.now) t.time) t.time }
{
    let number = record::number_of(nature, count, digits);
    route(connected_record(r, number, t.time), t)
}

fn uncharged(l: LegState) -> LegState
    ensures { result ≡ uncharged l }
{
    LegState {
        charge: record::no_charge(),
        ..l
    }
}

// All armings, charges and the kept timer are dropped.
fn drop_all(r: Record) -> Record
    ensures { result ≡ dropped r }
{
    let one = uncharged(record::leg_at(Leg::One, r));
    let two = uncharged(record::leg_at(Leg::Two, r));
    let armings = armings::no_armings();
    record::made(
        r,
        r.stage,
        one,
        two,
        r.hold,
        r.last,
        armings,
        Seconds(0),
        r.number,
    )
}

#[tactic(auto, unfolding(crate::specs::Operations::aborted))]
pub(crate) fn abort(r: Record, t: ClockReading) -> Stepped
    ensures { result ≡ aborted (set_of r.bcsm) r t.time }
{
    let d = drop_all(r);
    if profile::is_release(r.handling) {
        return answers::end(d, None, t.time);
    }
    if r.hold.is_held() {
        return continue_on(d, t);
    }
    answers::go_on_quietly(record::with_last(d, t.time))
}

// The charge of a leg is replaced.
fn charge(r: Record, leg: Leg, c: Charge, t: Tenths) -> Record
    ensures { result ≡ charged r leg c t }
{
    let l = LegState {
        charge: c,
        ..record::leg_at(leg, r)
    };
    record::with_leg(leg, record::with_last(r, t), l)
}

fn report_on(leg: Leg, c: Option<Tenths>) -> Reports
    ensures { result ≡ report_on leg c }
{
    match leg {
        Leg::One => Reports {
            charge1: c,
            ..answers::silent_reports()
        },
        Leg::Two => Reports {
            charge2: c,
            ..answers::silent_reports()
        },
    }
}

pub(crate) fn period_over(r: Record, leg: Leg, t: Tenths) -> Stepped
    ensures { result ≡ period_over (set_of r.bcsm) r leg t }
{
    let reports = report_on(leg, charging::report_of(t, record::leg_at(leg, r).charge));
    answers::go_on(charge(r, leg, record::no_charge(), t), reports, None)
}

pub(crate) fn apply_charging(r: Record, leg: Leg, period: Tenths, t: Tenths) -> Stepped
    ensures { result ≡ charge_applied (set_of r.bcsm) r leg period t }
{
    answers::go_on_quietly(charge(r, leg, charging::grant(r.stage, period, t), t))
}
