// What is in range of a record: the record's part of refusal 3 (document 01, The call table).
ghost use Rattle.std.specs.Prelude.{◌≡◌, not, ◌&&◌, cond, eqb};
ghost use Rattle.forms.specs.Fields.{is_digit};
ghost use Rattle.call.specs.Armings.{is_mode, mode_at};
ghost use Rattle.call.specs.Points.{set_of, is_in};
ghost use Rattle.call.specs.Record.{is_at};
ghost use Rattle.call.specs.Range.{charge_in_range, hold_in_range, armings_in_range, places_in_range, number_in_range, record_in_range, is_unused, are_fields_blank, is_no_number, is_blank};

use crate::armings::*;
use crate::record::*;
use crate::roles::Role;
use crate::stages::Stage;
use crate::{armings, points, record};
use forms::fields;
use forms::item::*;
use forms::profile::Handling;
use forms::units::*;

fn charge_in_range(c: Charge, last: Tenths) -> bool
    ensures { result ≡ charge_in_range c last }
{
    match c.clock {
        Clock::None => (c.period.0 == 0) & (c.start.0 == 0),
        Clock::Waiting => c.period.is_period() & (c.start.0 == 0),
        Clock::Running => c.period.is_period() & (c.start.0 <= last.0),
    }
}

// Route failure is the one role that may be no point of a call: held there, where it is none.
fn is_held_at_none(bcsm: Bcsm, h: Hold) -> bool
    ensures { result ≡ (not (is_in (set_of bcsm) Role.RouteFailure) && is_at Role.RouteFailure h) }
{
    !points::is_in(bcsm, Role::RouteFailure) && matches!(h, Hold::At(Role::RouteFailure))
}

// Armed there, where it is none.
fn is_armed_at_none(bcsm: Bcsm, a: [Arming; 10]) -> bool
    ensures { result ≡ (not (is_in (set_of bcsm) Role.RouteFailure) && not (is_mode (mode_at Role.RouteFailure a) Mode.None)) }
{
    !points::is_in(bcsm, Role::RouteFailure)
        && armings::mode_at(Role::RouteFailure, a) != Mode::None
}

// Held at Moved.
fn is_held_at_moved(h: Hold) -> bool
    ensures { result ≡ is_at Role.Moved h }
{
    matches!(h, Hold::At(Role::Moved))
}

// Moved is never armed in mode 0.
fn is_moved_in_range(a: [Arming; 10]) -> bool
    ensures { result ≡ not (is_mode (mode_at Role.Moved a) Mode.Interrupted) }
{
    armings::mode_at(Role::Moved, a) != Mode::Interrupted
}

// The hold and the armings. (How this is written decides what the check of a slot costs: DECISIONS. An arming that is read by itself at another place breaks up the ten, which the check of a free slot reads at once.)
#[tactic(auto, using(crate::proofs::PointLaws::sets_fit, crate::proofs::PointLaws::by_failure))]
fn points_in_range(bcsm: Bcsm, h: Hold, a: [Arming; 10]) -> bool
    ensures { result ≡ (hold_in_range (set_of bcsm) h && armings_in_range (set_of bcsm) a) }
{
    !is_held_at_moved(h)
        & is_moved_in_range(a)
        & !is_held_at_none(bcsm, h)
        & !is_armed_at_none(bcsm, a)
}

// A place of the number: a digit up to the count, zero past it.
fn place_in_range(inside: bool, d: u8) -> bool
    ensures { result ≡ cond inside (is_digit d) (eqb d 0) }
{
    let limit = if inside { fields::DIGIT } else { 0 };
    d <= limit
}

#[tactic(auto, using(crate::proofs::Laws::places_step, crate::proofs::Laws::places_end))]
fn places_in_range(count: u8, digits: [u8; PLACES]) -> bool
    ensures { result ≡ places_in_range count digits }
{
    let mut ok = true;
    for i in 0..PLACES as u8 {
        ok = ok & place_in_range(i < count, digits[i as usize]);
    }
    ok
}

#[tactic(auto, unfolding(crate::specs::Range::number_in_range))]
fn number_in_range(n: Number) -> bool
    ensures { result ≡ number_in_range n }
{
    fields::is_nature(n.nature)
        & fields::is_digit_count(n.count as usize)
        & places_in_range(n.count, n.digits)
}

#[tactic(auto, unfolding(crate::specs::Range::in_range_of))]
pub fn record_in_range(r: Record) -> bool
    ensures { result ≡ record_in_range r }
{
    charge_in_range(record::leg_at(Leg::One, r).charge, r.last)
        & charge_in_range(record::leg_at(Leg::Two, r).charge, r.last)
        & r.last.is_clock_reading()
        & r.kept.is_timer()
        & r.timer.is_default_timer()
        & number_in_range(r.number)
        & points_in_range(r.bcsm, r.hold, r.armings)
}

// No field of the leg is set.
fn is_unused(l: LegState) -> bool
    ensures { result ≡ is_unused l }
{
    !l.presence.is_present()
        & !l.charge.clock.is_pending()
        & (l.charge.period.0 == 0)
        & (l.charge.start.0 == 0)
}

// No place is used. The empty ones are counted: measured, other loops take twice the time.
#[tactic(auto, using(crate::proofs::Laws::places_end, crate::proofs::Laws::empty_step, crate::proofs::Laws::used_step))]
fn no_places(digits: [u8; PLACES]) -> bool
    ensures { result ≡ places_in_range 0 digits }
{
    let mut empty: u32 = 0;
    for d in digits {
        if d == 0 {
            empty += 1;
        }
    }
    empty == PLACES as u32
}

fn is_no_number(n: Number) -> bool
    ensures { result ≡ is_no_number n }
{
    (n.nature == 0) & (n.count == 0) & no_places(n.digits)
}

// All but the armings and the called number.
#[tactic(auto, unfolding(crate::specs::Range::are_fields_blank))]
fn are_fields_blank(r: Record) -> bool
    ensures { result ≡ are_fields_blank r }
{
    (r.stage == Stage::Analysing)
        & is_unused(record::leg_at(Leg::One, r))
        & is_unused(record::leg_at(Leg::Two, r))
        & !r.hold.is_held()
        & (r.last.0 == 0)
        & (r.kept.0 == 0)
        & (r.timer.0 == 0)
        & (r.handling == Handling::Continue)
        & (r.bcsm == Bcsm::Originating)
}

// Every field zero or none, as in a free record. A record in use mostly leaves at the first test.
#[tactic(auto, unfolding(crate::specs::Range::is_blank))]
pub fn is_blank(r: Record) -> bool
    ensures { result ≡ is_blank r }
{
    are_fields_blank(r) && armings::nothing_armed(r.armings) && is_no_number(r.number)
}
