// Refusals 5 and 7 to 14: the first that applies (document 01, Numbered refusals).
ghost use Rattle.std.specs.Prelude.{◌≡◌, ◌&&◌, cond, [], ◌∷◌, Ok, Err};
ghost use Rattle.call.specs.Points.{set_of};
ghost use Rattle.call.specs.Record.{is_present, is_started, leg_at};
ghost use Rattle.call.specs.Answers.{first_of};
ghost use Rattle.call.specs.Request.{entries_of, are_possible};
ghost use Rattle.call.specs.Operations.{can_connect};
ghost use Rattle.call.specs.Events.{role_of, can_meet};
ghost use Rattle.call.specs.Refusals.{row1_time, row7, row8, row8_any, row9, row10, row11, row12, row13, row14, rows_of};

use crate::events::Event;
use crate::kind::Kind;
use crate::record::*;
use crate::relationship::Relationship;
use crate::{charging, events, operations, points, record, relationship, request, roles};
use forms::item;
use forms::item::Leg;
use forms::refusal::Refusal;
use forms::units::Tenths;

// A row of the refusals.
pub(crate) fn refuse_if(applies: bool, refusal: Refusal) -> Result<(), Refusal>
    ensures { result ≡ cond applies (Err refusal) (Ok tt) }
{
    if applies { Err(refusal) } else { Ok(()) }
}

// Row 7.
fn time_refusal(r: Record, t: Tenths) -> Result<(), Refusal>
    ensures { result ≡ first_of (row7 r t ∷ []) }
{
    refuse_if(t < r.last, Refusal::EarlierTime)
}

// Rows 9 and 12 of an event.
fn event_refusal(r: Record, e: Event) -> Result<(), Refusal>
    ensures { result ≡ first_of (row9 r e ∷ row12 (can_meet (set_of r.bcsm) r (role_of e r.stage)) ∷ []) }
{
    refuse_if(r.hold.is_held() & !events::is_clear(e), Refusal::Held)?;
    let p = events::role_of(e, r.stage);
    refuse_if(!events::can_meet(r, p), Refusal::Impossible)
}

// Rows 12 and 14 of Period over.
fn period_refusal(r: Record, leg: Leg, t: Tenths) -> Result<(), Refusal>
    ensures { result ≡ first_of (row12 (is_started (leg_at leg r).charge.clock) ∷ row14 r leg t ∷ []) }
{
    let c = record::leg_at(leg, r).charge;
    refuse_if(c.clock != Clock::Running, Refusal::Impossible)?;
    refuse_if(charging::is_before_end(t, c), Refusal::PeriodNotOver)
}

// Row 8 of an operation that needs control.
fn control_refusal(r: Record) -> Result<(), Refusal>
    ensures { result ≡ first_of (row8 r ∷ []) }
{
    let relationship = relationship::relationship_of(r);
    refuse_if(relationship != Relationship::Control, Refusal::NoControl)
}

// Row 8 of an operation that needs any relationship. (Beside `control_refusal`, as the paper has two rows of the number 8; a test that is passed in is no plainer.)
fn related_refusal(r: Record) -> Result<(), Refusal>
    ensures { result ≡ first_of (row8_any r ∷ []) }
{
    let relationship = relationship::relationship_of(r);
    refuse_if(relationship == Relationship::None, Refusal::NoControl)
}

// Rows 12 and 13 of Apply charging.
fn charging_refusal(r: Record, leg: Leg) -> Result<(), Refusal>
    ensures { result ≡ first_of (row12 (is_present r.leg1 && is_present (leg_at leg r).presence) ∷ row13 r leg ∷ []) }
{
    let l = record::leg_at(leg, r);
    let possible = r.leg1.is_present() & l.presence.is_present();
    refuse_if(!possible, Refusal::Impossible)?;
    refuse_if(l.charge.clock.is_pending(), Refusal::ChargePending)
}

// Row 10.
fn hold_refusal(r: Record) -> Result<(), Refusal>
    ensures { result ≡ first_of (row10 r ∷ []) }
{
    refuse_if(!r.hold.is_held(), Refusal::NotHeld)
}

// Rows 10 and 12 of Connect.
fn connect_refusal(r: Record) -> Result<(), Refusal>
    ensures { result ≡ first_of (row10 r ∷ row12 (can_connect r) ∷ []) }
{
    hold_refusal(r)?;
    refuse_if(!operations::can_connect(r), Refusal::Impossible)
}

// Refusals 11 and 12: every entry is tested for 11 before any for 12. (`n` stands beside the bytes, as in `request::arm_all`. `seen` has a mark for each role at its place: no heap for a set.)
#[tactic(auto, using(crate::proofs::Laws::good_step, crate::proofs::Laws::good_stop, crate::proofs::Laws::unknown_stop, crate::proofs::Laws::good_end, crate::proofs::Laws::possible_step, crate::proofs::Laws::possible_end))]
fn entries_refusal(r: Record, n: u8, t: &[u8]) -> Result<(), Refusal>
    ensures { result ≡ first_of (row11 (set_of r.bcsm) (entries_of n t.now) ∷ row12 (are_possible (set_of r.bcsm) r (entries_of n t.now)) ∷ []) }
{
    let bcsm = r.bcsm;
    let mut seen = [false; 10];
    let mut possible = true;
    for i in 0..n {
        let e = item::nth_entry(t, i);
        let Some(p) = points::role_in(bcsm, e.leg, e.point) else {
            return Err(Refusal::BadEntry);
        };
        if !request::is_good(p, seen, e) {
            return Err(Refusal::BadEntry);
        }
        seen[roles::place_of(p)] = true;
        possible = possible & request::is_possible(r, p, e.mode);
    }
    refuse_if(!possible, Refusal::Impossible)
}

// The first row that applies to the item: each kind's rows stand in their order.
pub(crate) fn refusal(r: Record, k: Kind, t: Tenths, rest: &[u8]) -> Result<(), Refusal>
    ensures { result ≡ first_of (rows_of (set_of r.bcsm) r k t rest.now) }
{
    match k {
        Kind::Setup(_) => Err(Refusal::CallOpen),
        Kind::Event(e) => {
            time_refusal(r, t)?;
            event_refusal(r, e)
        }
        Kind::PeriodOver(leg) => {
            time_refusal(r, t)?;
            period_refusal(r, leg, t)
        }
        Kind::RequestReport(n) => {
            time_refusal(r, t)?;
            control_refusal(r)?;
            entries_refusal(r, n, rest)
        }
        Kind::Continue => {
            time_refusal(r, t)?;
            control_refusal(r)?;
            hold_refusal(r)
        }
        Kind::Connect(_, _) => {
            time_refusal(r, t)?;
            control_refusal(r)?;
            connect_refusal(r)
        }
        Kind::Release => {
            time_refusal(r, t)?;
            control_refusal(r)
        }
        Kind::ApplyCharging(leg, _) => {
            time_refusal(r, t)?;
            control_refusal(r)?;
            charging_refusal(r, leg)
        }
        Kind::ActivityTest | Kind::Abort => {
            time_refusal(r, t)?;
            related_refusal(r)
        }
    }
}

// The same after row 1 of the time alone.
pub(crate) fn first_refusal(r: Record, k: Kind, t: Tenths, rest: &[u8]) -> Result<(), Refusal>
    ensures { result ≡ first_of (row1_time t ∷ rows_of (set_of r.bcsm) r k t rest.now) }
{
    if t.is_clock_reading() {
        refusal(r, k, t, rest)
    } else {
        Err(Refusal::MalformedItem)
    }
}
