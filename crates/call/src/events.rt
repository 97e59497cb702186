// Events: each meets a role (document 01, One call).
ghost use Rattle.std.specs.Prelude.{◌≡◌};
ghost use Rattle.call.specs.Points.{set_of};
ghost use Rattle.call.specs.Record.{leg_at};
ghost use Rattle.call.specs.Events.{is_clear, clear_of, role_of, can_meet, event_report, hold_after, leg_after, charge_after, ends_call, met};

use crate::answers::*;
use crate::armings::Mode;
use crate::points::*;
use crate::record::*;
use crate::roles::Role;
use crate::stages::Stage;
use crate::{answers, armings, charging, points, record, roles, stages};
use forms::item::*;
use forms::units::Tenths;

// The nine events: kinds 2 to 8, and Clear by its leg.
#[derive(Clone, Copy)]
pub(crate) enum Event {
    RouteFailure,
    Busy,
    NoAnswer,
    Seized,
    Answer,
    MidCall,
    Moved,
    Clear(Leg),
}

pub(crate) fn is_clear(e: Event) -> bool
    ensures { result ≡ is_clear e }
{
    matches!(e, Event::Clear(_))
}

// The role that a Clear meets.
fn clear_of(leg: Leg, s: Stage) -> Role
    ensures { result ≡ clear_of leg s }
{
    match leg {
        Leg::One => {
            if s == Stage::Active {
                Role::Disconnect1
            } else {
                Role::Abandon
            }
        }
        Leg::Two => Role::Disconnect2,
    }
}

// The role that an event meets.
pub(crate) fn role_of(e: Event, s: Stage) -> Role
    ensures { result ≡ role_of e s }
{
    match e {
        Event::RouteFailure => Role::RouteFailure,
        Event::Busy => Role::Busy,
        Event::NoAnswer => Role::NoAnswer,
        Event::Seized => Role::Seized,
        Event::Answer => Role::Answer,
        Event::MidCall => Role::MidCall,
        Event::Moved => Role::Moved,
        Event::Clear(leg) => clear_of(leg, s),
    }
}

// The stage and the legs allow the event.
pub(crate) fn can_meet(r: Record, p: Role) -> bool
    ensures { result ≡ can_meet (set_of r.bcsm) r p }
{
    let q = points::point_in(r.bcsm, p);
    stages::is_within(roles::part_of(p).met, r.stage)
        & points::is_point(q)
        & record::leg_at(q.leg, r).presence.is_present()
}

// What becomes of a leg, and the report of its charge.
#[derive(Clone, Copy)]
struct LegAfter {
    state: LegState,
    report: Option<Tenths>,
}

fn leg_after(r: Record, p: Role, leg: Leg, t: Tenths) -> LegAfter
    ensures { result ≡ record { state = leg_after (set_of r.bcsm) p leg t (leg_at leg r); report = charge_after (set_of r.bcsm) p leg t (leg_at leg r) } }
{
    let l = record::leg_at(leg, r);
    if points::takes_leg(r.bcsm, p, leg) {
        return LegAfter {
            state: LegState {
                presence: Presence::Absent,
                charge: record::no_charge(),
            },
            report: charging::report_of(t, l.charge),
        };
    }
    if p == Role::Answer {
        return LegAfter {
            state: LegState {
                charge: charging::answer(t, l.charge),
                ..l
            },
            report: None,
        };
    }
    LegAfter {
        state: l,
        report: None,
    }
}

// The report of a met role, by its mode.
fn event_report(bcsm: Bcsm, p: Role, m: Mode) -> Option<Report>
    ensures { result ≡ event_report (set_of bcsm) p m }
{
    let q = points::point_in(bcsm, p);
    match m {
        Mode::None => None,
        Mode::Interrupted => Some(Report::Interrupting(q)),
        Mode::Notify => Some(Report::Notification(q)),
    }
}

// The hold, where the call goes on.
fn hold_after(p: Role, m: Mode, earlier: Hold) -> Hold
    ensures { result ≡ hold_after p m earlier }
{
    if m == Mode::Interrupted {
        Hold::At(p)
    } else {
        earlier
    }
}

// The call is over: the leg leaves, in another mode than interrupted. A held call goes on where leg 2 leaves by a Disconnect (T-05).
fn ends_call(p: Role, m: Mode, earlier: Hold) -> bool
    ensures { result ≡ ends_call p m earlier }
{
    (m != Mode::Interrupted)
        & roles::part_of(p).leaves
        & !((p == Role::Disconnect2) & earlier.is_held())
}

// The role is met at t, its leg and stage allowing it.
#[tactic(auto, unfolding(crate::specs::Events::met))]
pub(crate) fn meet(r: Record, p: Role, t: Tenths) -> Stepped
    ensures { result ≡ met (set_of r.bcsm) r p t }
{
    let m = armings::mode_at(p, r.armings);
    let event = event_report(r.bcsm, p, m);
    if ends_call(p, m, r.hold) {
        return answers::end(r, event, t);
    }
    let one = leg_after(r, p, Leg::One, t);
    let two = leg_after(r, p, Leg::Two, t);
    let armings = points::disarm(r.bcsm, p, r.armings);
    let stage = roles::stage_after(p, r.stage);
    let hold = hold_after(p, m, r.hold);
    let next = record::made(
        r, stage, one.state, two.state, hold, t, armings, r.kept, r.number,
    );
    let reports = Reports {
        event,
        charge1: one.report,
        charge2: two.report,
    };
    answers::go_on(next, reports, None)
}
