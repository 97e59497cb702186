// Answers: what an item is told, and the record that remains (document 01, A call by itself).
ghost use Rattle.std.specs.Prelude.{◌≡◌, None};
ghost use Rattle.call.specs.Points.{set_of};
ghost use Rattle.call.specs.Answers.{silent, suspension_of, goes_on, quietly, ended, refused};

use crate::points::*;
use crate::record::*;
use crate::relationship::Relationship;
use crate::{charging, points, record, relationship};
use forms::item::*;
use forms::refusal::Refusal;
use forms::units::Tenths;

// An event's report, for the point that was met.
#[derive(Clone, Copy)]
pub enum Report {
    Interrupting(Point),
    Notification(Point),
}

// In their order: the event's, then of leg 1 and of leg 2 how long a charge ran that is removed.
#[derive(Clone, Copy)]
pub struct Reports {
    pub event: Option<Report>,
    pub charge1: Option<Tenths>,
    pub charge2: Option<Tenths>,
}

// What is said of an accepted item: `suspension` is the point at which the call is held, `deadline` is when the no-answer timer runs out, `over` is whether the call is over. (`over` is a value of the paper: the other fields are said either way.)
#[derive(Clone, Copy)]
pub struct Outcome {
    pub relationship: Relationship,
    pub suspension: Option<Point>,
    pub reports: Reports,
    pub deadline: Option<Tenths>,
    pub over: bool,
}

// An item is accepted or refused. Refusals are forms' unless another type is named.
pub type Answer<R = Refusal> = Result<Outcome, R>;

// The answer, and the record that remains: blank when the call is over, the old one when the item is refused. (No Option of a record: a free slot holds the blank one, document 01.)
#[derive(Clone, Copy)]
pub struct Stepped<R = Refusal> {
    pub answer: Answer<R>,
    pub next: Record,
}

pub(crate) fn silent_reports() -> Reports
    ensures { result ≡ silent }
{
    Reports {
        event: None,
        charge1: None,
        charge2: None,
    }
}

// Where a hold is, by the kind of call.
fn suspension_of(bcsm: Bcsm, h: Hold) -> Option<Point>
    ensures { result ≡ suspension_of (set_of bcsm) h }
{
    match h {
        Hold::None => None,
        Hold::Trigger => Some(points::trigger(bcsm)),
        Hold::At(p) => Some(points::point_in(bcsm, p)),
    }
}

pub(crate) fn go_on(next: Record, reports: Reports, deadline: Option<Tenths>) -> Stepped
    ensures { result ≡ goes_on (set_of next.bcsm) next reports deadline }
{
    let outcome = Outcome {
        relationship: relationship::relationship_of(next),
        suspension: suspension_of(next.bcsm, next.hold),
        reports,
        deadline,
        over: false,
    };
    Stepped {
        answer: Ok(outcome),
        next,
    }
}

pub(crate) fn go_on_quietly(next: Record) -> Stepped
    ensures { result ≡ quietly (set_of next.bcsm) next }
{
    go_on(next, silent_reports(), None)
}

pub(crate) fn end(r: Record, event: Option<Report>, t: Tenths) -> Stepped
    ensures { result ≡ ended r event t }
{
    let outcome = Outcome {
        relationship: Relationship::None,
        suspension: None,
        reports: Reports {
            event,
            charge1: charging::report_of(t, record::leg_at(Leg::One, r).charge),
            charge2: charging::report_of(t, record::leg_at(Leg::Two, r).charge),
        },
        deadline: None,
        over: true,
    };
    Stepped {
        answer: Ok(outcome),
        next: record::blank_record(),
    }
}

// The refusal is of any type: forms', or a number by itself.
pub fn refuse<R>(r: Record, refusal: R) -> Stepped<R>
    ensures { result ≡ refused r refusal }
{
    Stepped {
        answer: Err(refusal),
        next: r,
    }
}
