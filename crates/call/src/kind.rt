// What an item asks of a call (document 01, Forms).
ghost use Rattle.std.specs.Prelude.{◌≡◌};
ghost use Rattle.call.specs.Kind.{kind_of};

use crate::events::Event;
use forms::item::*;
use forms::units::Tenths;

#[derive(Clone, Copy)]
pub(crate) enum Kind {
    Setup(Setup),
    Event(Event),
    PeriodOver(Leg),
    // Count of entries.
    RequestReport(u8),
    Continue,
    // Nature, digit count.
    Connect(u8, u8),
    Release,
    // Leg, period.
    ApplyCharging(Leg, Tenths),
    ActivityTest,
    Abort,
}

impl From<Body> for Kind {
    ghost from_gives = { λ body kind. kind ≡ kind_of body };

    fn from(body: Body) -> Kind {
        match body {
            Body::Setup(s) => Kind::Setup(s),
            Body::RouteFailure(_) => Kind::Event(Event::RouteFailure),
            Body::Busy(_) => Kind::Event(Event::Busy),
            Body::NoAnswer => Kind::Event(Event::NoAnswer),
            Body::Seized => Kind::Event(Event::Seized),
            Body::Answer => Kind::Event(Event::Answer),
            Body::MidCall(_) => Kind::Event(Event::MidCall),
            Body::Moved => Kind::Event(Event::Moved),
            Body::Clear(leg, _) => Kind::Event(Event::Clear(leg)),
            Body::PeriodOver(leg) => Kind::PeriodOver(leg),
            Body::RequestReport(count) => Kind::RequestReport(count),
            Body::Continue => Kind::Continue,
            Body::Connect(nature, count) => Kind::Connect(nature, count),
            Body::Release => Kind::Release,
            Body::ApplyCharging(leg, period) => Kind::ApplyCharging(leg, period),
            Body::ActivityTest => Kind::ActivityTest,
            Body::Abort => Kind::Abort,
        }
    }
}
