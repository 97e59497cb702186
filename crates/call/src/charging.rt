// A leg's pending charge, its clock and its report (document 01, Charging).
ghost use Rattle.std.specs.Prelude.{◌≡◌};
ghost use Rattle.call.specs.Charging.{answered, granted, is_before_end, report_of};

use crate::record;
use crate::record::*;
use crate::stages::Stage;
use forms::units::Tenths;

// An Answer starts a clock that waits.
pub(crate) fn answer(t: Tenths, c: Charge) -> Charge
    ensures { result ≡ answered t c }
{
    match c.clock {
        Clock::Waiting => record::running(c.period, t),
        Clock::None | Clock::Running => c,
    }
}

// The charge that is accepted at a stage.
pub(crate) fn grant(s: Stage, period: Tenths, t: Tenths) -> Charge
    ensures { result ≡ granted s period t }
{
    if s == Stage::Active {
        record::running(period, t)
    } else {
        record::waiting(period)
    }
}

// The clock runs, and t is before start + period. The sum is not taken: it need not fit.
pub(crate) fn is_before_end(t: Tenths, c: Charge) -> bool
    ensures { result ≡ is_before_end c t }
{
    match c.clock {
        Clock::None | Clock::Waiting => false,
        Clock::Running => (t.0 < c.start.0) || (t.0 - c.start.0 < c.period.0),
    }
}

// The report of a charge that is removed, if one is pending: the smaller of the time since its start and its period.
pub(crate) fn report_of(t: Tenths, c: Charge) -> Option<Tenths>
    ensures { result ≡ report_of t c }
{
    match c.clock {
        Clock::None => None,
        Clock::Waiting => Some(Tenths(0)),
        Clock::Running => Some(Tenths(t.0.saturating_sub(c.start.0).min(c.period.0))),
    }
}
