// Tenths of a second and whole seconds, kept apart (document 01, Units).
// `Tenths::period` and `Seconds::timer` are twins: document 01 wants each unit's ceiling and checked constructor on its own type.
ghost use Rattle.std.specs.Prelude.{◌≡◌};
ghost use Rattle.forms.specs.Units.{is_clock_reading, is_period, period_of, is_timer, timer_of, is_default_timer, tenths_of};

use crate::refusal::Refusal;

// Clock readings, charged periods and elapsed times.
#[derive(Clone, Copy, PartialEq, Eq, PartialOrd, Ord)]
pub struct Tenths(pub u64);

// No-answer timers.
#[derive(Clone, Copy, PartialEq, Eq, PartialOrd, Ord)]
pub struct Seconds(pub u32);

impl Tenths {
    pub const LONGEST_PERIOD: Tenths = Tenths(864000);

    // Past the last clock reading, which is six bytes long.
    pub const CLOCK_END: Tenths = Tenths(281474976710656);

    pub fn is_clock_reading(self) -> bool
        ensures { result ≡ is_clock_reading self }
    {
        self.0 < Self::CLOCK_END.0
    }

    pub fn is_period(self) -> bool
        ensures { result ≡ is_period self }
    {
        (1 <= self.0) & (self.0 <= Self::LONGEST_PERIOD.0)
    }

    // A period of n tenths, or refusal 1, malformed item.
    pub fn period(n: u64) -> Result<Tenths, Refusal>
        ensures { result ≡ period_of n }
    {
        let p = Tenths(n);
        if p.is_period() {
            Ok(p)
        } else {
            Err(Refusal::MalformedItem)
        }
    }
}

impl Seconds {
    pub const LONGEST_TIMER: Seconds = Seconds(2047);

    pub fn is_timer(self) -> bool
        ensures { result ≡ is_timer self }
    {
        self.0 <= Self::LONGEST_TIMER.0
    }

    // A profile's default timer.
    pub fn is_default_timer(self) -> bool
        ensures { result ≡ is_default_timer self }
    {
        (10 <= self.0) & (self.0 <= 180)
    }

    // A timer of n seconds, or refusal 11, bad entry.
    pub fn timer(n: u32) -> Result<Seconds, Refusal>
        ensures { result ≡ timer_of n }
    {
        let t = Seconds(n);
        if t.is_timer() {
            Ok(t)
        } else {
            Err(Refusal::BadEntry)
        }
    }

    // The only way across: seconds × 10 = tenths.
    pub fn tenths(self) -> Tenths
        ensures { result ≡ tenths_of self }
    {
        Tenths(self.0 as u64 * 10)
    }
}
