// Setup: a call is opened (document 01, Triggering; A call by itself).
ghost use Rattle.std.specs.Prelude.{◌≡◌, false, cond, Some, Ok, Err};
ghost use Rattle.forms.specs.Profile.{profile_of, is_profile};
ghost use Rattle.call.specs.Record.{number_of};
ghost use Rattle.call.specs.Setup.{opened, begun, opening_of, early_of, set_up_of, open_of};

use crate::answers::*;
use crate::kind::Kind;
use crate::operations::ClockReading;
use crate::record::*;
use crate::stages::Stage;
use crate::{answers, armings, operations, points, record, trigger};
use forms::item::*;
use forms::profile::*;
use forms::refusal::Refusal;
use forms::units::*;
use forms::{item, profile};

// What a Setup's profile says of the call: whether its criteria hold, and the record's defaults, which are there either way.
#[derive(Clone, Copy)]
pub struct Opening {
    pub triggered: bool,
    pub timer: Seconds,
    pub handling: Handling,
}

// The record that a Setup opens.
fn opened_record(bcsm: Bcsm, o: Opening, number: Number, hold: Hold, t: Tenths) -> Record
    ensures { result ≡ opened bcsm o.timer o.handling number hold t }
{
    Record {
        last: t,
        period1: Tenths(0),
        start1: Tenths(0),
        period2: Tenths(0),
        start2: Tenths(0),
        kept: Seconds(0),
        timer: o.timer,
        armings: armings::no_armings(),
        number,
        stage: Stage::Analysing,
        hold,
        handling: o.handling,
        leg1: Presence::Present,
        leg2: Presence::Present,
        clock1: Clock::None,
        clock2: Clock::None,
        bcsm,
    }
}

// Held at the trigger and reported, or routed by the profile's timer.
fn begin(s: Setup, o: Opening, rest: &[u8], t: ClockReading) -> Stepped
    ensures { result ≡ begun s.bcsm o.triggered o.timer o.handling (number_of s.nature s.count rest.now) t.time }
{
    let number = record::number_of(s.nature, s.count, rest);
    if o.triggered {
        let held = opened_record(s.bcsm, o, number, Hold::Trigger, t.time);
        let reports = Reports {
            event: Some(Report::Interrupting(points::trigger(s.bcsm))),
            ..answers::silent_reports()
        };
        return answers::go_on(held, reports, None);
    }
    operations::route(opened_record(s.bcsm, o, number, Hold::None, t.time), t)
}

// What the profile of a Setup says, if it is one: else refusal 2.
#[tactic(auto, unfolding(forms::specs::Profile::profile_of, forms::specs::Profile::read_profile))]
fn read_opening(s: Setup, rest: &[u8], profile: &[u8]) -> Result<Opening, Refusal>
    ensures { result ≡ (let bytes = profile.now in cond (is_profile (profile_of bytes) bytes) (Ok (opening_of (profile_of bytes) s rest.now)) (Err Refusal.MalformedProfile)) }
{
    let p = profile::read_profile(profile)?;
    Ok(Opening {
        triggered: trigger::is_triggered(profile, p, s, rest),
        timer: p.timer,
        handling: p.handling,
    })
}

// An item that is not malformed, with its digits and the bytes of its profile: what comes before any call is looked at. A refusal, a Setup with what its profile says, or any other item.
#[tactic(auto, using(crate::proofs::SetupLaws::early_read, crate::proofs::SetupLaws::early_refused, crate::proofs::SetupLaws::early_other))]
pub fn early_of(item: Item, rest: &[u8], profile: &[u8]) -> Result<Option<Opening>, Refusal>
    ensures { result ≡ early_of false item rest.now profile.now }
{
    match Kind::from(item.body) {
        Kind::Setup(s) => Ok(Some(read_opening(s, rest, profile)?)),
        _ => Ok(None),
    }
}

// A Setup opens a call, as `early_of` said; all else is 4. For an owner who knows that the item is in range: of the ranges only the time's is looked at.
#[tactic(auto, unfolding(crate::specs::Setup::set_up_of))]
pub fn set_up(item: Item, rest: &[u8], o: Opening) -> Stepped
    ensures { result ≡ set_up_of item rest.now o }
{
    if !item.time.is_clock_reading() {
        return answers::refuse(record::blank_record(), Refusal::MalformedItem);
    }
    let t = ClockReading { time: item.time };
    match Kind::from(item.body) {
        Kind::Setup(s) => begin(s, o, rest, t),
        _ => answers::refuse(record::blank_record(), Refusal::CallNotOpen),
    }
}

// Any item, where no call is open: a Setup opens one.
#[tactic(auto, unfolding(crate::specs::Setup::early_of, crate::specs::Setup::open_of))]
pub fn open(item: Item, rest: &[u8], profile: &[u8]) -> Stepped
    ensures { result ≡ open_of item rest.now profile.now }
{
    if !item::in_range(item, rest) {
        return answers::refuse(record::blank_record(), Refusal::MalformedItem);
    }
    match early_of(item, rest, profile) {
        Err(refusal) => answers::refuse(record::blank_record(), refusal),
        Ok(Some(o)) => set_up(item, rest, o),
        Ok(None) => answers::refuse(record::blank_record(), Refusal::CallNotOpen),
    }
}
