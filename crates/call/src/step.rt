// One call's answer and next record for an item (document 01, One call).
ghost use Rattle.std.specs.Prelude.{◌≡◌};
ghost use Rattle.call.specs.Points.{set_of};
ghost use Rattle.call.specs.Step.{served, respond_of, step_of};

use crate::answers::*;
use crate::kind::Kind;
use crate::operations::ClockReading;
use crate::record::Record;
use crate::{answers, events, operations, range, record, refusals, request};
use forms::item;
use forms::item::Item;
use forms::refusal::Refusal;

// An accepted item: its digits or entries stand in `rest`. (A match on the kind: the steps take different parameters, and no value chooses one elsewhere.)
fn serve(r: Record, k: Kind, t: ClockReading, rest: &[u8]) -> Stepped
    ensures { result ≡ served (set_of r.bcsm) r k t.time rest.now }
{
    match k {
        Kind::Setup(_) => answers::refuse(r, Refusal::CallOpen),
        Kind::Event(e) => events::meet(r, events::role_of(e, r.stage), t.time),
        Kind::PeriodOver(leg) => operations::period_over(r, leg, t.time),
        Kind::RequestReport(n) => request::request_report(r, n, rest, t.time),
        Kind::Continue => operations::continue_on(r, t),
        Kind::Connect(nature, count) => operations::connect(r, nature, count, rest, t),
        Kind::Release => answers::end(r, None, t.time),
        Kind::ApplyCharging(leg, period) => operations::apply_charging(r, leg, period, t.time),
        Kind::ActivityTest => answers::go_on_quietly(record::with_last(r, t.time)),
        Kind::Abort => operations::abort(r, t),
    }
}

// Refusals 5 and 7 to 14, and the answer where none applies. For an owner who knows that the record and the item are in range: of the ranges only the time's is looked at. (One place refuses: with two, an item takes some 8 instructions more.)
#[tactic(auto, using(crate::proofs::Laws::passes), unfolding(crate::specs::Step::respond_in))]
pub fn respond(r: Record, item: Item, rest: &[u8]) -> Stepped
    ensures { result ≡ respond_of r item rest.now }
{
    let k = Kind::from(item.body);
    match refusals::first_refusal(r, k, item.time, rest) {
        Ok(()) => serve(r, k, ClockReading { time: item.time }, rest),
        Err(refusal) => answers::refuse(r, refusal),
    }
}

// Any item for any record of an open call. (`item` and `rest` are two parameters: the item is a value, and the rest stays in the lent bytes, as `forms` hands them out.)
// A Setup is 5 here, whatever its profile: refusal 2 comes first, and is the caller's to give.
#[tactic(auto, unfolding(crate::specs::Step::step_of))]
pub fn step(r: Record, item: Item, rest: &[u8]) -> Stepped
    ensures { result ≡ step_of r item rest.now }
{
    if !item::in_range(item, rest) {
        return answers::refuse(r, Refusal::MalformedItem);
    }
    if !range::record_in_range(r) {
        return answers::refuse(r, Refusal::DamagedTable);
    }
    respond(r, item, rest)
}
