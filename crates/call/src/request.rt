// Request report: all entries or none (document 01, One call and refusals 11 and 12).
ghost use Rattle.std.specs.Prelude.{◌≡◌, ◌&&◌, Some};
ghost use Rattle.call.specs.Points.{set_of};
ghost use Rattle.call.specs.Request.{entries_of, is_mode_for, is_timer_for, is_good, can_occur, is_possible, kept_after, armed_with, request_report};

use crate::answers::Stepped;
use crate::armings::{Arming, Mode};
use crate::points::*;
use crate::record::*;
use crate::roles::Role;
use crate::{answers, points, record, roles, stages};
use forms::item;
use forms::item::Entry;
use forms::units::*;

// The mode and the timer are such as the role may have. (The mode is the number that was sent: one that is no mode is refusal 11, and no enum has it.)
fn is_fit(p: Role, m: u8, t: Seconds) -> bool
    ensures { result ≡ (is_mode_for p m && is_timer_for p m t) }
{
    let moved = p == Role::Moved;
    let timed = (p == Role::NoAnswer) & (m <= 1);
    ((m <= 2) & !(moved & (m == 0))) & (t.is_timer() & ((t.0 == 0) | timed))
}

// Refusal 11 does not apply to an entry that names the role. `seen` are the roles that entries before it have named.
pub(crate) fn is_good(p: Role, seen: [bool; 10], e: Entry) -> bool
    ensures { result ≡ is_good (Some p) seen e }
{
    is_fit(p, e.mode, e.timer) & !seen[roles::place_of(p)]
}

// A Connect may follow where leg 2 is absent.
fn can_occur(r: Record, p: Role) -> bool
    ensures { result ≡ can_occur r p }
{
    let occurs = roles::part_of(p).occurs;
    r.leg1.is_present() & (!r.leg2.is_present() | stages::is_within(occurs, r.stage))
}

// Refusal 12 does not apply to an entry that names the role.
pub(crate) fn is_possible(r: Record, p: Role, m: u8) -> bool
    ensures { result ≡ is_possible r (Some p) m }
{
    !(m <= 1) | can_occur(r, p)
}

fn kept_after(timer: Seconds, kept: Seconds) -> Seconds
    ensures { result ≡ kept_after timer kept }
{
    if timer.0 == 0 { kept } else { timer }
}

// All entries, one after the other. Each stores where the record lies, as a copy of it each turn takes time. (`n` stands beside the bytes: it is the item's count, and where the bytes are fewer `entries_of` still has n entries.)
#[tactic(auto, using(crate::proofs::Laws::arm_some, crate::proofs::Laws::arm_none, crate::proofs::Laws::arm_end))]
pub(crate) fn arm_all(r: Record, n: u8, t: &[u8]) -> Record
    ensures { result ≡ armed_with (set_of r.bcsm) r (entries_of n t.now) }
{
    let bcsm = r.bcsm;
    let mut s = r;
    for i in 0..n {
        let e = item::nth_entry(t, i);
        if let Some(p) = points::role_in(bcsm, e.leg, e.point) {
            s.armings[roles::place_of(p)] = Arming {
                mode: Mode::from(e.mode),
            };
            s.kept = kept_after(e.timer, s.kept);
        }
    }
    s
}

// A Request report that no refusal applies to.
#[tactic(auto, using(crate::proofs::Laws::entries_keep_kind))]
pub(crate) fn request_report(r: Record, n: u8, entries: &[u8], t: Tenths) -> Stepped
    ensures { result ≡ request_report (set_of r.bcsm) r n entries.now t }
{
    answers::go_on_quietly(arm_all(record::with_last(r, t), n, entries))
}
