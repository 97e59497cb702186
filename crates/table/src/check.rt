// Refusal 3: is the table sound? (document 01, The call table)
ghost use Rattle.std.specs.Prelude.{◌≡◌};
ghost use Rattle.table.specs.Table.{is_sound_slot};
ghost use Rattle.table.specs.Slot.{our_slots};
ghost use Rattle.table.specs.Feed.{is_sound_table};
ghost use Rattle.table.specs.Check.{is_once};

use crate::slot::*;
use call::range;

// A free record is blank, an owned one in range.
fn is_sound_slot(slot: &Slot) -> bool
    ensures { result ≡ is_sound_slot our_slots slot.now }
{
    match slot.owner {
        None => range::is_blank(slot.body),
        Some(_) => range::record_in_range(slot.body),
    }
}

// No call twice. From the last to the first; a call is looked for among those behind it only where a mark says that it may stand there: marks are by call % 256.
fn is_once(l: &[u32]) -> bool
    ensures { result ≡ is_once l.now }
{
    let mut seen = [false; 256];
    for i in (0..l.len()).rev() {
        let k = l[i];
        let h = (k % 256) as usize;
        if seen[h] && l[i + 1..].contains(&k) {
            return false;
        }
        seen[h] = true;
    }
    true
}

// 64 records, each sound, and no call twice: one pass, which collects the calls, n so far. (With no heap they stand in an array.)
#[tactic(auto, using(crate::proofs::CheckLaws::short, crate::proofs::CheckLaws::checked, crate::proofs::CheckLaws::check_end))]
pub fn is_sound(table: &[Slot]) -> bool
    ensures { result ≡ is_sound_table table.now }
{
    if table.len() != 64 {
        return false;
    }
    let mut calls = [0u32; 64];
    let mut n = 0;
    for slot in table {
        if !is_sound_slot(slot) {
            return false;
        }
        if let Some(k) = slot.owner {
            calls[n] = k;
            n += 1;
        }
    }
    is_once(&calls[..n])
}
