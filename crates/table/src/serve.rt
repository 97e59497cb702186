// The one slot that an item may change (document 01, The call table).
ghost use Rattle.std.specs.Prelude.{◌≡◌, ◌<◌, length};
ghost use Rattle.table.specs.Serve.{owner_after, slot_after, stored_at};

use crate::slot::Slot;
use call::answers::{Answer, Stepped};

// The slot of a call that is over is free again.
fn owner_after(call: u32, answer: Answer) -> Option<u32>
    ensures { result ≡ owner_after call answer }
{
    match answer {
        Ok(o) if o.over => None,
        Ok(_) => Some(call),
        Err(_) => None,
    }
}

// After an accepted item, whose record is blank when the call is over.
fn slot_after(call: u32, made: Stepped) -> Slot
    ensures { result ≡ slot_after call made }
{
    Slot {
        owner: owner_after(call, made.answer),
        body: made.next,
    }
}

// What was made of an item of the call is stored in slot i, where it was accepted.
pub(crate) fn store(table: &mut [Slot], i: usize, call: u32, made: Stepped) -> Answer
    requires { i < length table.old }
    ensures { (result, table.new) ≡ stored_at table.old i call made }
{
    if made.answer.is_ok() {
        table[i] = slot_after(call, made);
    }
    made.answer
}
