// Where an item's call stands in the table, or where a Setup may go.
ghost use Rattle.std.specs.Prelude.{◌≡◌, ◌<◌, length, IfSome};
ghost use Rattle.table.specs.Table.{find};
ghost use Rattle.table.specs.Lookup.{IsBelow, locate_of, is_of};

use crate::slot::*;

// The call's slot; else the lowest free one; else none.
// Its own enum: an Option in a Result would say the same three cases no plainer.
#[derive(Clone, Copy)]
pub enum Spot {
    Nowhere,
    Free(usize),
    Own(usize),
}

// The place of the first slot that has the owner.
pub(crate) fn first_of(table: &[Slot], wanted: Option<u32>) -> Option<usize>
    ensures place { result ≡ find (is_of wanted) table.now }
    ensures inside { IfSome result (λ i. i < length table.now) }
{
    table.iter().position(|slot| slot.owner == wanted)
}

// The call's slot, or else the lowest free one, which is looked for only then.
pub(crate) fn locate(table: &[Slot], call: u32) -> Spot
    ensures spot { result ≡ locate_of call table.now }
    ensures inside { IsBelow (length table.now) result }
{
    match first_of(table, Some(call)) {
        Some(i) => Spot::Own(i),
        None => match first_of(table, None) {
            Some(i) => Spot::Free(i),
            None => Spot::Nowhere,
        },
    }
}
