// A slot of the table: a record, free or owned by one call (document 01, The call table).
ghost use Rattle.std.specs.Prelude.{◌≡◌, true};
ghost use Rattle.table.specs.Table.{fresh};
ghost use Rattle.table.specs.Slot.{blank_slot, our_slots};
ghost use Rattle.table.specs.Feed.{is_sound_table};

use call::record;
use call::record::Record;

// The call that owns the slot, none where it is free, and that call's record.
#[derive(Clone, Copy)]
pub struct Slot {
    pub owner: Option<u32>,
    pub body: Record,
}

#[tactic(auto, unfolding(crate::specs::Slot::blank_slot))]
pub fn blank_slot() -> Slot
    ensures { result ≡ blank_slot }
{
    Slot {
        owner: None,
        body: record::blank_record(),
    }
}

// A fresh table: 64 free records.
#[tactic(auto, using(crate::proofs::Ours::made_fresh))]
pub fn fresh() -> [Slot; 64]
    ensures { (result ≡ fresh our_slots) × (is_sound_table result ≡ true) }
{
    [blank_slot(); 64]
}
