// An item on the lent table: its answer, and one slot changed at most (document 01, The call table). In the paper's order: the item is read (1), of a Setup the profile (2), the table is checked (3), the call is found and served.
ghost use Rattle.std.specs.Prelude.{◌≡◌, true};
ghost use Rattle.table.specs.Feed.{is_sound_table, turn, Feeds, feed_item_of};
ghost use Rattle.table.specs.Serve.{served_of, fed_of};

use crate::lookup::Spot;
use crate::slot::Slot;
use crate::{check, lookup, serve};
use call::answers::Answer;
use call::setup::Opening;
use call::{setup, step};
use forms::item::Item;
use forms::refusal::Refusal;
use forms::{bytes, item};

// On a sound table, an item that was read, and of a Setup what its profile says: its call is found and served, and stored where it was accepted.
// (An item and its digits or entries go side by side, as the public `feed_item` and `call::step::respond` take them.)
pub(crate) fn serve_item(
    table: &mut [Slot],
    item: Item,
    rest: &[u8],
    opening: Option<Opening>,
) -> Answer
    ensures { (result, table.new) ≡ served_of table.old item rest.now opening }
{
    let call = item.call;
    match (opening, lookup::locate(table, call)) {
        (Some(o), Spot::Free(i)) => {
            let made = setup::set_up(item, rest, o);
            serve::store(table, i, call, made)
        }
        (Some(_), Spot::Own(_)) => Err(Refusal::CallOpen),
        (Some(_), Spot::Nowhere) => Err(Refusal::TableFull),
        (None, Spot::Own(i)) => {
            let made = step::respond(table[i].body, item, rest);
            serve::store(table, i, call, made)
        }
        (None, _) => Err(Refusal::CallNotOpen),
    }
}

// On a table that is known to be sound, as a fresh one is and this leaves it: refusal 3 is not looked for.
#[tactic(auto, using(crate::proofs::Ours::fed_stays, crate::proofs::ServeLaws::served_read, crate::proofs::ServeLaws::refused_early, crate::proofs::ServeLaws::refused_read))]
pub fn feed_sound(table: &mut [Slot], item: &[u8], profile: &[u8]) -> Answer
    requires { is_sound_table table.old ≡ true }
    ensures { Feeds (turn table.old item.now profile.now result table.new) × (is_sound_table table.new ≡ true) }
{
    let (read, at) = item::read_item(item)?;
    let rest = bytes::from(item, at);
    let opening = setup::early_of(read, rest, profile)?;
    serve_item(table, read, rest, opening)
}

// On any table, an item that was read.
pub(crate) fn feed_read(table: &mut [Slot], item: Item, rest: &[u8], profile: &[u8]) -> Answer
    ensures { (result, table.new) ≡ fed_of table.old item rest.now profile.now }
{
    let opening = setup::early_of(item, rest, profile)?;
    if check::is_sound(table) {
        serve_item(table, item, rest, opening)
    } else {
        Err(Refusal::DamagedTable)
    }
}

// On any table, of any length.
#[tactic(auto, using(crate::proofs::ServeLaws::fed_read, crate::proofs::ServeLaws::refused_read))]
pub fn feed(table: &mut [Slot], item: &[u8], profile: &[u8]) -> Answer
    ensures { Feeds (turn table.old item.now profile.now result table.new) }
{
    let (read, at) = item::read_item(item)?;
    feed_read(table, read, bytes::from(item, at), profile)
}

// The same for somebody who has the item already, with its digits or entries, as the feeder hands it out.
#[tactic(auto, using(crate::proofs::ServeLaws::fed_item))]
pub fn feed_item(table: &mut [Slot], item: Item, rest: &[u8], profile: &[u8]) -> Answer
    ensures { (result, table.new) ≡ feed_item_of table.old item rest.now profile.now }
{
    if item::in_range(item, rest) {
        feed_read(table, item, rest, profile)
    } else {
        Err(Refusal::MalformedItem)
    }
}
