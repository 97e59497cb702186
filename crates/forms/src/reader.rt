// "The reader keeps the lent item bytes and its place in them" (document 01, Forms).
// An answer gives the next place; a reader made at it goes on from there. Each method takes the reader apart and calls a function on the bytes and the place.
ghost use Rattle.std.specs.Prelude.{◌≡◌, drop};
ghost use Rattle.forms.specs.Item.{read_item_at, read_entry};

use crate::bytes;
use crate::item::{Entry, Item, read_entry, read_item_at};
use crate::refusal::Refusal;

#[derive(Clone, Copy)]
pub struct Reader<'a> {
    pub src: &'a [u8],
    pub at: usize,
}

impl<'a> Reader<'a> {
    // A reader of the lent bytes, at a place.
    pub fn new(src: &'a [u8], at: usize) -> Reader<'a>
        ensures { (result.src ≡ src.entry) × (result.at ≡ at) }
    {
        Reader { src, at }
    }

    // The item at the place, and the place of its digits or entries; or refusal 1.
    pub fn item(self) -> Result<(Item, usize), Refusal>
        ensures { result ≡ read_item_at self.entry.src.now self.entry.at }
    {
        read_item_at(self.src, self.at)
    }

    // What is left from the place on, digits or entries: a part of the lent bytes.
    pub fn rest(self) -> &'a [u8]
        ensures { result.now ≡ drop self.entry.at self.entry.src.now }
    {
        bytes::from(self.src, self.at)
    }

    // The entry at the place and the place after it, or none at the end.
    pub fn entry(self) -> Option<(Entry, usize)>
        ensures { result ≡ read_entry self.entry.src.now self.entry.at }
    {
        read_entry(self.src, self.at)
    }
}
