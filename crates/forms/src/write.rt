// Writing items (document 01, Forms).
ghost use Rattle.std.specs.Prelude.{◌≡◌, ◌++◌, ◌+◌, ◌≤◌, length};
ghost use Rattle.std.proofs.lemmas.List.Edits.{sets};
ghost use Rattle.forms.specs.Item.{form_of, item_bytes, rest_at, head_of, fixed_of};
ghost use Rattle.forms.specs.Write.{written, after};

use crate::item::Item;
use crate::refusal::Refusal;
use crate::{bytes, item};

// The first 14 bytes of n in all: length, version, kind, call, time.
fn head_of(n: usize, kind: u8, call: u32, time: u64) -> [u8; 14]
    ensures { result ≡ head_of n kind call time }
{
    let n = n.to_be_bytes();
    let c = call.to_be_bytes();
    let t = time.to_be_bytes();
    [
        n[6], n[7], 1, kind, c[0], c[1], c[2], c[3], t[2], t[3], t[4], t[5], t[6], t[7],
    ]
}

// Stores three parts, one after the other, at the start of `d`.
#[tactic(auto, using(crate::proofs::WriteLaws::parts))]
fn put_parts(d: &mut [u8], a: &[u8], b: &[u8], t: &[u8])
    requires { length a.now + length b.now + length t.now ≤ length d.old }
    ensures { d.new ≡ sets d.old 0 (a.now ++ b.now ++ t.now) }
{
    bytes::copy_in(d, 0, a);
    bytes::copy_in(d, a.len(), b);
    bytes::copy_in(d, a.len() + b.len(), t);
}

// Stores the item's n bytes at the start of `d`; f is the item's row of the table of kinds.
#[tactic(auto, using(crate::proofs::ItemLaws::fields_back), unfolding(crate::specs::Item::rest_at))]
fn put_item(d: &mut [u8], item: Item, f: item::Fixed, n: usize, t: &[u8])
    requires { ((f ≡ fixed_of (form_of item.body)) × (n ≡ rest_at item.body + length t.now)) × (n ≤ length d.old) }
    ensures { d.new ≡ sets d.old 0 (item_bytes item t.now) }
{
    let head = head_of(n, f.kind, item.call, item.time.0);
    put_parts(d, &head, bytes::part_of(&f.bytes, 0, usize::from(f.len)), t);
}

// Writes the item, whose digits or entries are `t`, at the start of `d`, and answers its length. Refusal 1, malformed item, where a value is out of range or `d` too short.
#[tactic(auto, using(crate::proofs::ItemLaws::rest_at_lem))]
pub fn write_item(item: Item, t: &[u8], d: &mut [u8]) -> Result<usize, Refusal>
    ensures { (result ≡ written item t.now d.old) × (d.new ≡ after item t.now d.old) }
{
    let f = item::fixed_of(item.body);
    let n = item::rest_at(f) + t.len();
    if item::item_in_range(item, f, t) {
        if n <= d.len() {
            put_item(d, item, f, n, t);
            Ok(n)
        } else {
            Err(Refusal::MalformedItem)
        }
    } else {
        Err(Refusal::MalformedItem)
    }
}
