ghost use Rattle.std.specs.Prelude.{◌≡◌, ◌≤◌, length, replicate};
ghost use Rattle.rules.specs.Making.{are_makable, blank_from, new_core};

use tables::heads::NO_HEAD;
use tables::item::{Item, ItemState};
use tables::record::Core;

// Whether tables of these lengths can hold an index of `bits` head bits.
pub(crate) fn is_makable(bits: u8, heads: usize, items: usize, requests: usize) -> bool
    requires { bits ≤ 8 }
    ensures { result ≡ are_makable bits heads items requests }
{
    heads == 1usize << bits && items >= 1 && items <= 4096 && requests == 16
}

// The record of a new index: all sessions idle, and the hand at the last place.
pub(crate) fn new_core(bits: u8, places: u32) -> Core
    requires { 1 ≤ places }
    ensures { result ≡ new_core bits places }
{
    Core {
        bits,
        places,
        hand: places - 1,
        made: true,
        ..Core::default()
    }
}

pub(crate) fn clear_heads(heads: &mut [u32])
    ensures { heads.new ≡ replicate (length heads.old) 4294967295 }
{
    heads.fill(NO_HEAD);
}

// Puts each item out, with itself as next.
pub(crate) fn clear_items<K: Copy, V: Copy>(items: &mut [Item<K, V>])
    requires { length items.old ≤ 4096 }
    ensures { items.new ≡ blank_from 0 items.old }
{
    for (place, item) in items.iter_mut().enumerate() {
        item.state = ItemState::Out;
        item.next = place as u32;
        item.occupied = false;
    }
}
