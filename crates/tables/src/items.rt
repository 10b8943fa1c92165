ghost use Rattle.std.specs.Prelude.{◌≡◌, Bool, slice_set};
ghost use Rattle.std.specs.Fn.{FnOnceReturnsAtMut};
ghost use Rattle.std.specs.List.{slice_get};
ghost use Rattle.tables.specs.Items.{with_state, with_next, with_mark, with_value, prepared_at};
ghost use Rattle.tables.specs.Lists.{modify};

use crate::item::{Item, ItemState};

// What stands at a place of a table, if there is such a place.
pub fn element_at<T: Copy>(table: &[T], place: usize) -> Option<T>
    ensures { result ≡ slice_get table.now place }
{
    table.get(place).copied()
}

// Writes one element of a table, if there is such a place.
pub fn put_element<T: Copy>(table: &mut [T], place: usize, element: T)
    ensures { table.new ≡ slice_set table.old place element }
{
    // no clause of `get_mut` says what a slice ends as
    if place < table.len() {
        table[place] = element;
    }
}

// Changes one element of a table, if there is such a place, as some function f says.
pub fn change<T, F: FnOnce(&mut T)>(table: &mut [T], place: usize, by: F)
    requires { F.IsAlwaysCallable by }
    ensures { (f : T → T) → ((x y : T) → FnOnceReturnsAtMut F.FnOnce by x tt y → y ≡ f x) → table.new ≡ modify f place table.old }
{
    // as in `put_element`
    if place < table.len() {
        by(&mut table[place]);
    }
}

pub fn put_state<K: Copy, V: Copy>(items: &mut [Item<K, V>], place: u32, state: ItemState)
    ensures { items.new ≡ modify (with_state state) place items.old }
{
    change(items, place as usize, |item| item.state = state);
}

pub fn put_next<K: Copy, V: Copy>(items: &mut [Item<K, V>], place: u32, next: u32)
    ensures { items.new ≡ modify (with_next next) place items.old }
{
    change(items, place as usize, |item| item.next = next);
}

pub fn put_mark<K: Copy, V: Copy>(items: &mut [Item<K, V>], place: u32, occupied: bool)
    ensures { items.new ≡ modify (with_mark occupied) place items.old }
{
    change(items, place as usize, |item| item.occupied = occupied);
}

pub fn put_value<K: Copy, V: Copy>(items: &mut [Item<K, V>], place: u32, value: V)
    ensures { items.new ≡ modify (with_value value) place items.old }
{
    change(items, place as usize, |item| item.value = value);
}

// Sets an item aside for a key and a value.
pub fn prepare<K: Copy, V: Copy>(items: &mut [Item<K, V>], place: u32, key: K, value: V)
    ensures { items.new ≡ modify (prepared_at place key value) place items.old }
{
    change(items, place as usize, |item| {
        *item = Item {
            state: ItemState::SetAside,
            key,
            value,
            next: place,
            ..*item
        };
    });
}
