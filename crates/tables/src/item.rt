ghost use Rattle.std.specs.Prelude.{◌≡◌};
ghost use Rattle.tables.specs.Reads.{read_next};

use calls::fault::IndexFault;

// Where an item is: free for use, set aside by a session that will link it, or in a ring.
#[derive(Clone, Copy, Debug, PartialEq, Eq)]
pub enum ItemState {
    Out,
    SetAside,
    InRing,
}

// An entry of the item table. `next` is a place of that table, which is lent, so a ring is no list of
// boxes. `occupied` marks an item that a session has claimed.
#[derive(Clone, Copy, Debug, PartialEq, Eq)]
pub struct Item<K, V> {
    pub state: ItemState,
    pub key: K,
    pub value: V,
    pub next: u32,
    pub occupied: bool,
}

impl<K: Copy, V: Copy> Item<K, V> {
    // The next, as a place of a table of `places`.
    pub fn next_in(&self, places: u32) -> Result<u32, IndexFault>
        ensures { result ≡ read_next places self.now }
    {
        if self.next < places {
            Ok(self.next)
        } else {
            Err(IndexFault::OutsideTable)
        }
    }
}
