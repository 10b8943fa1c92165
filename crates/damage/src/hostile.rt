ghost use Rattle.std.specs.Prelude.{◌<◌, ◌≤◌};

use crate::lent::{Lent, NONE};
use dice::Dice;
use keys::berth::Berth;
use tables::item::{Item, ItemState};
use tables::request::Request;

// How tables are damaged: for an index of so many buckets and places, with this many of the keys, and
// with so many in sixteen heads and nexts about or past the end of the item table.
#[derive(Clone, Copy)]
pub struct Manner {
    pub buckets: u32,
    pub places: u32,
    pub keys: u32,
    pub wild: u32,
    ghost places_fit: { (0 < places) × (places ≤ 14) },
    ghost buckets_fit: { (0 < buckets) × (buckets ≤ 10) },
    ghost keys_fit: { (0 < keys) × (keys ≤ 10) },
}

// Few keys, so that they meet. The first two and the last have one hash; from one head bit on the third
// has their tag in another bucket.
const KEYS: [Berth; 10] = [
    Berth {
        harbour: 0,
        berth: 1,
    },
    Berth {
        harbour: 40503,
        berth: 0,
    },
    Berth {
        harbour: 32768,
        berth: 1,
    },
    Berth {
        harbour: 0,
        berth: 2,
    },
    Berth {
        harbour: 0,
        berth: 3,
    },
    Berth {
        harbour: 0,
        berth: 4,
    },
    Berth {
        harbour: 1,
        berth: 1,
    },
    Berth {
        harbour: 65535,
        berth: 65535,
    },
    Berth {
        harbour: 0,
        berth: 0,
    },
    Berth {
        harbour: 25033,
        berth: 2,
    },
];

impl Manner {
    pub fn key(self, dice: &mut Dice) -> Berth {
        KEYS[dice.below(self.keys) as usize]
    }

    // A head or a next.
    fn place(self, dice: &mut Dice) -> u32 {
        if dice.below(16) >= self.wild {
            return dice.below(self.places);
        }
        match dice.below(6) {
            0 => self.places - 1,
            1 => self.places,
            2 => self.places + 1,
            3 => NONE - 1,
            4 => NONE,
            _ => dice.roll(),
        }
    }

    fn item(self, dice: &mut Dice) -> Item<Berth, u32> {
        Item {
            state: any_state(dice),
            key: self.key(dice),
            value: dice.roll(),
            next: self.place(dice),
            occupied: dice.once_in(4),
        }
    }

    fn request(self, dice: &mut Dice) -> Request<Berth, u32> {
        Request {
            key: self.key(dice),
            value: dice.roll(),
        }
    }

    // Writes over everything.
    pub fn fill(self, lent: &mut Lent, dice: &mut Dice) {
        // one index over three tables: the order of the draws fixes what is printed
        for (i, request) in lent.requests.iter_mut().enumerate() {
            *request = self.request(dice);
            if let Some(head) = lent.heads.get_mut(i) {
                *head = self.place(dice);
            }
            if let Some(item) = lent.items.get_mut(i) {
                *item = self.item(dice);
            }
        }
    }

    // Writes over one part of one element.
    pub fn harm(self, lent: &mut Lent, dice: &mut Dice) {
        let place = dice.below(self.places) as usize;
        match dice.below(8) {
            0 => lent.items[place].state = any_state(dice),
            1 => lent.items[place].key = self.key(dice),
            2 => lent.items[place].value = dice.roll(),
            3 => lent.items[place].next = self.place(dice),
            4 => lent.items[place].occupied = dice.once_in(2),
            // two of one kind: key, next and all
            5 => lent.items[place] = lent.items[dice.below(self.places) as usize],
            6 => {
                let bucket = dice.below(self.buckets) as usize;
                lent.heads[bucket] = self.place(dice);
            }
            _ => {
                let session = dice.below(16) as usize;
                lent.requests[session] = self.request(dice);
            }
        }
    }
}

// Most are in ring, so that walks go on.
fn any_state(dice: &mut Dice) -> ItemState {
    match dice.below(6) {
        0 => ItemState::Out,
        1 => ItemState::SetAside,
        _ => ItemState::InRing,
    }
}
