ghost use Rattle.std.specs.Prelude.{◌≡◌, ◌≤◌, ◌↔◌, IsTrue};

use keys::berth::Berth;
use tables::item::{Item, ItemState};
use tables::request::Request;

pub const HEADS: usize = 10;

pub const ITEMS: usize = 14;

pub const REQUESTS: usize = 18;

// The word of the head table that stands for no head.
pub const NONE: u32 = u32::MAX;

// The three tables, each with more room than an index of this program needs, so that a call can be
// handed too little or too much of one. The request table is the longest.
#[derive(Clone, Copy, PartialEq, Eq)]
pub struct Lent {
    pub heads: [u32; HEADS],
    pub items: [Item<Berth, u32>; ITEMS],
    pub requests: [Request<Berth, u32>; REQUESTS],
}

const NO_KEY: Berth = Berth {
    harbour: 0,
    berth: 0,
};

const NO_ITEM: Item<Berth, u32> = Item {
    state: ItemState::Out,
    key: NO_KEY,
    value: 0,
    next: 0,
    occupied: false,
};

const NO_REQUEST: Request<Berth, u32> = Request {
    key: NO_KEY,
    value: 0,
};

// Tables to be filled.
pub const UNUSED: Lent = Lent {
    heads: [NONE; HEADS],
    items: [NO_ITEM; ITEMS],
    requests: [NO_REQUEST; REQUESTS],
};

// How much of each table a call is handed: never more than there is.
#[derive(Clone, Copy, PartialEq, Eq)]
pub struct Lengths {
    pub heads: usize,
    pub items: usize,
    pub requests: usize,
    ghost fit: { (heads ≤ 10) × (items ≤ 14) × (requests ≤ 18) },
}

impl Lengths {
    pub fn new(heads: usize, items: usize, requests: usize) -> Lengths {
        Lengths {
            heads: heads.min(HEADS),
            items: items.min(ITEMS),
            requests: requests.min(REQUESTS),
        }
    }
}

// Field by field, not by the derived `==`, so that what is compared stands here.
fn same_item(a: &Item<Berth, u32>, b: &Item<Berth, u32>) -> bool
    ensures { IsTrue result ↔ (a.now ≡ b.now) }
{
    a.state == b.state
        && a.key == b.key
        && a.value == b.value
        && a.next == b.next
        && a.occupied == b.occupied
}

// An index loop: by `zip` and `all` it takes longer.
fn same_items(a: &[Item<Berth, u32>; ITEMS], b: &[Item<Berth, u32>; ITEMS]) -> bool
    ensures { IsTrue result ↔ (a.now ≡ b.now) }
{
    for i in 0..ITEMS {
        if !same_item(&a[i], &b[i]) {
            return false;
        }
    }
    true
}

impl Lent {
    // Whether all three tables agree, element by element.
    pub fn same(&self, other: &Lent) -> bool
        ensures { IsTrue result ↔ (self.now ≡ other.now) }
    {
        self.heads == other.heads
            && same_items(&self.items, &other.items)
            && self.requests == other.requests
    }
}

// Reads and writes of one element. Plain indexing was tried: the proof that a place is inside does not
// close, as damaged tables hold any number, and no bound on a bucket or a session is known here.
impl Lent {
    pub fn item(&self, place: u32) -> Item<Berth, u32> {
        self.items.get(place as usize).copied().unwrap_or(NO_ITEM)
    }

    pub(crate) fn change_item<F: FnOnce(&mut Item<Berth, u32>) + Drop>(
        &mut self,
        place: u32,
        change: F,
    )
        requires { F.IsAlwaysCallable change }
    {
        if let Some(item) = self.items.get_mut(place as usize) {
            change(item);
        }
    }

    pub fn head(&self, home: usize) -> u32 {
        self.heads.get(home).copied().unwrap_or(NONE)
    }

    pub fn put_head(&mut self, home: usize, head: Option<u32>) {
        if let Some(word) = self.heads.get_mut(home) {
            *word = head.unwrap_or(NONE);
        }
    }

    pub fn request(&self, session: u8) -> Request<Berth, u32> {
        self.requests
            .get(session as usize)
            .copied()
            .unwrap_or(NO_REQUEST)
    }

    pub fn put_request(&mut self, session: u8, request: Request<Berth, u32>) {
        if let Some(old) = self.requests.get_mut(session as usize) {
            *old = request;
        }
    }
}
