ghost use Rattle.std.specs.Prelude.{◌≡◌, ◌+◌, ◌*◌, ◌%◌, ◌<◌};

use keys::berth::Berth;

// Sections 2 and 3 of docs/RULES.md, by numbers alone: bucket and tag are quotient and remainder of
// the hash.
fn hash(key: Berth) -> u32
    ensures { result ≡ (40503 * key.berth + key.harbour) % 65536 }
{
    (40503 * key.berth as u32 + key.harbour as u32) % 65536
}

// How many hashes fall into one bucket.
fn unit(bits: u8) -> u32
    ensures { 0 < result }
{
    1 << (16 - bits.min(16))
}

pub fn bucket(bits: u8, key: Berth) -> usize {
    (hash(key) / unit(bits)) as usize
}

// A key's place in the order of ranks: by its tag, then harbour, then berth.
#[derive(Clone, Copy, Debug, PartialEq, Eq, PartialOrd, Ord)]
pub struct Rank {
    tag: u32,
    harbour: u16,
    berth: u16,
}

impl Rank {
    pub(crate) fn new(bits: u8, key: Berth) -> Rank {
        Rank {
            tag: hash(key) % unit(bits),
            harbour: key.harbour,
            berth: key.berth,
        }
    }

    // Whether it falls between the ranks of an item and its next.
    pub(crate) fn falls_between(self, c: Rank, m: Rank) -> bool {
        c < self && self < m || self < m && m <= c || m <= c && c < self
    }
}
