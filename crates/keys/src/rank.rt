ghost use Rattle.std.specs.Prelude.{◌≡◌};
ghost use Rattle.std.specs.Ordering.{is_eq, nat_cmp, ordering_then};
ghost use Rattle.keys.specs.Hashes.{tag};
ghost use Rattle.keys.specs.Ranks.{by_rank, RankLaws};

use crate::bucket::tag_of;
use crate::key::Key;
use std::cmp::Ordering;

// A key with its tag, so that a key that is compared more than once is hashed once.
#[derive(Clone, Copy)]
pub struct Rank<K> {
    tag: u32,
    key: K,
}

impl<K: Key> Rank<K> {
    // The rank of a key in an index of `k` head bits.
    pub fn of(k: u8, key: K) -> Rank<K>
        ensures { (result.tag ≡ tag k (K.Key.digest key).value) × (result.key ≡ key) }
    {
        Rank {
            tag: tag_of(k, key.hash()),
            key,
        }
    }

    // The order of two ranks: their tags, then the keys themselves.
    pub fn compare(self, other: Rank<K>) -> Ordering
        ensures { result ≡ ordering_then (nat_cmp self.tag other.tag) (K.Key.order self.key other.key) }
    {
        self.tag
            .cmp(&other.tag)
            .then_with(|| self.key.compare(other.key))
    }
}

// The order of two keys by rank in an index of `k` head bits: their tags, then the keys themselves.
pub fn compare_ranks<K: Key>(k: u8, a: K, b: K) -> Ordering
    ensures { result ≡ by_rank K.Key.order K.Key.digest k a b }
{
    Rank::of(k, a).compare(Rank::of(k, b))
}

// Whether two keys have one rank. Alike keys have equal tags, so the keys alone tell. The rank is a
// lawful order again, for every kind, and keys have one rank exactly when they are alike.
pub fn have_one_rank<K: Key>(k: u8, a: K, b: K) -> bool
    ensures value { result ≡ is_eq (by_rank K.Key.order K.Key.digest k a b) }
    ensures laws { RankLaws K.Key.order K.Key.digest k }
{
    a.compare(b).is_eq()
}
