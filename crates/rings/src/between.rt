ghost use Rattle.std.specs.Prelude.{◌≡◌};
ghost use Rattle.keys.specs.Ranks.{by_rank, bucket_of};
ghost use Rattle.rings.specs.Between.{between};
ghost use Rattle.rings.specs.Laws.{RingLaws};

use keys::key::Key;
use keys::rank::Rank;

// Whether `q` falls between an item's key `c` and the key `next` of its next, by rank in an index of
// `k` head bits: c < q < next, or q < next ≤ c, or next ≤ c < q. Rings in which nothing falls between
// an item and its next keep the laws of rings, for every kind.
#[tactic(auto, unfolding(crate::specs::Between::between))]
pub fn falls_between<K: Key>(k: u8, c: K, q: K, next: K) -> bool
    ensures value { result ≡ between (by_rank K.Key.order K.Key.digest k) c q next }
    ensures laws { RingLaws (by_rank K.Key.order K.Key.digest k) (bucket_of K.Key.order K.Key.digest k) }
{
    let (c, q, next) = (Rank::of(k, c), Rank::of(k, q), Rank::of(k, next));
    let above = c.compare(q).is_lt();
    let below = q.compare(next).is_lt();
    // two of the three tests decide; the third is made only where the first two differ
    if above == below {
        above
    } else {
        next.compare(c).is_le()
    }
}
