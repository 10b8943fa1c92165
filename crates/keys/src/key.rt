ghost use Rattle.std.specs.Prelude.{◌≡◌, false};
ghost use Rattle.std.specs.declared.cmp.Ordering.{Ordering};
ghost use Rattle.std.specs.declared.cmp.Ordering.TheVariants.{Equal};
ghost use Rattle.std.specs.Ordering.{is_lt, is_eq, is_gt};
ghost use Rattle.keys.specs.Hashes.{Hash};
ghost use Rattle.keys.specs.Orders.{TotalPreorder};

use std::cmp::Ordering;

// A key kind: an order and a hash, both by the keys alone, and the laws that they keep. `Less` is
// before, `Equal` is alike, `Greater` is after. No std `Ord`: what that calls equal has to be equal, and
// alike keys may differ.
pub trait Key: Copy {
    ghost order: { Self → Self → Ordering };

    ghost digest: { Self → Hash };

    fn compare(self, other: Self) -> Ordering
        ensures { result ≡ order self other };

    fn hash(self) -> u16
        ensures { result ≡ (digest self).value };

    // One key is before another exactly when the other is after it.
    ghost turned: { (a b : Self) → is_lt (order a b) ≡ is_gt (order b a) };

    // What is not after a key that is not after a third is not after the third.
    ghost chained: { (a b c : Self) → is_gt (order a b) ≡ false → is_gt (order b c) ≡ false → is_gt (order a c) ≡ false };

    // Alike keys have equal hashes.
    ghost hashed: { (a b : Self) → order a b ≡ Equal → (digest a).value ≡ (digest b).value };
}

// Whether two keys count as one key. Alike is an equivalence, for every kind.
pub fn are_alike<K: Key>(a: K, b: K) -> bool
    ensures value { result ≡ is_eq (K.Key.order a b) }
    ensures laws { TotalPreorder K.Key.order }
{
    a.compare(b).is_eq()
}
