ghost use Rattle.std.specs.Prelude.{◌≡◌};
ghost use Rattle.keys.specs.Berths.{by_berth, berth_hash};
ghost use Rattle.keys.specs.BerthOrder.{by_berth_lawful, by_berth_hashed};

use crate::key::Key;
use std::cmp::Ordering;

// A berth of a harbour: harbours are compared first, then berths.
#[derive(Clone, Copy, Debug, PartialEq, Eq, PartialOrd, Ord)]
pub struct Berth {
    pub harbour: u16,
    pub berth: u16,
}

impl Key for Berth {
    ghost order = { by_berth };

    ghost digest = { berth_hash };

    ghost turned = { by_berth_lawful.turned };

    ghost chained = { by_berth_lawful.chained };

    ghost hashed = { by_berth_hashed };

    fn compare(self, other: Berth) -> Ordering {
        self.cmp(&other)
    }

    fn hash(self) -> u16 {
        self.berth.wrapping_mul(40503).wrapping_add(self.harbour)
    }
}
