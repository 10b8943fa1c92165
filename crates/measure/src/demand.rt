ghost use Rattle.std.specs.Prelude.{◌<◌};

use dice::Dice;
use std::fmt;

// How often each key of a ring of 256 is asked for. Hot keys lie far from each other and, in the mean,
// half the ring from the key that was inserted first, so that a head that stays there has neither an
// advantage nor a disadvantage.
#[derive(Clone, Copy, Debug, PartialEq, Eq)]
pub enum Demand {
    // every key as often as any other
    Even,
    // half of the time one of two keys, a quarter of the time one of eight, else any
    FewHot,
    // three quarters of the time one key, else any
    OneHot,
}

impl fmt::Display for Demand {
    fn fmt<W: fmt::Write>(&self, f: &mut fmt::Formatter<W>) -> fmt::Result {
        match self {
            Demand::Even => write!(f, "even demand"),
            Demand::FewHot => write!(f, "a few hot keys"),
            Demand::OneHot => write!(f, "one hot key"),
        }
    }
}

impl Demand {
    // The harbour of the next key that is asked for.
    pub fn draw(self, dice: &mut Dice) -> u16
        ensures { result < 256 }
    {
        let quarter = dice.below(4);
        match self {
            Demand::FewHot if quarter < 2 => 63 + 128 * dice.below(2) as u16,
            Demand::FewHot if quarter == 2 => 15 + 32 * dice.below(8) as u16,
            Demand::OneHot if quarter < 3 => 127,
            Demand::Even | Demand::FewHot | Demand::OneHot => dice.below(256) as u16,
        }
    }
}
