// A small generator of numbers. The same seed gives the same numbers, so every run is the same.
#![tactic(auto)]

ghost use Rattle.std.specs.Prelude.{◌≡◌, ◌%◌, ◌<◌, ◌↔◌, ℕ, IsTrue};

use std::marker::Model;

// Of its own, and no library's: the rounds and demands that are drawn, and what is counted over them,
// rest on just these numbers.
#[derive(Drop)]
pub struct Dice {
    state: u64,
}

impl Model for Dice {
    ghost Value = { ℕ };

    ghost view = { λ d. d.state };
}

impl Dice {
    ghost use Rattle.dice.specs.Rolls.{after, rolled, after_below, below};

    pub fn new(seed: u64) -> Dice
        ensures { result ≡ seed }
    {
        Dice { state: seed }
    }

    // The next number: the upper half of a linear congruential state, whose lower bits repeat soon.
    pub fn roll(&mut self) -> u32
        ensures number { result ≡ rolled self.old }
        ensures state { self.new ≡ after self.old }
    {
        self.state = self
            .state
            .wrapping_mul(6364136223846793005)
            .wrapping_add(1442695040888963407);
        (self.state >> 32) as u32
    }

    // A number below `bound`; 0, and no roll, where nothing is.
    pub fn below(&mut self, bound: u32) -> u32
        ensures within { 0 < bound → result < bound }
        ensures number { result ≡ below bound self.old }
        ensures state { self.new ≡ after_below bound self.old }
    {
        if bound == 0 { 0 } else { self.roll() % bound }
    }

    // True once in `often` times.
    pub fn once_in(&mut self, often: u32) -> bool
        ensures number { IsTrue result ↔ (below often self.old ≡ 0) }
        ensures state { self.new ≡ after_below often self.old }
    {
        self.below(often) == 0
    }
}
