// Rings in the order of ranks: when a key falls between an item and its next, and what keeps rings
// sound, for every kind.
#![tactic(auto)]

pub mod between;
