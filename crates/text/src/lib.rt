// Bounded text: bytes kept up to a limit, and numbers in decimal.
#![tactic(auto)]

mod bounded;

pub use bounded::{Line, Page, Text};
