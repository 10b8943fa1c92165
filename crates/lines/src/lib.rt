// Lines of the boards: fields parted by commas, their faults, and one reader for every board.
#![tactic(auto)]

pub mod berths;
pub mod board;
mod call;
pub mod fault;
pub mod field;
pub mod message;
pub mod number;
pub mod reader;
pub mod reading;
pub mod ships;
pub mod word;
