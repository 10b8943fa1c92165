// Both boards, kept and served: a line in, an answer out.
#![tactic(auto)]

pub mod answer;
pub mod board_index;
pub mod fault;
pub mod server;
pub mod show;
pub mod stream;
