// Key kinds: what an index asks of a key, the two kinds of the boards, and where a key lies in an
// index: its bucket, its tag and its rank.
#![tactic(auto)]

pub mod berth;
pub mod bucket;
pub mod bytes;
pub mod examples;
pub mod key;
pub mod name;
pub mod rank;
