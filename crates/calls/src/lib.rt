// What may be asked of an index, whatever its design: operations, calls and replies, the refusals of
// a call, and what each operation means.
#![tactic(auto)]

pub mod call;
pub mod fault;
pub mod operation;
pub mod reply;
