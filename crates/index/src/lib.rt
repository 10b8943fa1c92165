// An index over ordered rings: its record, and the calls on it. Each call is handed the three tables,
// and its contract is the step of the rule book.
#![tactic(auto)]

mod abandon;
mod acting;
mod actor;
mod begin;
mod blank;
mod call;
mod collect;
mod deciding;
mod free;
mod index;
mod make;
mod making;
pub mod record;
mod replay;
mod seat;
mod seeker;
mod swinging;
mod turn;
