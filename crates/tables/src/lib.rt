// The data of an index: items, requests, sessions and the plain part of its record; each read and
// each write of a table has a function of its own.
#![tactic(auto)]

pub mod heads;
pub mod item;
pub mod items;
pub mod moves;
pub mod record;
pub mod request;
pub mod session;
