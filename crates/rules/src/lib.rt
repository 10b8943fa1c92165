// The rule book of an index over ordered rings: what each call answers and leaves, for any contents
// of the record and the tables; and the run law, proved over it. The calls themselves stand in the
// crate above.
#![tactic(auto)]

pub mod examples;
pub mod law;
