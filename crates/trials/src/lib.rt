// Tables of cases over keys, operations, lines and the index.
#![tactic(auto)]

#[cfg(test)]
mod index_cases;
#[cfg(test)]
mod key_cases;
#[cfg(test)]
mod line_cases;
#[cfg(test)]
mod message_cases;
#[cfg(test)]
mod operation_cases;
pub mod verdict;
