use crate::operation::Operation;

// An operation on a key, with the value that insert, write and replace go by.
#[derive(Clone, Copy, Debug, PartialEq, Eq)]
pub struct Task<K, V> {
    pub operation: Operation,
    pub key: K,
    pub value: V,
}

// What a call asks of its session: to begin a task, to take one turn at it, to collect its answer,
// or to give it up.
#[derive(Clone, Copy, Debug, PartialEq, Eq)]
pub enum Action<K, V> {
    Begin(Task<K, V>),
    Turn,
    Collect,
    Abandon,
}

// A call on an index, by any session number.
#[derive(Clone, Copy, Debug, PartialEq, Eq)]
pub struct Call<K, V> {
    pub session: u8,
    pub action: Action<K, V>,
}
