// What an accepted turn says: the session moved on, gave its place up, waits, has claimed an item, or
// has ended.
#[derive(Clone, Copy, Debug, PartialEq, Eq)]
pub enum Progress {
    Moved,
    Again,
    Held,
    Claimed,
    Ended,
}

// The reply to an accepted call. Collect answers the value that the key had just before the
// operation, or that it was absent.
#[derive(Clone, Copy, Debug, PartialEq, Eq)]
pub enum Reply<V> {
    Begun,
    Turned(Progress),
    Collected(Option<V>),
    Abandoned,
}
