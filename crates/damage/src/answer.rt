use calls::reply::Reply;

// What an accepted call says: a making, or the reply to any other.
#[derive(Clone, Copy, Debug, PartialEq, Eq)]
pub enum Answer {
    Made,
    Replied(Reply<u32>),
}
