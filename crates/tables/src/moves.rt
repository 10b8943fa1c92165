// What a turn has decided to do. A pair is the place stood on and the one after it.

// What becomes of the head of the ring when an item leaves it. An `Option<Option<u32>>` would not say
// which of its two `None`s leaves the head alone.
#[derive(Clone, Copy)]
pub enum HeadMove {
    Stays,
    Becomes(Option<u32>),
}

#[derive(Clone, Copy)]
pub enum Move<V> {
    // the cursor goes to this place
    Step(u32),
    // the cursor is given up
    Leave,
    // the claim on this place is given up, and the cursor
    GiveUp(u32),
    // an occupied item is in the way
    Wait,
    // the second of the pair is claimed for the item set aside, which takes the given next
    ClaimToReplace(u32, (u32, u32), u32),
    // the second of the pair is claimed
    ClaimToRemove((u32, u32)),
    // the key is not there: the session ends absent
    Absent,
    // the item set aside becomes the only one of its ring
    LinkAlone(u32),
    // the item set aside goes between the pair
    Link(u32, (u32, u32)),
    // the key is at this place, with this value: the session ends present
    Present(u32, V),
    // the item set aside takes the place of the second of the pair, which had this value
    SwingIn(u32, (u32, u32), HeadMove, V),
    // the second of the pair, which had this value, is cut out, and the given next comes after the first
    SwingOut((u32, u32), u32, HeadMove, V),
}
