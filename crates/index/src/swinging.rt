ghost use Rattle.std.specs.Prelude.{◌≡◌};
ghost use Rattle.index.specs.Seeking.{seen_by};
ghost use Rattle.rules.specs.Decide.{followed, heir, may_swing, swing_ready, replace_claimed, remove_claimed, replace_if, remove_if, decide};
ghost use Rattle.std.specs.List.{slice_get};

use crate::seeker::Seeker;
use calls::fault::IndexFault;
use keys::key::Key;
use tables::item::{Item, ItemState};
use tables::moves::{HeadMove, Move};
use tables::session::Work;

// What becomes of a head when `place` leaves its ring.
fn follow(place: u32, to: Option<u32>, head: Option<u32>) -> HeadMove
    ensures { result ≡ followed place to head }
{
    if head == Some(place) {
        HeadMove::Becomes(to)
    } else {
        HeadMove::Stays
    }
}

// What a head that was `place` becomes when it leaves its ring.
fn heir_of(place: u32, ahead: u32) -> Option<u32>
    ensures { result ≡ heir place ahead }
{
    (ahead != place).then_some(ahead)
}

// Whether the first of the pair leads to the second, and is unoccupied or is the second itself.
fn may_swing<K: Copy, V: Copy>(pair: (u32, u32), item: &Item<K, V>) -> bool
    ensures { result ≡ may_swing pair item.now }
{
    item.next == pair.1 && (!item.occupied || pair.0 == pair.1)
}

impl<'a, K: Key, V: Copy> Seeker<'a, K, V> {
    // Whether the item stood on passes the tests of a swing.
    fn swing_ready(&self, pair: (u32, u32)) -> Result<bool, IndexFault>
        ensures { result ≡ swing_ready K.Key.order K.Key.digest (seen_by self.now) self.now.key pair (slice_get self.now.items.now pair.0) }
    {
        match self.items.get(pair.0 as usize) {
            None => Err(IndexFault::OutsideTable),
            Some(item) => match item.state {
                ItemState::Out | ItemState::SetAside => Ok(false),
                ItemState::InRing => {
                    self.next(item)?;
                    Ok(may_swing(pair, item))
                }
            },
        }
    }

    // The claimed item gives way to the one set aside.
    fn replace_claimed(&self, aside: u32, pair: (u32, u32)) -> Result<Move<V>, IndexFault>
        ensures { result ≡ replace_claimed K.Key.order K.Key.digest (seen_by self.now) self.now.key aside pair (slice_get self.now.items.now pair.1) }
    {
        match self.items.get(pair.1 as usize) {
            None => Err(IndexFault::OutsideTable),
            Some(claimed) => {
                let head = follow(pair.1, Some(aside), self.head()?);
                Ok(Move::SwingIn(aside, pair, head, claimed.value))
            }
        }
    }

    // The claimed item is cut out.
    fn remove_claimed(&self, pair: (u32, u32)) -> Result<Move<V>, IndexFault>
        ensures { result ≡ remove_claimed K.Key.order K.Key.digest (seen_by self.now) self.now.key pair (slice_get self.now.items.now pair.1) }
    {
        match self.items.get(pair.1 as usize) {
            None => Err(IndexFault::OutsideTable),
            Some(claimed) => {
                let ahead = self.next(claimed)?;
                let head = follow(pair.1, heir_of(pair.1, ahead), self.head()?);
                Ok(Move::SwingOut(pair, ahead, head, claimed.value))
            }
        }
    }

    // What a turn does next. It reads, and writes nothing.
    pub(crate) fn decide(&self, work: Work) -> Result<Move<V>, IndexFault>
        ensures { result ≡ decide K.Key.order K.Key.digest (seen_by self.now) self.now.key work }
    {
        // an arm for each claim: with `if` guards that share the last arm a turn takes longer
        match work {
            Work::Seeking(job, cursor) => self.seek(job, cursor),
            Work::Replacing(aside, pair) => {
                if self.swing_ready(pair)? {
                    self.replace_claimed(aside, pair)
                } else {
                    Ok(Move::GiveUp(pair.1))
                }
            }
            Work::Removing(pair) => {
                if self.swing_ready(pair)? {
                    self.remove_claimed(pair)
                } else {
                    Ok(Move::GiveUp(pair.1))
                }
            }
        }
    }
}
