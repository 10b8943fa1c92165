ghost use Rattle.std.specs.Prelude.{◌≡◌, not, ◌&&◌};
ghost use Rattle.index.specs.Seeking.{seen_by};
ghost use Rattle.rules.specs.Decide.{looks_ahead, miss_empty, miss_between, has_rank, head_here, next_of, hit_ahead, pair_from, on_pair, on_ring, on_item, seek};
ghost use Rattle.std.specs.List.{slice_get};

use crate::seeker::Seeker;
use calls::fault::IndexFault;
use keys::bucket::bucket_of;
use keys::key::Key;
use keys::rank::have_one_rank;
use rings::between::falls_between;
use tables::heads::head_of;
use tables::item::{Item, ItemState};
use tables::moves::Move;
use tables::session::Job;

fn looks_ahead(job: Job) -> bool
    ensures { result ≡ looks_ahead job }
{
    matches!(job, Job::Insert(_) | Job::Replace(_) | Job::Remove)
}

// The ring is empty.
fn miss_empty<V: Copy>(job: Job) -> Move<V>
    ensures { result ≡ miss_empty job }
{
    match job {
        Job::Insert(aside) => Move::LinkAlone(aside),
        _ => Move::Absent,
    }
}

// The key falls between the pair, of which `item` is the first.
fn miss_between<K: Copy, V: Copy>(job: Job, pair: (u32, u32), item: &Item<K, V>) -> Move<V>
    ensures { result ≡ miss_between job pair item.now }
{
    match job {
        Job::Insert(_) if item.occupied => Move::Wait,
        Job::Insert(aside) => Move::Link(aside, pair),
        _ => Move::Absent,
    }
}

impl<'a, K: Key, V: Copy> Seeker<'a, K, V> {
    fn has_rank(&self, key: K) -> bool
        ensures { result ≡ has_rank K.Key.order K.Key.digest (seen_by self.now) self.now.key key }
    {
        have_one_rank(self.core.bits, key, self.key)
    }

    // The head of the sought key's bucket.
    pub(crate) fn head(&self) -> Result<Option<u32>, IndexFault>
        ensures { result ≡ head_here K.Key.order K.Key.digest (seen_by self.now) self.now.key }
    {
        head_of(
            self.heads,
            bucket_of(self.core.bits, self.key.hash()),
            self.core.places,
        )
    }

    pub(crate) fn next(&self, item: &Item<K, V>) -> Result<u32, IndexFault>
        ensures { result ≡ next_of K.Key.order K.Key.digest (seen_by self.now) self.now.key item.now }
    {
        item.next_in(self.core.places)
    }

    // The second of the pair has the sought key.
    fn hit_ahead(
        &self,
        job: Job,
        pair: (u32, u32),
        next: &Item<K, V>,
    ) -> Result<Move<V>, IndexFault>
        ensures { result ≡ hit_ahead K.Key.order K.Key.digest (seen_by self.now) self.now.key job pair next.now }
    {
        match job {
            Job::Replace(_) | Job::Remove if next.occupied => Ok(Move::Wait),
            Job::Replace(aside) => {
                let ahead = self.next(next)?;
                let lead = if ahead == pair.1 { aside } else { ahead };
                Ok(Move::ClaimToReplace(aside, pair, lead))
            }
            Job::Remove => Ok(Move::ClaimToRemove(pair)),
            Job::Find | Job::Insert(_) | Job::Write | Job::Point => {
                Ok(Move::Present(pair.1, next.value))
            }
        }
    }

    // Both items of the pair are at hand.
    fn on_pair(
        &self,
        job: Job,
        pair: (u32, u32),
        item: &Item<K, V>,
        next: &Item<K, V>,
    ) -> Result<Move<V>, IndexFault>
        ensures { result ≡ on_pair K.Key.order K.Key.digest (seen_by self.now) self.now.key job pair item.now next.now }
    {
        if looks_ahead(job) && self.has_rank(next.key) {
            return self.hit_ahead(job, pair, next);
        }
        if falls_between(self.core.bits, item.key, self.key, next.key) {
            return Ok(miss_between(job, pair, item));
        }
        Ok(Move::Step(pair.1))
    }

    // The pair of the item stood on and the one after it.
    fn pair_from(&self, cursor: u32, item: &Item<K, V>) -> Result<(u32, u32), IndexFault>
        ensures { result ≡ pair_from K.Key.order K.Key.digest (seen_by self.now) self.now.key cursor item.now }
    {
        Ok((cursor, self.next(item)?))
    }

    // Whether the item stood on is what find, write or point seeks.
    fn is_here(&self, job: Job, key: K) -> bool
        ensures { result ≡ (not (looks_ahead job) && has_rank K.Key.order K.Key.digest (seen_by self.now) self.now.key key) }
    {
        !looks_ahead(job) && self.has_rank(key)
    }

    // The item stood on is in ring.
    fn on_ring(&self, job: Job, cursor: u32, item: &Item<K, V>) -> Result<Move<V>, IndexFault>
        ensures { result ≡ on_ring K.Key.order K.Key.digest (seen_by self.now) self.now.key job cursor item.now }
    {
        if self.is_here(job, item.key) {
            return Ok(Move::Present(cursor, item.value));
        }
        let pair = self.pair_from(cursor, item)?;
        // a `match`, tried otherwise: with `let .. else` or `?` here and in the swings a turn takes longer
        match self.items.get(pair.1 as usize) {
            None => Err(IndexFault::OutsideTable),
            Some(next) => self.on_pair(job, pair, item, next),
        }
    }

    // The item stood on, whatever it is.
    fn on_item(&self, job: Job, cursor: u32) -> Result<Move<V>, IndexFault>
        ensures { result ≡ on_item K.Key.order K.Key.digest (seen_by self.now) self.now.key job cursor (slice_get self.now.items.now cursor) }
    {
        let Some(item) = self.items.get(cursor as usize) else {
            return Err(IndexFault::OutsideTable);
        };
        match item.state {
            ItemState::InRing => self.on_ring(job, cursor, item),
            ItemState::Out | ItemState::SetAside => Ok(Move::Leave),
        }
    }

    // A session seeks its key.
    pub(crate) fn seek(&self, job: Job, cursor: Option<u32>) -> Result<Move<V>, IndexFault>
        ensures { result ≡ seek K.Key.order K.Key.digest (seen_by self.now) self.now.key job cursor }
    {
        match cursor {
            Some(place) => self.on_item(job, place),
            None => match self.head()? {
                Some(head) => Ok(Move::Step(head)),
                None => Ok(miss_empty(job)),
            },
        }
    }
}
