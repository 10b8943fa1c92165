ghost use Rattle.std.specs.Prelude.{◌≡◌};
ghost use Rattle.rules.specs.States.{state};
ghost use Rattle.rules.specs.Turn.{turn};

use crate::actor::Actor;
use crate::record::Record;
use crate::seeker::Seeker;
use calls::fault::IndexFault;
use calls::reply::Progress;
use keys::bucket::bucket_of;
use keys::key::Key;
use tables::item::Item;
use tables::items::element_at;
use tables::request::Request;
use tables::session::Stage;

impl Record {
    // A session takes one turn at its task. Refused, in this order: 9, 10, 13, 14, 16.
    pub(crate) fn turn_step<K: Key, V: Copy>(
        &mut self,
        heads: &mut [u32],
        items: &mut [Item<K, V>],
        requests: &mut [Request<K, V>],
        session: u8,
    ) -> Result<Progress, IndexFault>
        ensures { (result, state self.new.core heads.new items.new requests.new) ≡ turn K.Key.order K.Key.digest (state self.old.core heads.old items.old requests.old) session }
    {
        let seat = self.find_seat(heads, items, requests, session)?;
        let work = match seat.stage {
            Stage::Idle => return Err(IndexFault::Idle),
            Stage::Ended(_, _) => return Err(IndexFault::Ended),
            Stage::UnderWay(work) => work,
        };
        let request = element_at(requests, session as usize).ok_or(IndexFault::NoSession)?;
        let key = request.key;
        let seeker = Seeker {
            core: &self.core,
            heads,
            items,
            key,
        };
        let decided = seeker.decide(work)?;
        let actor = Actor {
            session,
            job: work.job(),
            finds: seat.finds,
            bucket: bucket_of(self.core.bits, key.hash()),
        };
        Ok(actor.act(&mut self.core, heads, items, requests, request, decided))
    }
}
