ghost use Rattle.std.specs.Prelude.{◌≡◌};
ghost use Rattle.rules.specs.Collect.{answer_of, collect};
ghost use Rattle.rules.specs.States.{state};
ghost use Rattle.std.specs.List.{slice_get};

use crate::record::Record;
use calls::fault::IndexFault;
use keys::key::Key;
use tables::item::Item;
use tables::request::Request;
use tables::session::Stage;

// The value in a session's request, if its answer is present.
fn answer_of<K: Copy, V: Copy>(requests: &[Request<K, V>], session: u8, present: bool) -> Option<V>
    ensures { result ≡ answer_of present (slice_get requests.now session) }
{
    if !present {
        return None;
    }
    requests.get(session as usize).map(|request| request.value)
}

impl Record {
    // An ended session answers, and is idle again. Refused, in this order: 9, 10, 13, 15.
    pub(crate) fn collect_step<K: Key, V: Copy>(
        &mut self,
        heads: &[u32],
        items: &[Item<K, V>],
        requests: &[Request<K, V>],
        session: u8,
    ) -> Result<Option<V>, IndexFault>
        ensures { (result, state self.new.core heads.now items.now requests.now) ≡ collect (state self.old.core heads.now items.now requests.now) session }
    {
        let seat = self.find_seat(heads, items, requests, session)?;
        match seat.stage {
            Stage::Idle => Err(IndexFault::Idle),
            Stage::UnderWay(_) => Err(IndexFault::UnderWay),
            Stage::Ended(_, present) => {
                let answer = answer_of(requests, session, present);
                self.core.set_stage(session as usize, Stage::Idle);
                Ok(answer)
            }
        }
    }
}
