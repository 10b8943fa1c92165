ghost use Rattle.std.specs.Prelude.{◌≡◌};
ghost use Rattle.rules.specs.Abandon.{abandon, released, put_out};
ghost use Rattle.rules.specs.States.{state};
ghost use Rattle.tables.specs.Sessions.{aside_of, claim_of, job_of};

use crate::acting::put_aside_out;
use crate::record::Record;
use calls::fault::IndexFault;
use keys::key::Key;
use tables::item::Item;
use tables::items::put_mark;
use tables::request::Request;
use tables::session::{Stage, Work};

// Takes the mark off the item that the work has claimed, and puts the one out that it set aside.
fn give_up<K: Copy, V: Copy>(items: &mut [Item<K, V>], work: Work)
    ensures { items.new ≡ put_out (aside_of (job_of work)) (released (claim_of work) items.old) }
{
    if let Some(place) = work.claim() {
        put_mark(items, place, false);
    }
    put_aside_out(items, work.job());
}

impl Record {
    // A session gives its task up, or discards its answer. Refused, in this order: 9, 10, 13.
    pub(crate) fn abandon_step<K: Key, V: Copy>(
        &mut self,
        heads: &[u32],
        items: &mut [Item<K, V>],
        requests: &[Request<K, V>],
        session: u8,
    ) -> Result<(), IndexFault>
        ensures { (result, state self.new.core heads.now items.new requests.now) ≡ abandon (state self.old.core heads.now items.old requests.now) session }
    {
        let seat = self.find_seat(heads, items, requests, session)?;
        match seat.stage {
            Stage::Idle => return Err(IndexFault::Idle),
            Stage::UnderWay(work) => give_up(items, work),
            Stage::Ended(_, _) => {}
        }
        self.core.set_stage(session as usize, Stage::Idle);
        Ok(())
    }
}
