ghost use Rattle.std.specs.Prelude.{◌≡◌};
ghost use Rattle.rules.specs.RunLaw.{GoesOn};
ghost use Rattle.rules.specs.States.{state};
ghost use Rattle.rules.specs.Steps.{step};

use crate::record::Record;
use calls::call::{Action, Call};
use calls::fault::IndexFault;
use calls::reply::Reply;
use keys::key::Key;
use tables::item::Item;
use tables::request::Request;

impl Record {
    // Any call, as it comes.
    pub(crate) fn call_step<K: Key, V: Copy>(
        &mut self,
        heads: &mut [u32],
        items: &mut [Item<K, V>],
        requests: &mut [Request<K, V>],
        call: Call<K, V>,
    ) -> Result<Reply<V>, IndexFault>
        ensures { (result, state self.new.core heads.new items.new requests.new) ≡ step K.Key.order K.Key.digest (state self.old.core heads.old items.old requests.old) call }
    {
        let Call { session, action } = call;
        match action {
            Action::Begin(task) => {
                self.begin_step(heads, items, requests, session, task)?;
                Ok(Reply::Begun)
            }
            Action::Turn => Ok(Reply::Turned(self.turn_step(heads, items, requests, session)?)),
            Action::Collect => Ok(Reply::Collected(self.collect_step(
                heads, items, requests, session,
            )?)),
            Action::Abandon => {
                self.abandon_step(heads, items, requests, session)?;
                Ok(Reply::Abandoned)
            }
        }
    }

    // Any call, as it comes: the step of the rule book, and the run law.
    pub fn call<K: Key, V: Copy>(
        &mut self,
        heads: &mut [u32],
        items: &mut [Item<K, V>],
        requests: &mut [Request<K, V>],
        call: Call<K, V>,
    ) -> Result<Reply<V>, IndexFault>
        ensures step { (result, state self.new.core heads.new items.new requests.new) ≡ step K.Key.order K.Key.digest (state self.old.core heads.old items.old requests.old) call }
        ensures law { GoesOn K.Key.order K.Key.digest (state self.old.core heads.old items.old requests.old) (record { call = call; reply = result }) (state self.new.core heads.new items.new requests.new) }
    {
        self.call_step(heads, items, requests, call)
    }
}
