ghost use Rattle.std.specs.Prelude.{◌≡◌, ◌≤◌, min, ◌++◌, length, take, drop};
ghost use Rattle.index.specs.Replays.{Replayed};
ghost use Rattle.rules.specs.Making.{make};
ghost use Rattle.rules.specs.States.{state};
ghost use Rattle.rules.specs.Steps.{played};

use crate::record::Record;
use calls::call::Call;
use calls::fault::IndexFault;
use calls::reply::Reply;
use keys::key::Key;
use tables::item::Item;
use tables::items::put_element;
use tables::request::Request;

impl Record {
    // Does the calls one after another and hands back the reply to each, as far as there is room.
    fn play<K: Key, V: Copy>(
        &mut self,
        heads: &mut [u32],
        items: &mut [Item<K, V>],
        requests: &mut [Request<K, V>],
        calls: &[Call<K, V>],
        replies: &mut [Result<Reply<V>, IndexFault>],
    ) -> usize
        ensures count { result ≡ min (length calls.now) (length replies.old) }
        ensures replies { replies.new ≡ (played K.Key.order K.Key.digest (state self.old.core heads.old items.old requests.old) (take result calls.now)).0 ++ drop result replies.old }
        ensures after { state self.new.core heads.new items.new requests.new ≡ (played K.Key.order K.Key.digest (state self.old.core heads.old items.old requests.old) (take result calls.now)).1 }
    {
        let count = calls.len().min(replies.len());
        for i in 0..count {
            let reply = self.call_step(heads, items, requests, calls[i]);
            // by place: of what is written by way of `iter_mut` and `zip` a proof knows nothing, and of
            // `replies[i] = ..` at a type that holds a V the bound of the offset is not found
            put_element(replies, i, reply);
        }
        count
    }

    // Makes an index new in these tables and does a list of calls, with the reply to each, as far as there
    // is room; answers how many were done. A refused making does nothing.
    pub fn replay<K: Key, V: Copy>(
        &mut self,
        heads: &mut [u32],
        items: &mut [Item<K, V>],
        requests: &mut [Request<K, V>],
        bits: u8,
        calls: &[Call<K, V>],
        replies: &mut [Result<Reply<V>, IndexFault>],
    ) -> Result<usize, IndexFault>
        ensures { Replayed K.Key.order K.Key.digest (make bits (state self.old.core heads.old items.old requests.old)) calls.now replies.old result replies.new (state self.new.core heads.new items.new requests.new) }
    {
        self.make_step(heads, items, requests, bits)?;
        Ok(self.play(heads, items, requests, calls, replies))
    }
}
