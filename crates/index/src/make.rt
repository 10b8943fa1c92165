ghost use Rattle.std.specs.Prelude.{◌≡◌};
ghost use Rattle.rules.specs.Making.{make};
ghost use Rattle.rules.specs.States.{state};

use crate::making::{clear_heads, clear_items, is_makable, new_core};
use crate::record::Record;
use calls::fault::IndexFault;
use keys::bucket::MAX_HEAD_BITS;
use keys::key::Key;
use tables::item::Item;
use tables::request::Request;

impl Record {
    // Makes an index of `bits` head bits in these tables, whatever they held. Refused, in this order: 7, 8.
    pub(crate) fn make_step<K: Key, V: Copy>(
        &mut self,
        heads: &mut [u32],
        items: &mut [Item<K, V>],
        requests: &[Request<K, V>],
        bits: u8,
    ) -> Result<(), IndexFault>
        ensures { (result, state self.new.core heads.new items.new requests.now) ≡ make bits (state self.old.core heads.old items.old requests.now) }
    {
        if bits > MAX_HEAD_BITS {
            return Err(IndexFault::HeadBits);
        }
        if !is_makable(bits, heads.len(), items.len(), requests.len()) {
            return Err(IndexFault::TableLengths);
        }
        self.core = new_core(bits, items.len() as u32);
        clear_heads(heads);
        clear_items(items);
        Ok(())
    }
}
