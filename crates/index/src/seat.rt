ghost use Rattle.std.specs.Prelude.{◌≡◌, true, OnOk};
ghost use Rattle.rules.specs.States.{state, are_lengths, is_as_made, seat};

use crate::record::Record;
use calls::fault::IndexFault;
use tables::item::Item;
use tables::items::element_at;
use tables::request::Request;
use tables::session::Session;

impl Record {
    fn are_lengths(&self, heads: usize, items: usize, requests: usize) -> bool
        ensures { result ≡ are_lengths self.now.core.bits self.now.core.places heads items requests }
    {
        heads == 1usize << self.core.bits && items == self.core.places as usize && requests == 16
    }

    // Whether the record was made, and the tables have the lengths of the making.
    fn is_as_made<K: Copy, V: Copy>(
        &self,
        heads: &[u32],
        items: &[Item<K, V>],
        requests: &[Request<K, V>],
    ) -> bool
        ensures { result ≡ is_as_made (state self.now.core heads.now items.now requests.now) }
    {
        self.core.made && self.are_lengths(heads.len(), items.len(), requests.len())
    }

    // The session that a call speaks of.
    pub(crate) fn find_seat<K: Copy, V: Copy>(
        &self,
        heads: &[u32],
        items: &[Item<K, V>],
        requests: &[Request<K, V>],
        session: u8,
    ) -> Result<Session, IndexFault>
        ensures value { result ≡ seat (state self.now.core heads.now items.now requests.now) session }
        ensures made { OnOk result (self.now.core.made ≡ true) }
    {
        if !self.is_as_made(heads, items, requests) {
            return Err(IndexFault::NotAsMade);
        }
        element_at(&self.core.sessions, session as usize).ok_or(IndexFault::NoSession)
    }
}
