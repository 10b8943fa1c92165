use tables::item::Item;
use tables::record::Core;

// What a turn reads to decide: the record, the heads and the items, and the key that is sought.
#[derive(Drop)]
pub(crate) struct Seeker<'a, K, V> {
    pub(crate) core: &'a Core,
    pub(crate) heads: &'a [u32],
    pub(crate) items: &'a [Item<K, V>],
    pub(crate) key: K,
}
