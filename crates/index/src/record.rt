ghost use Rattle.std.specs.Prelude.{◌≡◌, true};
ghost use Rattle.index.specs.Within.{is_within};

use tables::record::Core;

// The record of an index. Only the calls change it, so that none of its places lies outside tables of
// the lengths that it was made with.
#[derive(Drop)]
pub struct Record {
    pub(crate) core: Core,
    ghost within: { is_within core ≡ true },
}
