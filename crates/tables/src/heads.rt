ghost use Rattle.std.specs.Prelude.{◌≡◌, slice_set};
ghost use Rattle.tables.specs.Reads.{head_word, read_head};

use crate::items::put_element;
use calls::fault::IndexFault;

// The number that stands for no head: the table of heads holds plain numbers.
pub const NO_HEAD: u32 = u32::MAX;

// The head of a bucket, as a place of a table of `places`, or none.
pub fn head_of(heads: &[u32], bucket: u32, places: u32) -> Result<Option<u32>, IndexFault>
    ensures { result ≡ read_head places heads.now bucket }
{
    match heads.get(bucket as usize).copied() {
        Some(NO_HEAD) => Ok(None),
        Some(head) if head < places => Ok(Some(head)),
        _ => Err(IndexFault::OutsideTable),
    }
}

// Makes a place, or none, the head of a bucket.
pub fn put_head(heads: &mut [u32], bucket: u32, head: Option<u32>)
    ensures { heads.new ≡ slice_set heads.old bucket (head_word head) }
{
    put_element(heads, bucket as usize, head.unwrap_or(NO_HEAD));
}
