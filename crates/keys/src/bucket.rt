ghost use Rattle.std.specs.Prelude.{◌≡◌, ◌-◌, ◌≤◌};
ghost use Rattle.keys.specs.Hashes.{bucket, tag};

// The most head bits that an index has.
pub const MAX_HEAD_BITS: u8 = 8;

// How many bits of a hash are left for the tag.
fn tag_bits(k: u8) -> u8
    ensures { result ≡ 16 - k }
{
    16u8.saturating_sub(k)
}

// The bucket of a hash in an index of `k` head bits.
pub fn bucket_of(k: u8, hash: u16) -> u32
    ensures { result ≡ bucket k hash }
{
    (hash as u32) >> tag_bits(k)
}

// The tag of a hash: what its bucket leaves of it.
pub fn tag_of(k: u8, hash: u16) -> u32
    ensures { result ≡ tag k hash }
{
    (hash as u32) % (1 << tag_bits(k))
}
