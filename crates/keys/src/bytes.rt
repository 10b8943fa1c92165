ghost use Rattle.std.specs.Prelude.{◌≡◌};
ghost use Rattle.keys.specs.Bytes.{bytes_hash};

// The hash of a string of bytes.
pub fn hash_bytes(bytes: &[u8]) -> u16
    ensures { result ≡ (bytes_hash bytes.now).value }
{
    // no `fold`, tried: the proof that its calls add up to the definition does not close
    let mut h: u16 = 0;
    for b in bytes {
        h = h.wrapping_mul(31).wrapping_add(u16::from(*b));
    }
    h
}
