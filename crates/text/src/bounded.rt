ghost use Rattle.std.specs.Prelude.{◌≡◌, ◌≤◌, [], ◌∷◌, length};
ghost use Rattle.text.specs.Kept.{added};

use itoa::{Buffer, Integer};
use std::marker::Model;

// The line that is being read: its first 81 bytes, one more than a line may have, so that a longer
// one is told from one that just fits.
pub type Line = Text<81>;

// The answers of a stream.
pub type Page = Text<65536>;

// A text of up to `N` bytes. What is added past them is left out. An array with its length, so that a text is
// forgotten at once, however long it is.
#[derive(Drop)]
pub struct Text<const N: usize> {
    bytes: [u8; N],
    len: usize,
    ghost within: { len ≤ N },
}

// Clauses see the bytes.
impl<const N: usize> Model for Text<N> {
    ghost use Rattle.std.specs.Prelude.{ℕ, List, take};

    ghost Value = { List ℕ };

    ghost view = { λ t. take t.len t.bytes };
}

#[tactic(auto, unfolding(crate::specs::Kept::added))]
impl<const N: usize> Text<N> {
    pub fn new() -> Text<N>
        ensures { result ≡ [] }
    {
        Text {
            bytes: [0; N],
            len: 0,
        }
    }

    pub fn as_bytes(&self) -> &[u8]
        ensures kept { result.now ≡ self.now }
        ensures short { length result.now ≤ N }
    {
        &self.bytes[..self.len]
    }

    pub fn clear(&mut self)
        ensures { self.new ≡ [] }
    {
        self.len = 0;
    }

    // As many of the bytes as there is room for.
    #[inline]
    pub fn push_bytes(&mut self, more: &[u8])
        ensures { self.new ≡ added N self.old more.now }
    {
        let start = self.len;
        let end = start + more.len().min(N - start);
        let bytes = &mut self.bytes[..];
        bytes[start..end].copy_from_slice(&more[..end - start]);
        self.len = end;
    }

    // The byte, if there is room for it.
    pub fn push(&mut self, byte: u8)
        ensures { self.new ≡ added N self.old (byte ∷ []) }
    {
        if self.len < N {
            self.bytes[self.len] = byte;
            self.len += 1;
        }
    }

    // A number in decimal, as far as there is room for it.
    pub fn push_number<I: Integer>(&mut self, number: I)
        ensures { self.new ≡ added N self.old (I.text number) }
    {
        let mut buffer = Buffer::new();
        let digits = buffer.format(number).as_bytes();
        self.push_bytes(digits);
    }
}
