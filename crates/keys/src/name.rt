ghost use Rattle.std.specs.Prelude.{◌≡◌};
ghost use Rattle.keys.specs.Names.{by_name, name_hash, named, name_refusal, used};
ghost use Rattle.keys.specs.NameOrder.{by_name_lawful, by_name_hashed};

use crate::bytes::hash_bytes;
use crate::key::Key;
use std::cmp::Ordering;

// A name: one to twelve bytes, kept with their count in a plain struct, as the rules have it. Only `new`
// makes one, so what lies past the count is 0 in each.
#[derive(Clone, Copy, Debug, PartialEq, Eq)]
pub struct Name {
    bytes: [u8; 12],
    count: u8,
}

// Why bytes make no name: there are none, or more than twelve.
#[derive(Clone, Copy, Debug, PartialEq, Eq)]
pub enum NameFault {
    Empty,
    Long,
}

impl NameFault {
    // The refusal's number.
    pub fn number(self) -> u8
        ensures { result ≡ name_refusal self }
    {
        match self {
            NameFault::Empty | NameFault::Long => 5,
        }
    }
}

impl Name {
    // The name with these bytes.
    pub fn new(bytes: &[u8]) -> Result<Name, NameFault>
        ensures { result ≡ named bytes.now }
    {
        let count = bytes.len();
        if count == 0 {
            return Err(NameFault::Empty);
        }
        if count > 12 {
            return Err(NameFault::Long);
        }
        let mut kept = [0u8; 12];
        kept[..count].copy_from_slice(bytes);
        Ok(Name {
            bytes: kept,
            count: count as u8,
        })
    }

    // The bytes of the name.
    pub fn used(&self) -> &[u8]
        ensures { result.now ≡ used self.now }
    {
        // never more than twelve; `min` says so where the type does not
        let count = (self.count as usize).min(12);
        &self.bytes[..count]
    }
}

impl Key for Name {
    ghost order = { by_name };

    ghost digest = { name_hash };

    ghost turned = { by_name_lawful.turned };

    ghost chained = { by_name_lawful.chained };

    ghost hashed = { by_name_hashed };

    fn compare(self, other: Name) -> Ordering {
        self.used().cmp(other.used())
    }

    fn hash(self) -> u16 {
        hash_bytes(self.used())
    }
}
