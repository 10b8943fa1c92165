ghost use Rattle.std.specs.Prelude.{◌≡◌, ℕ, ◌+◌};
ghost use Rattle.lines.specs.Readings.{Reading, Reads};

use crate::fault::FieldFault;
use crate::reader::Reader;
use keys::key::Key;

// A board: its key kind, its value kind and how many fields a begin line has.
pub trait Board {
    type Key: Key;

    type Value: Copy;

    const BEGIN_FIELDS: usize;

    ghost BEGIN_FIELDS: { ℕ };

    // how many of the fields are the key's and the value's
    ghost key_fields: { ℕ };

    ghost value_fields: { ℕ };

    ghost key_in: { Reading Self.Key };

    ghost value_in: { Reading Self.Value };

    fn read_key(from: &mut Reader<'_>) -> Result<Self::Key, FieldFault>
        ensures { Reads key_in key_fields from.old from.new result };

    fn read_value(from: &mut Reader<'_>) -> Result<Self::Value, FieldFault>
        ensures { Reads value_in value_fields from.old from.new result };

    // The letter, the verb, the session and the operation come before the key.
    ghost counted: { BEGIN_FIELDS ≡ 4 + key_fields + value_fields };
}
