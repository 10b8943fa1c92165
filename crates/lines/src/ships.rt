ghost use Rattle.std.specs.Prelude.{◌≡◌, refl};
ghost use Rattle.lines.specs.Boards.{berth_number_in};
ghost use Rattle.lines.specs.Readings.{name_in};

use crate::board::Board;
use crate::fault::FieldFault;
use crate::reader::Reader;
use keys::name::Name;

// The ship board: from a ship's name to the number of her berth.
pub struct ShipBoard;

impl Board for ShipBoard {
    type Key = Name;

    type Value = u16;

    const BEGIN_FIELDS: usize = 6;

    ghost BEGIN_FIELDS = { 6 };

    ghost key_fields = { 1 };

    ghost value_fields = { 1 };

    ghost key_in = { name_in };

    ghost value_in = { berth_number_in };

    ghost counted = { refl };

    fn read_key(from: &mut Reader<'_>) -> Result<Name, FieldFault> {
        from.name()
    }

    fn read_value(from: &mut Reader<'_>) -> Result<u16, FieldFault> {
        from.short_number(u16::MAX)
    }
}
