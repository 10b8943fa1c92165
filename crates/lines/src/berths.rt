ghost use Rattle.std.specs.Prelude.{◌≡◌, refl};
ghost use Rattle.lines.specs.Boards.{berth_in, sailing_in};

use crate::board::Board;
use crate::fault::FieldFault;
use crate::reader::Reader;
use keys::berth::Berth;

// What lies at a berth: a ship, and the minute of the day at which she sails.
#[derive(Clone, Copy, Debug, PartialEq, Eq)]
pub struct Sailing {
    pub ship: u32,
    pub minute: u16,
}

// The berth board: from a berth to a sailing.
pub struct BerthBoard;

impl Board for BerthBoard {
    type Key = Berth;

    type Value = Sailing;

    const BEGIN_FIELDS: usize = 8;

    ghost BEGIN_FIELDS = { 8 };

    ghost key_fields = { 2 };

    ghost value_fields = { 2 };

    ghost key_in = { berth_in };

    ghost value_in = { sailing_in };

    ghost counted = { refl };

    fn read_key(from: &mut Reader<'_>) -> Result<Berth, FieldFault> {
        let harbour = from.short_number(u16::MAX)?;
        let berth = from.short_number(u16::MAX)?;
        Ok(Berth { harbour, berth })
    }

    fn read_value(from: &mut Reader<'_>) -> Result<Sailing, FieldFault> {
        let ship = from.number(u32::MAX)?;
        let minute = from.short_number(1439)?;
        Ok(Sailing { ship, minute })
    }
}
