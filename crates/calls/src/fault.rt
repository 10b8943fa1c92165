ghost use Rattle.std.specs.Prelude.{◌≡◌};
ghost use Rattle.calls.specs.Faults.{index_number};

// Why a call on an index is refused. Each refusal has its number.
#[derive(Clone, Copy, Debug, PartialEq, Eq)]
pub enum IndexFault {
    // making: more than 8 head bits
    HeadBits = 7,
    // making: a table has no length that an index can have
    TableLengths = 8,
    // the tables do not have the lengths of the making, or the record is blank
    NotAsMade = 9,
    // the session number is above 15
    NoSession = 10,
    // begin: the session is not idle
    NotIdle = 11,
    // begin of insert or replace: no place is free
    NoPlace = 12,
    // turn, collect and abandon: the session is idle
    Idle = 13,
    // turn: the session has ended
    Ended = 14,
    // collect: the session is under way
    UnderWay = 15,
    // turn: a head or a next that is read is no place of the table
    OutsideTable = 16,
}

impl IndexFault {
    // The refusal's number.
    pub fn number(self) -> u8
        ensures { result ≡ index_number self }
    {
        self as u8
    }
}
