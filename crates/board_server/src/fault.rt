ghost use Rattle.std.specs.Prelude.{◌≡◌};
ghost use Rattle.board_server.specs.Faults.{board_number, board_place};
ghost use Rattle.board_server.specs.declared.fault.BoardFault.TheVariants.{Line, Index};

use calls::fault::IndexFault;
use lines::fault::{LineFault, Place};

// Why a board refuses a line: the line itself, or the call that it asks for.
#[derive(Clone, Copy, Debug, PartialEq, Eq)]
pub enum BoardFault {
    Line(LineFault),
    Index(IndexFault),
}

impl From<LineFault> for BoardFault {
    ghost from_gives = { λ x y. y ≡ Line x };

    fn from(value: LineFault) -> BoardFault {
        BoardFault::Line(value)
    }
}

impl From<IndexFault> for BoardFault {
    ghost from_gives = { λ x y. y ≡ Index x };

    fn from(value: IndexFault) -> BoardFault {
        BoardFault::Index(value)
    }
}

impl BoardFault {
    // The refusal's number.
    pub fn number(self) -> u8
        ensures { result ≡ board_number self }
    {
        match self {
            BoardFault::Line(fault) => fault.number(),
            BoardFault::Index(fault) => fault.number(),
        }
    }

    // The field and the byte that the refusal names.
    pub fn place(self) -> Place
        ensures { result ≡ board_place self }
    {
        match self {
            BoardFault::Line(fault) => fault.place(),
            BoardFault::Index(_) => Place { field: 0, byte: 0 },
        }
    }
}
