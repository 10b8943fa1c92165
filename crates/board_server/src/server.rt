ghost use Rattle.std.specs.Prelude.{◌≡◌, ◌≤◌, length, IfOk};
ghost use Rattle.lines.specs.Boards.{message_of};
ghost use Rattle.board_server.specs.Answers.{appended};
ghost use Rattle.board_server.specs.Served.{boards_of, new_boards, board_text, served_by, served, answered, Sounds, LawAt};

use crate::answer::{Answer, put_fault, put_reply};
use crate::board_index::BoardIndex;
use crate::fault::BoardFault;
use keys::berth::Berth;
use keys::name::Name;
use lines::berths::{BerthBoard, Sailing};
use lines::message::{Message, read_line};
use lines::ships::ShipBoard;
use std::alloc::{AllocError, Global};
use text::Page;

// Both boards. Each is sound wherever it stands, as the type of a board's index says.
#[derive(Drop)]
pub struct Server {
    pub(crate) berths: BoardIndex<BerthBoard>,
    pub(crate) ships: BoardIndex<ShipBoard>,
}

// The text of what either board replied.
fn put_answer(answer: Answer, out: &mut Page)
    ensures text { out.new ≡ appended out.old (board_text answer) }
    ensures short { length (board_text answer) ≤ 27 }
{
    match answer {
        Answer::Berths(reply) => put_reply(reply, out),
        Answer::Ships(reply) => put_reply(reply, out),
    }
}

impl Server {
    // Both boards, made new.
    pub fn new(alloc: Global) -> Result<Server, AllocError>
        ensures value { IfOk result (λ s. boards_of s ≡ new_boards) }
        ensures sound { IfOk result (λ s. Sounds (boards_of s)) }
    {
        let berth = Berth {
            harbour: 0,
            berth: 0,
        };
        let sailing = Sailing { ship: 0, minute: 0 };
        let name = Name::new(b"-").unwrap();
        let berths = BoardIndex::<BerthBoard>::new(alloc, berth, sailing)?;
        let ships = BoardIndex::<ShipBoard>::new(alloc, name, 0)?;
        Ok(Server { berths, ships })
    }

    // Does what a line asks for. A line's fault goes up whole inside the board's, and so does the index's.
    fn serve(&mut self, line: &[u8]) -> Result<Answer, BoardFault>
        ensures step { (result, boards_of self.new) ≡ served_by (message_of line.now) (boards_of self.old) }
        ensures law { LawAt (message_of line.now) (boards_of self.old) (boards_of self.new) }
    {
        match read_line(line)? {
            Message::Berths(call) => Ok(Answer::Berths(self.berths.call(call)?)),
            Message::Ships(call) => Ok(Answer::Ships(self.ships.call(call)?)),
        }
    }

    // Does what a line asks for, and adds the answer to a text: for any bytes, exactly the answer and the
    // boards of the rules, and both boards sound.
    pub fn answer(&mut self, line: &[u8], out: &mut Page)
        ensures exact { (out.new, boards_of self.new) ≡ answered out.old line.now (boards_of self.old) }
        ensures short { length (served line.now (boards_of self.old)).0 ≤ 48 }
        ensures sound { Sounds (boards_of self.new) }
        ensures law { LawAt (message_of line.now) (boards_of self.old) (boards_of self.new) }
    {
        match self.serve(line) {
            Ok(answer) => put_answer(answer, out),
            Err(fault) => put_fault(fault, out),
        }
    }
}
