ghost use Rattle.std.specs.Prelude.{◌≡◌};
ghost use Rattle.lines.specs.Boards.{message_in, message_by, message_of};
ghost use Rattle.lines.specs.Readings.{text};

use crate::berths::{BerthBoard, Sailing};
use crate::call::read_call;
use crate::fault::{FieldFault, LineFault};
use crate::reader::Reader;
use crate::ships::ShipBoard;
use crate::word::Letter;
use calls::call::Call;
use keys::berth::Berth;
use keys::name::Name;

// A call on one of the two boards.
#[derive(Clone, Copy, Debug, PartialEq, Eq)]
pub enum Message {
    Berths(Call<Berth, Sailing>),
    Ships(Call<Name, u16>),
}

// The longest line that is read.
pub const MAX_LINE: usize = 80;

fn read_message(from: &mut Reader<'_>) -> Result<Message, FieldFault>
    requires { from.old.next.field ≡ 1 }
    ensures value { (result, from.new.next) ≡ message_in (text from.old) from.old.next }
{
    match from.word::<Letter>()? {
        Letter::B => Ok(Message::Berths(read_call::<BerthBoard>(from)?)),
        Letter::S => Ok(Message::Ships(read_call::<ShipBoard>(from)?)),
    }
}

// What a line asks for, or why it is refused.
pub fn read_line(line: &[u8]) -> Result<Message, LineFault>
    ensures { result ≡ message_of line.now }
{
    if line.is_empty() || line.len() > MAX_LINE {
        return Err(LineFault::Length);
    }
    let mut reader = Reader::new(line);
    Ok(read_message(&mut reader)?)
}
