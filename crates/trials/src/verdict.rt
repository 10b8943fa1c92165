ghost use Rattle.std.specs.Prelude.{◌≡◌};
ghost use Rattle.lines.specs.Boards.{message_of};
ghost use Rattle.trials.specs.Verdicts.{verdict_of};

use lines::message::read_line;

// Number, field and byte of the line's refusal, or 0 at each where the line is accepted.
pub fn verdict_of(line: &[u8]) -> (u8, usize, usize)
    ensures { result ≡ verdict_of (message_of line.now) }
{
    match read_line(line) {
        // no refusal has the number 0, and a row stays a row of a table
        Ok(_) => (0, 0, 0),
        Err(fault) => {
            let place = fault.place();
            (fault.number(), place.field, place.byte)
        }
    }
}
