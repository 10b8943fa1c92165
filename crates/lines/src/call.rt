ghost use Rattle.std.specs.Prelude.{◌≡◌, ◌-◌};
ghost use Rattle.lines.specs.Calls.{task_in, action_in, call_in, wanted_fields};
ghost use Rattle.lines.specs.Readings.{Reads, text};

use crate::board::Board;
use crate::fault::FieldFault;
use crate::reader::Reader;
use crate::word::Verb;
use calls::call::{Action, Call, Task};
use calls::operation::Operation;

// How many fields a line with this verb has.
fn wanted_fields<B: Board>(verb: Verb) -> usize
    ensures { result ≡ wanted_fields B.BEGIN_FIELDS verb }
{
    match verb {
        Verb::Begin => B::BEGIN_FIELDS,
        Verb::Turn | Verb::Collect | Verb::Abandon => 3,
    }
}

// What a begin goes on with.
fn read_task<B: Board>(from: &mut Reader<'_>) -> Result<Task<B::Key, B::Value>, FieldFault>
    ensures { Reads (task_in B.Board.key_in B.Board.value_in) (B.BEGIN_FIELDS - 3) from.old from.new result }
{
    let operation = from.word::<Operation>()?;
    let key = B::read_key(from)?;
    let value = B::read_value(from)?;
    Ok(Task {
        operation,
        key,
        value,
    })
}

// What a verb goes on with.
fn read_action<B: Board>(
    from: &mut Reader<'_>,
    verb: Verb,
) -> Result<Action<B::Key, B::Value>, FieldFault>
    ensures { Reads (action_in B.Board.key_in B.Board.value_in verb) (wanted_fields B.BEGIN_FIELDS verb - 3) from.old from.new result }
{
    match verb {
        Verb::Begin => Ok(Action::Begin(read_task::<B>(from)?)),
        Verb::Turn => Ok(Action::Turn),
        Verb::Collect => Ok(Action::Collect),
        Verb::Abandon => Ok(Action::Abandon),
    }
}

// A call on the board B: what follows its letter, the first field.
pub(crate) fn read_call<B: Board>(
    from: &mut Reader<'_>,
) -> Result<Call<B::Key, B::Value>, FieldFault>
    requires { from.old.next.field ≡ 2 }
    ensures value { (result, from.new.next) ≡ call_in B.Board.key_in B.Board.value_in (text from.old) from.old.next }
    ensures line { text from.new ≡ text from.old }
{
    let verb = from.word::<Verb>()?;
    let session = from.number(255)? as u8;
    let action = read_action::<B>(from, verb)?;
    from.finish(wanted_fields::<B>(verb))?;
    Ok(Call { session, action })
}
