ghost use Rattle.std.specs.Prelude.{◌≡◌, ◌≤◌, length, is_ok};
ghost use Rattle.lines.specs.Boards.{message_of};
ghost use Rattle.lines.specs.Words.{operation as word_of};
ghost use Rattle.text.specs.Kept.{added};
ghost use Rattle.explain.specs.Explained.{place_text, task_text, action_text, call_text, message_text, name_fault_text, cause_text, reason_text, fault_text, line_text};

use crate::show::Show;
use calls::call::{Action, Call, Task};
use calls::operation::Operation;
use keys::bucket::{bucket_of, tag_of};
use keys::key::Key;
use keys::name::NameFault;
use lines::fault::{Cause, LineFault};
use lines::message::{Message, read_line};
use text::Text;

// The head bits by which keys are placed.
const HEAD_BITS: u8 = 4;

// The word of an operation in a line. Bytes and no `Display`, here and below: a contract names each,
// and none is written by way of a formatter.
fn operation_word(operation: Operation) -> &'static [u8]
    ensures text { result.now ≡ word_of operation }
    ensures short { length (word_of operation) ≤ 7 }
{
    match operation {
        Operation::Find => b"find",
        Operation::Insert => b"insert",
        Operation::Write => b"write",
        Operation::Replace => b"replace",
        Operation::Remove => b"remove",
        Operation::Point => b"point",
    }
}

// Where a key with this hash lies.
fn explain_place<const N: usize>(hash: u16, out: &mut Text<N>)
    ensures text { out.new ≡ added N out.old (place_text hash) }
    ensures short { length (place_text hash) ≤ 35 }
{
    out.push_bytes(b"hash ");
    out.push_number(hash);
    out.push_bytes(b", bucket ");
    out.push_number(bucket_of(HEAD_BITS, hash));
    out.push_bytes(b", tag ");
    out.push_number(tag_of(HEAD_BITS, hash));
}

fn explain_task<K: Key + Show<N>, V: Show<N>, const N: usize>(task: Task<K, V>, out: &mut Text<N>)
    ensures text { out.new ≡ added N out.old (task_text K.Show.shown V.Show.shown K.Key.digest task) }
    ensures short { length (task_text K.Show.shown V.Show.shown K.Key.digest task) ≤ 162 }
{
    out.push_bytes(b" begins ");
    out.push_bytes(operation_word(task.operation));
    out.push_bytes(b": ");
    task.key.show(out);
    out.push_bytes(b", ");
    task.value.show(out);
    out.push_bytes(b"; ");
    explain_place(task.key.hash(), out);
}

fn explain_action<K: Key + Show<N>, V: Show<N>, const N: usize>(
    action: Action<K, V>,
    out: &mut Text<N>,
)
    ensures text { out.new ≡ added N out.old (action_text K.Show.shown V.Show.shown K.Key.digest action) }
    ensures short { length (action_text K.Show.shown V.Show.shown K.Key.digest action) ≤ 162 }
{
    match action {
        Action::Begin(task) => explain_task(task, out),
        Action::Turn => out.push_bytes(b" takes a turn"),
        Action::Collect => out.push_bytes(b" collects"),
        Action::Abandon => out.push_bytes(b" abandons"),
    }
}

fn explain_call<K: Key + Show<N>, V: Show<N>, const N: usize>(call: Call<K, V>, out: &mut Text<N>)
    ensures text { out.new ≡ added N out.old (call_text K.Show.shown V.Show.shown K.Key.digest call) }
    ensures short { length (call_text K.Show.shown V.Show.shown K.Key.digest call) ≤ 173 }
{
    out.push_bytes(b"session ");
    out.push_number(call.session);
    explain_action(call.action, out);
}

fn explain_message<const N: usize>(message: Message, out: &mut Text<N>)
    ensures text { out.new ≡ added N out.old (message_text message) }
    ensures short { length (message_text message) ≤ 186 }
{
    match message {
        Message::Berths(call) => {
            out.push_bytes(b"berth board: ");
            explain_call(call, out);
        }
        Message::Ships(call) => {
            out.push_bytes(b"ship board: ");
            explain_call(call, out);
        }
    }
}

fn name_words(fault: NameFault) -> &'static [u8]
    ensures text { result.now ≡ name_fault_text fault }
    ensures short { length (name_fault_text fault) ≤ 29 }
{
    match fault {
        NameFault::Empty => b"a name has no bytes",
        NameFault::Long => b"a name has more than 12 bytes",
    }
}

fn cause_words(cause: Cause) -> &'static [u8]
    ensures text { result.now ≡ cause_text cause }
    ensures short { length (cause_text cause) ≤ 75 }
{
    match cause {
        Cause::Missing => b"a wanted field is missing or empty",
        Cause::Strange =>
            b"a word is none of those allowed, or a number holds a byte other than 0 to 9",
        Cause::Large => b"a number has more than 10 digits, or is above its limit",
        Cause::Name(fault) => name_words(fault),
        Cause::Extra => b"a field follows the last one wanted",
    }
}

fn reason_words(fault: LineFault) -> &'static [u8]
    ensures text { result.now ≡ reason_text fault }
    ensures short { length (reason_text fault) ≤ 75 }
{
    match fault {
        LineFault::Length => b"a line has no bytes, or more than 80",
        LineFault::Field(field) => cause_words(field.cause),
    }
}

fn explain_fault<const N: usize>(fault: LineFault, out: &mut Text<N>)
    ensures text { out.new ≡ added N out.old (fault_text fault) }
    ensures short { length (fault_text fault) ≤ 125 }
{
    let place = fault.place();
    out.push_bytes(b"no,");
    out.push_number(fault.number());
    out.push_bytes(b",");
    out.push_number(place.field);
    out.push_bytes(b",");
    out.push_number(place.byte);
    out.push_bytes(b": ");
    out.push_bytes(reason_words(fault));
}

// Writes what a line asks for, or why it is refused, and says whether it was accepted.
pub fn explain_line<const N: usize>(line: &[u8], out: &mut Text<N>) -> bool
    ensures accepted { result ≡ is_ok (message_of line.now) }
    ensures text { out.new ≡ added N out.old (line_text line.now) }
    ensures short { length (line_text line.now) ≤ 255 }
{
    match read_line(line) {
        Ok(message) => {
            explain_message(message, out);
            true
        }
        Err(fault) => {
            explain_fault(fault, out);
            false
        }
    }
}
