ghost use Rattle.std.specs.Prelude.{◌≡◌, ◌≤◌, length};
ghost use Rattle.board_server.specs.Answers.{appended, turn_text, collect_text, reply_text, fault_text};

use crate::fault::BoardFault;
use crate::show::ShowValue;
use calls::reply::{Progress, Reply};
use lines::berths::Sailing;
use text::Page;

// What an accepted call was replied, by its board.
#[derive(Clone, Copy, Debug, PartialEq, Eq)]
pub enum Answer {
    Berths(Reply<Sailing>),
    Ships(Reply<u16>),
}

// Words and texts are bytes and no `Display`: a contract names each byte of an answer, and none is
// written by way of a formatter.
fn turn_words(progress: Progress) -> &'static [u8]
    ensures text { result.now ≡ turn_text progress }
    ensures short { length (turn_text progress) ≤ 10 }
{
    match progress {
        Progress::Moved => b"ok,moved",
        Progress::Again => b"ok,again",
        Progress::Held => b"ok,held",
        Progress::Claimed => b"ok,claimed",
        Progress::Ended => b"ok,ended",
    }
}

#[tactic(auto, using(text::proofs::Adding::added_twice))]
fn put_collected<V: ShowValue>(value: Option<V>, out: &mut Page)
    ensures text { out.new ≡ appended out.old (collect_text V.ShowValue.shown value) }
    ensures short { length (collect_text V.ShowValue.shown value) ≤ 27 }
{
    match value {
        None => out.push_bytes(b"ok,absent"),
        Some(value) => {
            out.push_bytes(b"ok,present,");
            value.show(out);
        }
    }
}

// The text of an accepted call's reply.
pub fn put_reply<V: ShowValue>(reply: Reply<V>, out: &mut Page)
    ensures text { out.new ≡ appended out.old (reply_text V.ShowValue.shown reply) }
    ensures short { length (reply_text V.ShowValue.shown reply) ≤ 27 }
{
    match reply {
        Reply::Begun => out.push_bytes(b"ok,begin"),
        Reply::Turned(progress) => out.push_bytes(turn_words(progress)),
        Reply::Collected(value) => put_collected(value, out),
        Reply::Abandoned => out.push_bytes(b"ok,abandon"),
    }
}

// The text of a refusal. `explain` begins a refused line so too, but its fault has another type, and no
// crate below both has texts and faults.
#[tactic(auto, using(text::proofs::Adding::added_twice))]
pub fn put_fault(fault: BoardFault, out: &mut Page)
    ensures text { out.new ≡ appended out.old (fault_text fault) }
    ensures short { length (fault_text fault) ≤ 48 }
{
    let place = fault.place();
    out.push_bytes(b"no,");
    out.push_number(fault.number());
    out.push(b',');
    out.push_number(place.field);
    out.push(b',');
    out.push_number(place.byte);
}
