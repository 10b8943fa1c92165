use calls::call::{Action, Call, Task};
use calls::operation::Operation;
use keys::berth::Berth;
use keys::name::Name;
use lines::berths::Sailing;
use lines::message::{Message, read_line};
use lines::word::{Letter, Verb};
use std::test::Fail;

// A line, and the whole of the begin on the berth board that it asks for.
#[derive(Clone, Copy)]
struct BerthBegin {
    line: &'static [u8],
    session: u8,
    operation: Operation,
    harbour: u16,
    berth: u16,
    ship: u32,
    minute: u16,
}

#[test]
fn begins_on_the_berth_board(rt: HostRuntime) {
    let cases = [
        BerthBegin {
            line: b"B,begin,0,insert,3,1,77,375",
            session: 0,
            operation: Operation::Insert,
            harbour: 3,
            berth: 1,
            ship: 77,
            minute: 375,
        },
        BerthBegin {
            line: b"B,begin,255,find,65535,0,4294967295,1439",
            session: 255,
            operation: Operation::Find,
            harbour: 65535,
            berth: 0,
            ship: 4294967295,
            minute: 1439,
        },
        BerthBegin {
            line: b"B,begin,0000000015,remove,0,65535,007,0",
            session: 15,
            operation: Operation::Remove,
            harbour: 0,
            berth: 65535,
            ship: 7,
            minute: 0,
        },
    ];
    for case in cases {
        let task = Task {
            operation: case.operation,
            key: Berth {
                harbour: case.harbour,
                berth: case.berth,
            },
            value: Sailing {
                ship: case.ship,
                minute: case.minute,
            },
        };
        let call = Call {
            session: case.session,
            action: Action::Begin(task),
        };
        assert_eq!(rt; read_line(case.line), Ok(Message::Berths(call)));
    }
}

// A line, and the whole of the begin on the ship board that it asks for.
#[derive(Clone, Copy)]
struct ShipBegin {
    line: &'static [u8],
    session: u8,
    operation: Operation,
    name: &'static [u8],
    berth: u16,
}

#[test]
fn begins_on_the_ship_board(rt: HostRuntime) -> Result<(), Fail> {
    let cases = [
        ShipBegin {
            line: b"S,begin,0,write,Aurora,1",
            session: 0,
            operation: Operation::Write,
            name: b"Aurora",
            berth: 1,
        },
        ShipBegin {
            line: b"S,begin,7,replace,Isle of Skye,65535",
            session: 7,
            operation: Operation::Replace,
            name: b"Isle of Skye",
            berth: 65535,
        },
        ShipBegin {
            line: b"S,begin,16,point,\0\r\xff,00",
            session: 16,
            operation: Operation::Point,
            name: b"\0\r\xff",
            berth: 0,
        },
    ];
    for case in cases {
        let task = Task {
            operation: case.operation,
            key: Name::new(case.name)?,
            value: case.berth,
        };
        let call = Call {
            session: case.session,
            action: Action::Begin(task),
        };
        assert_eq!(rt; read_line(case.line), Ok(Message::Ships(call)));
    }
    Ok(())
}

// A line that begins nothing, the letter of its board, its session and its verb.
#[derive(Clone, Copy)]
struct Short(&'static [u8], Letter, u8, Verb);

fn verb_of<K: Copy, V: Copy>(action: Action<K, V>) -> Verb {
    match action {
        Action::Begin(_) => Verb::Begin,
        Action::Turn => Verb::Turn,
        Action::Collect => Verb::Collect,
        Action::Abandon => Verb::Abandon,
    }
}

#[test]
fn other_calls(rt: HostRuntime) -> Result<(), Fail> {
    let cases = [
        Short(b"B,turn,0", Letter::B, 0, Verb::Turn),
        Short(b"S,turn,255", Letter::S, 255, Verb::Turn),
        Short(b"B,collect,015", Letter::B, 15, Verb::Collect),
        Short(b"S,collect,9", Letter::S, 9, Verb::Collect),
        Short(b"B,abandon,16", Letter::B, 16, Verb::Abandon),
        Short(b"S,abandon,3", Letter::S, 3, Verb::Abandon),
    ];
    for Short(line, letter, session, verb) in cases {
        let (board, found, action) = match read_line(line)? {
            Message::Berths(call) => (Letter::B, call.session, verb_of(call.action)),
            Message::Ships(call) => (Letter::S, call.session, verb_of(call.action)),
        };
        assert_eq!(rt; board, letter);
        assert_eq!(rt; found, session);
        assert_eq!(rt; action, verb);
    }
    Ok(())
}
