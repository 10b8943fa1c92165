use crate::verdict::verdict_of;
use std::process::Abort;

// A line, and the number, field and byte of its refusal, or 0 at each where it is accepted.
// No refusal has the number 0, and a row stays a row of a table.
#[derive(Clone, Copy)]
struct Case(&'static [u8], u8, usize, usize);

fn run(rt: &impl Abort, cases: &[Case]) {
    for Case(line, number, field, byte) in cases {
        assert_eq!(rt;
            verdict_of(line),
            (*number, *field, *byte),
            "the line {line:?}"
        );
    }
}

#[test]
fn lengths(rt: HostRuntime) {
    run(
        &rt,
        &[
            Case(b"", 1, 0, 0),
            Case(b"B", 2, 2, 1),
            // 70 bytes, the longest that is accepted
            Case(
                b"B,begin,0000000255,replace,0000065535,0000065535,4294967295,0000001439",
                0,
                0,
                0,
            ),
            // 80 bytes, and 81
            Case(
                b"S,begin,9,remove,the night ferry that calls at both islands before the first bus",
                5,
                5,
                17,
            ),
            Case(
                b"S,begin,9,remove,the night ferry that calls at both islands before the first post",
                1,
                0,
                0,
            ),
            // the same with zeros
            Case(
                b"B,turn,0000000000000000000000000000000000000000000000000000000000000000000000000",
                4,
                3,
                7,
            ),
            Case(
                b"B,turn,00000000000000000000000000000000000000000000000000000000000000000000000000",
                1,
                0,
                0,
            ),
        ],
    );
}

#[test]
fn letters_and_verbs(rt: HostRuntime) {
    run(
        &rt,
        &[
            Case(b",", 2, 1, 0),
            Case(b",turn,0", 2, 1, 0),
            Case(b"b,turn,0", 3, 1, 0),
            Case(b"BS,turn,0", 3, 1, 0),
            Case(b" B,turn,0", 3, 1, 0),
            Case(b"B\0,turn,0", 3, 1, 0),
            Case(b"B,", 2, 2, 2),
            Case(b"B,,0", 2, 2, 2),
            Case(b"B,Turn,0", 3, 2, 2),
            Case(b"B,tur,0", 3, 2, 2),
            Case(b"S,turns,0", 3, 2, 2),
            Case(b"S,turn\r,0", 3, 2, 2),
            Case(b"S,turn,0", 0, 0, 0),
            Case(b"B,collect,0", 0, 0, 0),
            Case(b"S,abandon,0", 0, 0, 0),
        ],
    );
}

#[test]
fn sessions(rt: HostRuntime) {
    run(
        &rt,
        &[
            Case(b"B,turn", 2, 3, 6),
            Case(b"B,turn,", 2, 3, 7),
            Case(b"B,turn,,", 2, 3, 7),
            Case(b"B,turn,x", 3, 3, 7),
            Case(b"B,turn,-1", 3, 3, 7),
            Case(b"B,turn,1 ", 3, 3, 7),
            Case(b"B,turn,/", 3, 3, 7),
            Case(b"B,turn,:", 3, 3, 7),
            Case(b"B,turn,1\r", 3, 3, 7),
            Case(b"B,turn,1\0", 3, 3, 7),
            Case(b"B,turn,255", 0, 0, 0),
            Case(b"B,turn,256", 4, 3, 7),
            Case(b"B,turn,0000000255", 0, 0, 0),
            Case(b"B,turn,0000000256", 4, 3, 7),
            Case(b"B,turn,9999999999", 4, 3, 7),
            Case(b"B,turn,00000000000", 4, 3, 7),
            Case(b"B,turn,0000000000x", 3, 3, 7),
        ],
    );
}

#[test]
fn operations(rt: HostRuntime) {
    run(
        &rt,
        &[
            Case(b"B,begin,0", 2, 4, 9),
            Case(b"B,begin,0,", 2, 4, 10),
            Case(b"S,begin,0,,A,1", 2, 4, 10),
            Case(b"S,begin,0,Find,A,1", 3, 4, 10),
            Case(b"S,begin,0,move,A,1", 3, 4, 10),
            Case(b"S,begin,0,find,A,1", 0, 0, 0),
            Case(b"S,begin,0,insert,A,1", 0, 0, 0),
            Case(b"S,begin,0,write,A,1", 0, 0, 0),
            Case(b"S,begin,0,replace,A,1", 0, 0, 0),
            Case(b"S,begin,0,remove,A,1", 0, 0, 0),
            Case(b"S,begin,0,point,A,1", 0, 0, 0),
        ],
    );
}

#[test]
fn berth_keys(rt: HostRuntime) {
    run(
        &rt,
        &[
            Case(b"B,begin,0,insert", 2, 5, 16),
            Case(b"B,begin,0,insert,", 2, 5, 17),
            Case(b"B,begin,0,insert,A,1,77,615", 3, 5, 17),
            Case(b"B,begin,0,insert,65535,1,77,615", 0, 0, 0),
            Case(b"B,begin,0,insert,65536,1,77,615", 4, 5, 17),
            Case(b"B,begin,0,insert,0", 2, 6, 18),
            Case(b"B,begin,0,insert,0,,77,615", 2, 6, 19),
            Case(b"B,begin,0,insert,0,A,77,615", 3, 6, 19),
            Case(b"B,begin,0,insert,0,65535,77,615", 0, 0, 0),
            Case(b"B,begin,0,insert,0,65536,77,615", 4, 6, 19),
        ],
    );
}

#[test]
fn sailings(rt: HostRuntime) {
    run(
        &rt,
        &[
            Case(b"B,begin,0,insert,0,1", 2, 7, 20),
            Case(b"B,begin,0,insert,0,1,,615", 2, 7, 21),
            Case(b"B,begin,0,insert,0,1,A,615", 3, 7, 21),
            Case(b"B,begin,0,insert,0,1,4294967295,615", 0, 0, 0),
            Case(b"B,begin,0,insert,0,1,4294967296,615", 4, 7, 21),
            Case(b"B,begin,0,insert,0,1,00000000077,615", 4, 7, 21),
            Case(b"B,begin,0,insert,0,1,77", 2, 8, 23),
            Case(b"B,begin,0,insert,0,1,77,", 2, 8, 24),
            Case(b"B,begin,0,insert,0,1,77,6:15", 3, 8, 24),
            Case(b"B,begin,0,insert,0,1,77,1439", 0, 0, 0),
            Case(b"B,begin,0,insert,0,1,77,1440", 4, 8, 24),
        ],
    );
}

#[test]
fn names_and_berth_numbers(rt: HostRuntime) {
    run(
        &rt,
        &[
            Case(b"S,begin,0,insert", 2, 5, 16),
            Case(b"S,begin,0,insert,", 2, 5, 17),
            Case(b"S,begin,0,insert,,1", 2, 5, 17),
            Case(b"S,begin,0,insert,ABCDEFGHIJKL,1", 0, 0, 0),
            Case(b"S,begin,0,insert,ABCDEFGHIJKLM,1", 5, 5, 17),
            // any byte but a comma, byte 10 too
            Case(b"S,begin,0,insert,\0\n\r \xff,1", 0, 0, 0),
            Case(b"S,begin,0,insert,A", 2, 6, 18),
            Case(b"S,begin,0,insert,A,", 2, 6, 19),
            Case(b"S,begin,0,insert,A,B", 3, 6, 19),
            Case(b"S,begin,0,insert,A,65535", 0, 0, 0),
            Case(b"S,begin,0,insert,A,65536", 4, 6, 19),
        ],
    );
}

#[test]
fn fields_that_follow(rt: HostRuntime) {
    run(
        &rt,
        &[
            Case(b"B,turn,0,", 6, 4, 9),
            Case(b"B,turn,0,1", 6, 4, 9),
            Case(b"S,collect,15,,", 6, 4, 13),
            Case(b"S,abandon,15,x", 6, 4, 13),
            Case(b"B,begin,0,insert,0,1,77,615,", 6, 9, 28),
            Case(b"B,begin,0,insert,0,1,77,615,0", 6, 9, 28),
            Case(b"S,begin,0,insert,A,1,", 6, 7, 21),
            Case(b"S,begin,0,insert,A,1,2,3", 6, 7, 21),
        ],
    );
}

#[test]
fn first_fault_decides(rt: HostRuntime) {
    run(
        &rt,
        &[
            Case(b"b,wait,x", 3, 1, 0),
            Case(b"B,wait,x", 3, 2, 2),
            Case(b"B,turn,256,", 4, 3, 7),
            Case(b"S,begin,256,move,ABCDEFGHIJKLM,x", 4, 3, 8),
            Case(b"S,begin,255,find,ABCDEFGHIJKLM,x", 5, 5, 17),
            Case(b"B,begin,0,find,65536,x,,", 4, 5, 15),
        ],
    );
}
