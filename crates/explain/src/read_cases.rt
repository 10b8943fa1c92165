use crate::explain_all;
use std::io;
use std::io::{ErrorKind, Read};

// Gives its bytes, and then fails.
#[derive(Drop)]
struct Broken<'a> {
    rest: &'a [u8],
}

impl Read for Broken<'_> {
    fn read(&mut self, buf: &mut [u8]) -> io::Result<usize> {
        if self.rest.is_empty() {
            return Err(ErrorKind::ConnectionReset.into());
        }
        self.rest.read(buf)
    }
}

// What was said before goes out, once; a line that was begun is not explained, and no counts are said.
#[test]
fn a_read_that_fails(rt: HostRuntime) {
    let mut input = Broken {
        rest: b"B,turn,0\nS,collect,1\nB,turn",
    };
    let mut out = Vec::new(rt.alloc());
    let failed = explain_all(&mut input, &mut out);
    assert!(rt; failed.is_err_and(|e| e.kind() == ErrorKind::ConnectionReset));
    assert_eq!(rt;
        out.as_slice(),
        b"berth board: session 0 takes a turn\nship board: session 1 collects\n".as_slice()
    );
}
