// Answers each line of standard input by the berth board or the ship board.
#![tactic(auto)]

ghost use Rattle.std.specs.Prelude.{◌≡◌, OnOk};
ghost use Rattle.board_server.specs.Streams.{fed, cleared};

use board_server::stream::Stream;
use std::io;
use std::io::{Read, Write};

// Takes in a part of the input, every byte once and in order, and writes out the answers whenever
// their room is full, and at the end.
fn pass<W: Write>(stream: &mut Stream, bytes: &[u8], out: &mut W) -> io::Result<()>
    ensures { OnOk result (cleared stream.new ≡ cleared (fed stream.old bytes.now)) }
{
    let mut rest = bytes;
    while !rest.is_empty() {
        stream.clear();
        let count = stream.feed(rest);
        out.write_all(stream.text())?;
        rest = &rest[count..];
    }
    Ok(())
}

fn main(rt: HostRuntime) -> anyhow::Result<()> {
    let mut input = rt.stdin();
    let mut out = rt.stdout();
    let mut stream = Stream::new(rt.alloc())?;
    let mut chunk = [0u8; 65536];
    // every loop is proved to end, so this one has a bound, which no input reaches; `explain` reads so too, but
    // has text left to write where a read fails
    for _ in 0..u64::MAX {
        let count = input.read(&mut chunk)?;
        if count == 0 {
            break;
        }
        pass(&mut stream, &chunk[0..count], &mut out)?;
    }
    stream.clear();
    stream.finish();
    out.write_all(stream.text())?;
    Ok(())
}
