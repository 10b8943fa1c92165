// Says of each line of standard input what it asks for, or why it is refused.
#![tactic(auto, using(text::proofs::Adding::added_twice))]

ghost use Rattle.std.specs.Prelude.{◌≡◌, ◌-◌, ◌^◌, ◌<◌, false, length, [], IfSome, OnOk};
ghost use Rattle.std.specs.Io.KnownBytes.{Appends};
ghost use Rattle.explain.specs.Reports.{is_full, is_due, fed, said, Writes};

mod explanation;
#[cfg(test)]
mod read_cases;
mod report;
mod show;
mod tally;

use memchr::memchr;
use report::Report;
use std::io;
use std::io::{Read, Write};

// Writes out what is said so far, and forgets it.
fn write_out<W: Write>(report: &mut Report, out: &mut W) -> io::Result<()>
    ensures written { OnOk result (Writes (W.contents out.old) (W.contents out.new) report.new report.old) }
    ensures none_left { OnOk result (report.new.text ≡ []) }
{
    out.write_all(report.text())?;
    report.clear();
    Ok(())
}

// Sees to it that there is room for what is said of one line more.
fn make_room<W: Write>(report: &mut Report, out: &mut W) -> io::Result<()>
    ensures written { OnOk result (Writes (W.contents out.old) (W.contents out.new) report.new report.old) }
    ensures room { OnOk result (is_full report.new ≡ false) }
    ensures waits { is_full report.old ≡ false → report.new ≡ report.old }
{
    if report.is_full() {
        write_out(report, out)?;
    }
    Ok(())
}

// Sees to it that little is held back while more of the input is awaited.
fn send_on<W: Write>(report: &mut Report, out: &mut W) -> io::Result<()>
    ensures written { OnOk result (Writes (W.contents out.old) (W.contents out.new) report.new report.old) }
    ensures little { OnOk result (is_due report.new ≡ false) }
    ensures waits { is_due report.old ≡ false → report.new ≡ report.old }
{
    if report.is_due() {
        write_out(report, out)?;
    }
    Ok(())
}

// Explains each line that ends in these bytes; what follows the last one is kept. Nothing that is said is
// cut or lost: what is not written yet stands in the report, and is less than 8192 bytes.
fn feed<W: Write>(report: &mut Report, bytes: &[u8], out: &mut W) -> io::Result<()>
    requires { is_full report.old ≡ false }
    ensures written { OnOk result (Writes (W.contents out.old) (W.contents out.new) report.new (fed report.old bytes.now)) }
    ensures little { OnOk result (is_due report.new ≡ false) }
{
    let mut rest = bytes;
    while let Some(end) = memchr(b'\n', rest) {
        let (part, after) = rest.split_at(end);
        report.end_line(part);
        make_room(report, out)?;
        rest = &after[1..];
    }
    if !rest.is_empty() {
        report.begin_line(rest);
    }
    send_on(report, out)
}

// Explains each line of an input, and says how many there were. If a read fails, what was said before
// goes out all the same.
fn explain_all<R: Read, W: Write>(input: &mut R, out: &mut W) -> io::Result<()>
    ensures { OnOk result (IfSome (R.remaining input.old) (λ bytes. length bytes < 2 ^ 64 - 1 → Appends (W.contents out.old) (W.contents out.new) (said bytes))) }
{
    let mut chunk = [0u8; 65536];
    let mut report = Report::new();
    // every loop is proved to end, so this one has a bound, which no input reaches; `boards` reads so too, but
    // holds nothing back that a read that fails would lose
    for _ in 0..u64::MAX {
        let count = match input.read(&mut chunk) {
            Ok(count) => count,
            Err(error) => {
                let _ = out.write_all(report.text());
                return Err(error);
            }
        };
        if count == 0 {
            break;
        }
        feed(&mut report, &chunk[..count], out)?;
    }
    report.finish();
    out.write_all(report.text())
}

fn main(rt: HostRuntime) -> io::Result<()> {
    let mut input = rt.stdin();
    let mut out = rt.stdout();
    explain_all(&mut input, &mut out)
}
