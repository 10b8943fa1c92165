ghost use Rattle.std.specs.Prelude.{◌≡◌, ◌+◌, ◌≤◌, false, [], length, is_ok};
ghost use Rattle.lines.specs.Boards.{message_of};
ghost use Rattle.explain.specs.Explained.{line_text};
ghost use Rattle.explain.specs.Tallies.{counted};
ghost use Rattle.explain.specs.Reports.{report, new_report, with_line, is_full, is_due, begun, ended, line_ended, finished, closed};

use crate::explanation::explain_line;
use crate::tally::Tally;
use text::{Line, Page};

// How long the text may get before it is to be written out: what is left holds what is said of one
// line more, and the counts.
const FULL: usize = 65024;

// How much text is written out before more of the input is awaited; less waits for more to come.
const DUE: usize = 8192;

// What is said of the lines so far, and how many of them were accepted and refused.
#[derive(Drop)]
pub struct Report {
    line: Line,
    text: Page,
    tally: Tally,
}

impl Report {
    pub fn new() -> Report
        ensures { result ≡ new_report }
    {
        Report {
            line: Line::new(),
            text: Page::new(),
            tally: Tally::new(),
        }
    }

    pub fn text(&self) -> &[u8]
        ensures { result.now ≡ self.now.text }
    {
        self.text.as_bytes()
    }

    // Forgets the text, once it is written out.
    pub fn clear(&mut self)
        ensures { self.new ≡ report self.old.line [] self.old.tally }
    {
        self.text.clear();
    }

    pub fn is_full(&self) -> bool
        ensures { result ≡ is_full self.now }
    {
        self.text().len() > FULL
    }

    // Whether the text is to be written out before more of the input is awaited.
    pub fn is_due(&self) -> bool
        ensures { result ≡ is_due self.now }
    {
        self.text().len() >= DUE
    }

    // Takes in a part of a line that goes on.
    pub fn begin_line(&mut self, part: &[u8])
        ensures { self.new ≡ begun part.now self.old }
    {
        self.line.push_bytes(part);
    }

    // Takes in the last part of a line. What is said of it is whole, unless the text was full.
    pub fn end_line(&mut self, part: &[u8])
        ensures value { self.new ≡ ended part.now self.old }
        ensures whole { is_full self.old ≡ false → self.new ≡ line_ended (begun part.now self.old) }
        ensures short { length self.new.text ≤ length self.old.text + 256 }
    {
        if self.line.as_bytes().is_empty() {
            explain(part, &mut self.text, &mut self.tally);
        } else {
            self.begin_line(part);
            explain(self.line.as_bytes(), &mut self.text, &mut self.tally);
            self.line.clear();
        }
    }

    // The input has ended: a last line that lacks its end is explained too, and the counts are said.
    pub fn finish(&mut self)
        ensures value { self.new ≡ finished self.old }
        ensures whole { is_full self.old ≡ false → self.new ≡ closed self.old }
    {
        if !self.line.as_bytes().is_empty() {
            self.end_line(b"");
        }
        self.tally.explain(&mut self.text);
        self.text.push(b'\n');
    }
}

// Explains a whole line, and counts it.
fn explain(line: &[u8], text: &mut Page, tally: &mut Tally)
    ensures text { text.new ≡ with_line text.old (line_text line.now) }
    ensures short { length (line_text line.now) ≤ 255 }
    ensures tally { tally.new ≡ counted (is_ok (message_of line.now)) tally.old }
{
    let accepted = explain_line(line, text);
    tally.count(accepted);
    text.push(b'\n');
}
