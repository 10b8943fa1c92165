ghost use Rattle.std.specs.Prelude.{◌≡◌, ◌≤◌, length};
ghost use Rattle.text.specs.Kept.{added};
ghost use Rattle.explain.specs.Tallies.{tally, counted, tally_text};

use text::Text;

// How many lines were accepted and refused.
#[derive(Clone, Copy)]
pub struct Tally {
    accepted: u64,
    refused: u64,
}

impl Tally {
    pub fn new() -> Tally
        ensures { result ≡ tally 0 0 }
    {
        Tally {
            accepted: 0,
            refused: 0,
        }
    }

    // One line more; a full count stays as it is.
    pub fn count(&mut self, accepted: bool)
        ensures { self.new ≡ counted accepted self.old }
    {
        if accepted {
            self.accepted = self.accepted.saturating_add(1);
        } else {
            self.refused = self.refused.saturating_add(1);
        }
    }

    pub fn explain<const N: usize>(self, out: &mut Text<N>)
        ensures text { out.new ≡ added N out.old (tally_text self) }
        ensures short { length (tally_text self) ≤ 87 }
    {
        out.push_number(self.accepted.saturating_add(self.refused));
        out.push_bytes(b" lines: ");
        out.push_number(self.accepted);
        out.push_bytes(b" accepted, ");
        out.push_number(self.refused);
        out.push_bytes(b" refused");
    }
}
