ghost use Rattle.std.specs.Prelude.{◌≡◌, ℕ, ◌≤◌, List, length, decimal};
ghost use Rattle.board_server.specs.Answers.{appended, sailing_text};

use lines::berths::Sailing;
use text::Page;

// A value of a board, as the fields of an answer. A trait of this crate's own: explain gives the same
// types other texts.
pub trait ShowValue: Copy {
    ghost shown: { Self → List ℕ };

    fn show(self, out: &mut Page)
        ensures text { out.new ≡ appended out.old (shown self) }
        ensures short { length (shown self) ≤ 16 };
}

#[tactic(auto, using(text::proofs::Adding::added_twice))]
impl ShowValue for Sailing {
    ghost shown = { sailing_text };

    fn show(self, out: &mut Page) {
        out.push_number(self.ship);
        out.push(b',');
        out.push_number(self.minute);
    }
}

impl ShowValue for u16 {
    ghost shown = { decimal };

    fn show(self, out: &mut Page) {
        out.push_number(self);
    }
}
