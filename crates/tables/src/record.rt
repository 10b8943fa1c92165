ghost use Rattle.std.specs.Prelude.{◌≡◌};
ghost use Rattle.tables.specs.Records.{in_session, with_hand};
ghost use Rattle.tables.specs.Sessions.{at_stage, ended_as};

use crate::items::change;
use crate::session::{Session, Stage};
use calls::operation::Operation;

// The plain part of an index's record: its sessions, head bits, places, and the place set aside
// last. A record that was never made is blank, and `made` is a flag beside the rest since the rule
// book gives each field of a blank record too.
#[derive(Clone, Copy, Default)]
pub struct Core {
    pub sessions: [Session; 16],
    pub bits: u8,
    pub places: u32,
    pub hand: u32,
    pub made: bool,
}

impl Core {
    // Puts a session at another stage.
    pub fn set_stage(&mut self, session: usize, stage: Stage)
        ensures { self.new ≡ in_session session (at_stage stage) self.old }
    {
        change(&mut self.sessions, session, |seat| seat.set_stage(stage));
    }

    // Ends a session's task.
    pub fn end_session(&mut self, session: usize, operation: Operation, present: bool)
        ensures { self.new ≡ in_session session (ended_as operation present) self.old }
    {
        change(&mut self.sessions, session, |seat| {
            seat.end(operation, present);
        });
    }

    pub fn set_hand(&mut self, place: u32)
        ensures { self.new ≡ with_hand place self.old }
    {
        self.hand = place;
    }
}
