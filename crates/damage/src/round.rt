ghost use Rattle.std.specs.Prelude.{◌<◌, ◌≤◌};

use crate::ask::{Ask, Deed};
use crate::hostile::Manner;
use crate::lent::{Lengths, Lent, UNUSED};
use crate::reference::Phase;
use crate::tally::Tally;
use crate::trial::Trial;
use calls::call::{Action, Task};
use calls::fault::IndexFault;
use calls::operation::Operation;
use dice::Dice;
use keys::berth::Berth;

// One index and what it has to go through.
#[derive(Clone, Copy)]
pub struct Round {
    bits: u8,
    lengths: Lengths,
    manner: Manner,
    sessions: u32,
    // how many calls to a damage, in the mean, where there is any
    calls_to_harm: Option<u32>,
    ghost sessions_fit: { (0 < sessions) × (sessions ≤ 16) },
}

fn any_operation(dice: &mut Dice) -> Operation {
    match dice.below(7) {
        0 => Operation::Find,
        1 => Operation::Write,
        2 => Operation::Replace,
        3 => Operation::Remove,
        4 => Operation::Point,
        // twice as often, so that rings grow
        _ => Operation::Insert,
    }
}

// One table too long or too short by one, or all of them empty.
fn spoiled(lengths: Lengths, dice: &mut Dice) -> Lengths {
    let Lengths {
        heads,
        items,
        requests,
    } = lengths;
    match dice.below(7) {
        0 => Lengths::new(heads.saturating_add(1), items, requests),
        1 => Lengths::new(heads.saturating_sub(1), items, requests),
        2 => Lengths::new(heads, items.saturating_add(1), requests),
        3 => Lengths::new(heads, items.saturating_sub(1), requests),
        4 => Lengths::new(heads, items, requests.saturating_add(1)),
        5 => Lengths::new(heads, items, requests.saturating_sub(1)),
        _ => Lengths::new(0, 0, 0),
    }
}

impl Round {
    fn draw(dice: &mut Dice, calls_to_harm: Option<u32>) -> Round {
        let bits = dice.below(4) as u8;
        let places = dice.below(12) + 1;
        let buckets: usize = 1 << bits;
        // few sessions get far, many meet
        let most = if dice.once_in(2) { 3 } else { 16 };
        Round {
            bits,
            lengths: Lengths::new(buckets, places as usize, 16),
            manner: Manner {
                buckets: 1 << bits,
                places,
                keys: dice.below(9) + 2,
                wild: if dice.once_in(16) { 16 } else { dice.below(4) },
            },
            sessions: dice.below(most) + 1,
            calls_to_harm,
        }
    }

    fn task(self, dice: &mut Dice) -> Task<Berth, u32> {
        Task {
            operation: any_operation(dice),
            key: self.manner.key(dice),
            value: dice.roll(),
        }
    }

    // A call that the session's phase lets pass, or, once in a while, any.
    fn deed(self, phase: Phase, dice: &mut Dice) -> Deed {
        if dice.once_in(6) {
            return match dice.below(16) {
                // few makings are accepted
                0 => Deed::Make(dice.below(12) as u8),
                1..=4 => Deed::Act(Action::Abandon),
                5..=8 => Deed::Act(Action::Collect),
                9..=12 => Deed::Act(Action::Begin(self.task(dice))),
                _ => Deed::Act(Action::Turn),
            };
        }
        Deed::Act(match phase {
            Phase::Idle => Action::Begin(self.task(dice)),
            Phase::UnderWay(_) => Action::Turn,
            Phase::Ended { .. } => Action::Collect,
        })
    }

    // The number of a session, or, once in a while, of none.
    fn session(self, dice: &mut Dice) -> u8 {
        if dice.once_in(32) {
            dice.below(18) as u8
        } else {
            dice.below(self.sessions) as u8
        }
    }

    fn ask(self, trial: &Trial, dice: &mut Dice) -> Ask {
        let session = self.session(dice);
        let lengths = if dice.once_in(48) {
            spoiled(self.lengths, dice)
        } else {
            self.lengths
        };
        Ask {
            lengths,
            session,
            deed: self.deed(trial.reference.any_seat(session).phase, dice),
        }
    }

    // Damages the tables of both alike: most often one part, else everything.
    fn damage(self, trial: &mut Trial, dice: &mut Dice, tally: &mut Tally) {
        let mut tables = trial.lent;
        if dice.once_in(8) {
            self.manner.fill(&mut tables, dice);
        } else {
            self.manner.harm(&mut tables, dice);
        }
        trial.lent = tables;
        trial.reference.tables = tables;
        tally.damages = tally.damages.saturating_add(1);
    }

    // Makes an index on hostile tables, and then many calls on it. Once in a while it stays blank.
    fn run(self, tables: Lent, dice: &mut Dice, tally: &mut Tally) {
        let mut trial = Trial::new(tables);
        let making = Ask {
            lengths: self.lengths,
            session: 0,
            deed: Deed::Make(if dice.once_in(64) { 9 } else { self.bits }),
        };
        trial.ask(making, tally);
        if self.calls_to_harm.is_some() && dice.once_in(2) {
            self.damage(&mut trial, dice, tally);
        }
        for _ in 0..200 {
            let ask = self.ask(&trial, dice);
            trial.ask(ask, tally);
            if let Some(calls) = self.calls_to_harm
                && dice.once_in(calls)
            {
                self.damage(&mut trial, dice, tally);
            }
        }
    }
}

// The round of this number. Every fourth leaves the tables alone: there no place is ever outside.
pub fn run_round(number: u32, tally: &mut Tally) {
    let mut dice = Dice::new(number as u64);
    let calls_to_harm = match number % 4 {
        0 => None,
        1 => Some(4),
        2 => Some(16),
        _ => Some(64),
    };
    let round = Round::draw(&mut dice, calls_to_harm);
    let mut tables = UNUSED;
    round.manner.fill(&mut tables, &mut dice);
    let outside = tally.refused(IndexFault::OutsideTable);
    round.run(tables, &mut dice, tally);
    if calls_to_harm.is_none() {
        tally.count_undamaged(tally.refused(IndexFault::OutsideTable) == outside);
    }
}
