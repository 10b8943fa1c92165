use crate::lent::{Lengths, Lent, NONE};
use calls::call::Action;
use calls::fault::IndexFault;
use calls::operation::Operation;
use calls::reply::Reply;
use keys::berth::Berth;
use tables::item::ItemState;

// What a session under way is at, with each place that it may have.
#[derive(Clone, Copy)]
pub struct Work {
    pub operation: Operation,
    pub cursor: Option<u32>,
    pub aside: Option<u32>,
    pub claim: Option<u32>,
}

#[derive(Clone, Copy)]
pub enum Phase {
    Idle,
    UnderWay(Work),
    Ended { present: bool },
}

// A session.
#[derive(Clone, Copy)]
pub struct Seat {
    pub phase: Phase,
    pub finds: u8,
}

const NEW_SEAT: Seat = Seat {
    phase: Phase::Idle,
    finds: 0,
};

impl Seat {
    pub(crate) fn work(self) -> Option<Work> {
        match self.phase {
            Phase::UnderWay(work) => Some(work),
            Phase::Idle | Phase::Ended { .. } => None,
        }
    }
}

// The rules of docs/RULES.md once more, written without regard to the index, to be compared with it:
// record and tables in one.
#[derive(Clone, Copy)]
pub struct Reference {
    pub made: Option<Lengths>,
    pub bits: u8,
    pub places: u32,
    pub hand: u32,
    pub seats: [Seat; 16],
    pub tables: Lent,
}

impl Reference {
    pub fn blank(tables: Lent) -> Reference {
        Reference {
            made: None,
            bits: 0,
            places: 0,
            hand: 0,
            seats: [NEW_SEAT; 16],
            tables,
        }
    }

    pub fn make(&mut self, lengths: Lengths, bits: u8) -> Result<(), IndexFault> {
        if bits > 8 {
            return Err(IndexFault::HeadBits);
        }
        if lengths.heads != 1 << bits
            || lengths.requests != 16
            || !(1..=4096).contains(&lengths.items)
        {
            return Err(IndexFault::TableLengths);
        }
        self.made = Some(lengths);
        self.bits = bits;
        self.places = lengths.items as u32;
        self.hand = self.places - 1;
        self.seats = [NEW_SEAT; 16];
        self.clear(lengths);
        Ok(())
    }

    // Empties the tables, as far as they were handed in.
    fn clear(&mut self, lengths: Lengths) {
        self.tables.heads[..lengths.heads].fill(NONE);
        for (place, item) in (0..self.places).zip(self.tables.items.iter_mut()) {
            item.state = ItemState::Out;
            item.next = place;
            item.occupied = false;
        }
    }

    // Any call but a making.
    pub(crate) fn act(
        &mut self,
        lengths: Lengths,
        session: u8,
        action: Action<Berth, u32>,
    ) -> Result<Reply<u32>, IndexFault> {
        let seat = self.seat(lengths, session)?;
        match action {
            Action::Begin(task) => {
                self.begin(session, seat, task)?;
                Ok(Reply::Begun)
            }
            Action::Turn => Ok(Reply::Turned(self.turn(session, seat)?)),
            Action::Collect => Ok(Reply::Collected(self.collect(session, seat)?)),
            Action::Abandon => {
                self.abandon(session, seat)?;
                Ok(Reply::Abandoned)
            }
        }
    }

    // The session, where the call passes the checks that all but making begin with: 9 and 10.
    fn seat(&self, lengths: Lengths, session: u8) -> Result<Seat, IndexFault> {
        if self.made != Some(lengths) {
            return Err(IndexFault::NotAsMade);
        }
        self.seats
            .get(session as usize)
            .copied()
            .ok_or(IndexFault::NoSession)
    }

    // The session, or the first where there is none of this number.
    pub fn any_seat(&self, session: u8) -> Seat {
        self.seats
            .get(session as usize)
            .copied()
            .unwrap_or(self.seats[0])
    }

    pub fn put_seat(&mut self, session: u8, seat: Seat) {
        if let Some(old) = self.seats.get_mut(session as usize) {
            *old = seat;
        }
    }

    // The find count stays.
    pub(crate) fn put_phase(&mut self, session: u8, phase: Phase) {
        if let Some(seat) = self.seats.get_mut(session as usize) {
            seat.phase = phase;
        }
    }
}
