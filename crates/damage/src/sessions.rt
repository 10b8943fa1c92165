use crate::reference::{Phase, Reference, Seat, Work};
use calls::call::Task;
use calls::fault::IndexFault;
use calls::operation::Operation;
use keys::berth::Berth;
use tables::item::{Item, ItemState};
use tables::request::Request;

// Begin, collect and abandon: sections 8, 9, 11 and 12 of docs/RULES.md.
impl Reference {
    fn is_stood_on(&self, place: u32) -> bool {
        self.seats.iter().any(|seat| { seat.work().is_some_and(|work| work.cursor == Some(place)) })
    }

    fn is_free(&self, place: u32) -> bool {
        self.tables.item(place).state == ItemState::Out && !self.is_stood_on(place)
    }

    // The first free place after the hand, round to the hand itself.
    fn free_place(&self) -> Option<u32> {
        (self.hand.saturating_add(1)..self.places)
            .chain(0..=self.hand)
            .find(|place| self.is_free(*place))
    }

    fn set_aside(&mut self, key: Berth, value: u32) -> Result<u32, IndexFault> {
        let place = self.free_place().ok_or(IndexFault::NoPlace)?;
        self.tables.change_item(place, |item| {
            *item = Item {
                state: ItemState::SetAside,
                key,
                value,
                next: place,
                occupied: item.occupied,
            }
        });
        self.hand = place;
        Ok(place)
    }

    pub fn begin(
        &mut self,
        session: u8,
        seat: Seat,
        task: Task<Berth, u32>,
    ) -> Result<(), IndexFault> {
        let Phase::Idle = seat.phase else {
            return Err(IndexFault::NotIdle);
        };
        let Task {
            operation,
            key,
            value,
        } = task;
        let aside = match operation {
            Operation::Insert | Operation::Replace => Some(self.set_aside(key, value)?),
            Operation::Find | Operation::Write | Operation::Remove | Operation::Point => None,
        };
        self.tables.put_request(session, Request { key, value });
        let work = Work {
            operation,
            cursor: None,
            aside,
            claim: None,
        };
        self.put_phase(session, Phase::UnderWay(work));
        Ok(())
    }

    pub fn collect(&mut self, session: u8, seat: Seat) -> Result<Option<u32>, IndexFault> {
        match seat.phase {
            Phase::Idle => Err(IndexFault::Idle),
            Phase::UnderWay(_) => Err(IndexFault::UnderWay),
            Phase::Ended { present } => {
                self.put_phase(session, Phase::Idle);
                Ok(present.then_some(self.tables.request(session).value))
            }
        }
    }

    pub fn abandon(&mut self, session: u8, seat: Seat) -> Result<(), IndexFault> {
        match seat.phase {
            Phase::Idle => return Err(IndexFault::Idle),
            Phase::UnderWay(work) => self.give_up(work),
            Phase::Ended { .. } => {}
        }
        self.put_phase(session, Phase::Idle);
        Ok(())
    }

    fn give_up(&mut self, work: Work) {
        if let Some(p) = work.claim {
            self.tables.change_item(p, |item| item.occupied = false);
        }
        if let Some(a) = work.aside {
            self.tables
                .change_item(a, |item| item.state = ItemState::Out);
        }
    }
}
