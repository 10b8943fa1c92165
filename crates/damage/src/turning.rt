use crate::lent::NONE;
use crate::rank::{Rank, bucket};
use crate::reference::{Phase, Reference, Seat, Work};
use calls::fault::IndexFault;
use calls::operation::Operation;
use calls::reply::Progress;
use tables::item::ItemState;
use tables::request::Request;

// A session in a turn: its number, its find count, what it is at, and the bucket of its key.
#[derive(Clone, Copy)]
struct Turn {
    session: u8,
    finds: u8,
    work: Work,
    home: usize,
}

// One turn: section 10 of docs/RULES.md, by the first rule that applies.
impl Reference {
    pub fn turn(&mut self, session: u8, seat: Seat) -> Result<Progress, IndexFault> {
        let home = bucket(self.bits, self.tables.request(session).key);
        match seat.phase {
            Phase::Idle => Err(IndexFault::Idle),
            Phase::Ended { .. } => Err(IndexFault::Ended),
            Phase::UnderWay(work) => self.go_on(Turn {
                session,
                finds: seat.finds,
                work,
                home,
            }),
        }
    }

    fn go_on(&mut self, turn: Turn) -> Result<Progress, IndexFault> {
        let work = turn.work;
        // a session with a claim has a cursor, so 10.2 may be tried before 10.1
        let Some(c) = work.cursor else {
            return self.enter(turn);
        };
        if let Some(p) = work.claim {
            return self.swing(turn, c, p);
        }
        let item = self.tables.item(c);
        if item.state != ItemState::InRing {
            self.put_places(turn, None, None);
            return Ok(Progress::Again);
        }
        let q = Rank::new(self.bits, self.tables.request(turn.session).key);
        let stood_on = Rank::new(self.bits, item.key);
        let seeks_c = matches!(
            work.operation,
            Operation::Find | Operation::Write | Operation::Point
        );
        if seeks_c && stood_on == q {
            return Ok(self.hit_c(turn, c));
        }
        let m = self.read_next(c)?;
        let ahead = Rank::new(self.bits, self.tables.item(m).key);
        if !seeks_c && ahead == q {
            return self.hit_m(turn, c, m);
        }
        if q.falls_between(stood_on, ahead) {
            return Ok(self.miss(turn, c, m));
        }
        self.put_places(turn, Some(m), None);
        Ok(Progress::Moved)
    }

    // The session is at the same operation, with these as cursor and claim.
    fn put_places(&mut self, turn: Turn, cursor: Option<u32>, claim: Option<u32>) {
        let work = Work {
            cursor,
            claim,
            ..turn.work
        };
        self.put_phase(turn.session, Phase::UnderWay(work));
    }

    fn read_next(&self, place: u32) -> Result<u32, IndexFault> {
        let next = self.tables.item(place).next;
        if next < self.places {
            Ok(next)
        } else {
            Err(IndexFault::OutsideTable)
        }
    }

    // The head of a bucket, which may be none.
    fn read_head(&self, home: usize) -> Result<Option<u32>, IndexFault> {
        match self.tables.head(home) {
            NONE => Ok(None),
            head if head < self.places => Ok(Some(head)),
            _ => Err(IndexFault::OutsideTable),
        }
    }

    // 10.2: the cursor goes to the head, or the ring is empty.
    fn enter(&mut self, turn: Turn) -> Result<Progress, IndexFault> {
        if let Some(head) = self.read_head(turn.home)? {
            self.put_places(turn, Some(head), None);
            return Ok(Progress::Moved);
        }
        if let Operation::Insert = turn.work.operation
            && let Some(a) = turn.work.aside
        {
            self.tables.change_item(a, |item| item.next = a);
            self.tables.put_head(turn.home, Some(a));
            return Ok(self.end(turn, None, true));
        }
        Ok(self.end(turn, None, false))
    }

    // 10.1: the claimed item goes out of the ring, or the claim is given up.
    fn swing(&mut self, turn: Turn, c: u32, p: u32) -> Result<Progress, IndexFault> {
        if !self.is_claim_good(c, p)? {
            self.tables.change_item(p, |item| item.occupied = false);
            self.put_places(turn, None, None);
            return Ok(Progress::Again);
        }
        let successor = match turn.work.aside {
            Some(a) => a,
            None => self.read_next(p)?,
        };
        let head = self.read_head(turn.home)?;
        let value = self.tables.item(p).value;
        let removed_alone = turn.work.aside == None && successor == p;
        self.tables.change_item(c, |item| item.next = successor);
        if head == Some(p) {
            let after = if removed_alone { None } else { Some(successor) };
            self.tables.put_head(turn.home, after);
        }
        self.tables.change_item(p, |item| {
            item.state = ItemState::Out;
            item.occupied = false;
        });
        Ok(self.end(turn, Some(value), true))
    }

    fn is_claim_good(&self, c: u32, p: u32) -> Result<bool, IndexFault> {
        let item = self.tables.item(c);
        if item.state != ItemState::InRing {
            return Ok(false);
        }
        let next = self.read_next(c)?;
        Ok(next == p && (!item.occupied || c == p))
    }

    // 10.4, with the fifth find of 10.9.
    fn hit_c(&mut self, turn: Turn, c: u32) -> Progress {
        let found = self.tables.item(c).value;
        match turn.work.operation {
            Operation::Write => {
                let value = self.tables.request(turn.session).value;
                self.tables.change_item(c, |item| item.value = value);
            }
            Operation::Point => self.tables.put_head(turn.home, Some(c)),
            _ => {
                if turn.finds == 4 {
                    self.tables.put_head(turn.home, Some(c));
                }
            }
        }
        self.end(turn, Some(found), false)
    }

    // 10.5: an insert finds its key there; a replace or remove claims m, unless another has.
    fn hit_m(&mut self, turn: Turn, c: u32, m: u32) -> Result<Progress, IndexFault> {
        let item = self.tables.item(m);
        if let Operation::Insert = turn.work.operation {
            return Ok(self.end(turn, Some(item.value), false));
        }
        if item.occupied {
            return Ok(Progress::Held);
        }
        let replacing = turn
            .work
            .aside
            .map(|a| self.read_next(m).map(|behind| (a, behind)))
            .transpose()?;
        self.tables.change_item(m, |item| item.occupied = true);
        if let Some((a, behind)) = replacing {
            let next = if behind == m { a } else { behind };
            self.tables.change_item(a, |item| item.next = next);
        }
        self.put_places(turn, Some(c), Some(m));
        Ok(Progress::Claimed)
    }

    // 10.6: only an insert has to do anything about it.
    fn miss(&mut self, turn: Turn, c: u32, m: u32) -> Progress {
        if let Operation::Insert = turn.work.operation
            && let Some(a) = turn.work.aside
        {
            if self.tables.item(c).occupied {
                return Progress::Held;
            }
            self.tables.change_item(a, |item| item.next = m);
            self.tables.change_item(c, |item| item.next = a);
            return self.end(turn, None, true);
        }
        self.end(turn, None, false)
    }

    // 10.8: what every end does, after the writes of its rule.
    fn end(&mut self, turn: Turn, found: Option<u32>, linked: bool) -> Progress {
        if let Some(a) = turn.work.aside {
            let state = if linked {
                ItemState::InRing
            } else {
                ItemState::Out
            };
            self.tables.change_item(a, |item| item.state = state);
        }
        if let Some(value) = found {
            let key = self.tables.request(turn.session).key;
            self.tables
                .put_request(turn.session, Request { key, value });
        }
        let phase = Phase::Ended {
            present: found.is_some(),
        };
        // 10.9: the fifth find sets the count to 0
        let finds = match turn.work.operation {
            Operation::Find if turn.finds == 4 => 0,
            Operation::Find => turn.finds.wrapping_add(1),
            _ => turn.finds,
        };
        self.put_seat(turn.session, Seat { phase, finds });
        Progress::Ended
    }
}
