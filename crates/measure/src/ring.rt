use calls::call::Task;
use calls::fault::IndexFault;
use calls::operation::Operation;
use calls::reply::Progress;
use index::record::Record;
use keys::berth::Berth;
use std::alloc::{AllocError, Global};
use tables::item::{Item, ItemState};
use tables::request::Request;

pub const PLACES: u16 = 4096;

const HEAD_BITS: u8 = 0;

const HEADS: usize = 1;

const SESSIONS: usize = 16;

// The one session that acts.
const SESSION: u8 = 0;

// More than any operation takes in a ring of as many keys as there are places.
const MOST_TURNS: u32 = 5000;

// An index with its tables. It has one bucket, so all keys are in one ring. The index of a board has
// tables too, but of one size, made once and sound by its type; here making and calls are timed apart.
#[derive(Drop)]
pub struct Ring {
    record: Record,
    heads: Vec<u32>,
    items: Vec<Item<Berth, u32>>,
    requests: Vec<Request<Berth, u32>>,
}

// With berth number 0 a key's hash is its harbour, so the ranks go up with the harbours.
fn key(harbour: u16) -> Berth {
    Berth { harbour, berth: 0 }
}

impl Ring {
    // An index that is not made yet.
    pub fn new(heap: Global) -> Result<Ring, AllocError> {
        let item = Item {
            state: ItemState::Out,
            key: key(0),
            value: 0,
            next: 0,
            occupied: false,
        };
        let request = Request {
            key: key(0),
            value: 0,
        };
        Ok(Ring {
            record: Record::blank(),
            heads: vec![in heap; 0; HEADS]?,
            items: vec![in heap; item; PLACES as usize]?,
            requests: vec![in heap; request; SESSIONS]?,
        })
    }

    // Makes the index and puts harbours below `size` into it. They go in from the highest, which stays
    // the head: each later one falls right behind it, so that it takes two turns, however long the ring.
    pub fn fill(&mut self, size: u16) -> Result<(), IndexFault> {
        self.record.make(&mut self.heads, &mut self.items, &self.requests, HEAD_BITS)?;
        for harbour in (0..size).rev() {
            let _ = self.operate(Operation::Insert, harbour)?;
        }
        Ok(())
    }

    pub fn begin(&mut self, operation: Operation, harbour: u16) -> Result<(), IndexFault> {
        let task = Task {
            operation,
            key: key(harbour),
            value: harbour as u32,
        };
        self.record.begin(
            &self.heads,
            &mut self.items,
            &mut self.requests,
            SESSION,
            task,
        )
    }

    // Takes turns until the operation has ended, and says how many.
    fn take_turns(&mut self) -> Result<u32, IndexFault> {
        for taken in 0..MOST_TURNS {
            let progress = self.record.turn(
                &mut self.heads,
                &mut self.items,
                &mut self.requests,
                SESSION,
            )?;
            if let Progress::Ended = progress {
                return Ok(taken + 1);
            }
        }
        Ok(MOST_TURNS)
    }

    // A whole operation, from its begin to its answer. Says how many turns it took.
    pub fn operate(&mut self, operation: Operation, harbour: u16) -> Result<u32, IndexFault> {
        self.begin(operation, harbour)?;
        let turns = self.take_turns()?;
        let _ = self
            .record
            .collect(&self.heads, &self.items, &self.requests, SESSION)?;
        Ok(turns)
    }
}
