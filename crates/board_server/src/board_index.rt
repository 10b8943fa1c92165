ghost use Rattle.std.specs.Prelude.{◌≡◌, replicate, IfOk};
ghost use Rattle.rules.specs.States.{state};
ghost use Rattle.board_server.specs.Soundness.{IsSound};

use calls::call::Call;
use calls::fault::IndexFault;
use calls::reply::Reply;
use index::record::Record;
use keys::key::Key;
use lines::board::Board;
use std::alloc::{AllocError, Global};
use tables::item::{Item, ItemState};
use tables::request::Request;

const HEAD_BITS: u8 = 4;

const HEADS: usize = 16;

const PLACES: usize = 64;

const SESSIONS: usize = 16;

// A table of this length, with one element throughout. At a type parameter `vec!` promises clones of it,
// which need not be equal to it.
fn filled<T: Copy>(alloc: Global, x: T, n: usize) -> Result<Vec<T>, AllocError>
    ensures { IfOk result (λ v. v.items ≡ replicate n x) }
{
    let mut v = Vec::with_capacity(alloc, n)?;
    for _ in 0..n {
        v.push_reserved(x);
    }
    Ok(v)
}

// The index of a board with its tables: 4 head bits and 64 places. It is sound wherever it stands: its
// history need not be at hand.
#[derive(Drop)]
pub struct BoardIndex<B: Board> {
    pub(crate) record: Record,
    pub(crate) heads: Vec<u32>,
    pub(crate) items: Vec<Item<B::Key, B::Value>>,
    pub(crate) requests: Vec<Request<B::Key, B::Value>>,
    ghost sound: { IsSound B.Key.Key.order B.Key.Key.digest (state record.core heads.items items.items requests.items) },
}

impl<B: Board> BoardIndex<B> {
    ghost use Rattle.std.specs.Prelude.{◌≡◌, IfOk};
    ghost use Rattle.rules.specs.RunLaw.{GoesOn, Starts};
    ghost use Rattle.rules.specs.Steps.{step};
    ghost use Rattle.board_server.specs.BoardIndexes.{state_of, new_state};

    // An index made new. No ring holds this key and value: they only fill the tables.
    pub fn new(alloc: Global, key: B::Key, value: B::Value) -> Result<BoardIndex<B>, AllocError>
        ensures value { IfOk result (λ i. state_of i ≡ new_state key value) }
        ensures law { IfOk result (λ i. Starts B.Key.Key.order B.Key.Key.digest (state_of i)) }
    {
        let mut record = Record::blank();
        // an item that was never made: making puts it out
        let item = Item {
            state: ItemState::Out,
            key,
            value,
            next: 0,
            occupied: false,
        };
        let mut heads = vec![in alloc; 0; HEADS]?;
        let mut items = filled(alloc, item, PLACES)?;
        let requests = filled(alloc, Request { key, value }, SESSIONS)?;
        let _ = record.make(&mut heads, &mut items, &requests, HEAD_BITS);
        Ok(BoardIndex {
            record,
            heads,
            items,
            requests,
        })
    }

    // Any call, as it comes: the step of the rule book, and the run law.
    pub fn call(&mut self, call: Call<B::Key, B::Value>) -> Result<Reply<B::Value>, IndexFault>
        ensures step { (result, state_of self.new) ≡ step B.Key.Key.order B.Key.Key.digest (state_of self.old) call }
        ensures law { GoesOn B.Key.Key.order B.Key.Key.digest (state_of self.old) (record { call = call; reply = result }) (state_of self.new) }
    {
        self.record
            .call(&mut self.heads, &mut self.items, &mut self.requests, call)
    }
}
