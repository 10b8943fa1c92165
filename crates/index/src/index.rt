// The calls on an index. Each states its whole outcome by the rule book (`step`), and what it does for
// the run that led to it (`law`): with this call the run goes on and is sound.
// Each is lent the three tables apart, and as `&` those that it only reads: a struct of them, all `&mut`,
// would ask callers of `make`, `begin`, `collect` and `abandon` for more. Each is thin over a step with the
// same outcome: a function with several ways out would owe the law at each.
ghost use Rattle.std.specs.Prelude.{◌≡◌, Ok as Accepted};
ghost use Rattle.calls.specs.declared.call.Action.TheVariants as action;
ghost use Rattle.calls.specs.declared.reply.Reply.TheVariants as reply;
ghost use Rattle.rules.specs.Abandon.{abandon};
ghost use Rattle.rules.specs.Begin.{begin};
ghost use Rattle.rules.specs.Collect.{collect};
ghost use Rattle.rules.specs.Making.{make};
ghost use Rattle.rules.specs.RunLaw.{GoesOn, Starts, event};
ghost use Rattle.rules.specs.States.{state};
ghost use Rattle.rules.specs.Steps.{replied};
ghost use Rattle.rules.specs.Turn.{turn};

use crate::record::Record;
use calls::call::Task;
use calls::fault::IndexFault;
use calls::reply::Progress;
use keys::key::Key;
use tables::item::Item;
use tables::request::Request;

impl Record {
    // Makes an index of `bits` head bits in these tables, whatever they held. Refused, in this order: 7, 8.
    pub fn make<K: Key, V: Copy>(
        &mut self,
        heads: &mut [u32],
        items: &mut [Item<K, V>],
        requests: &[Request<K, V>],
        bits: u8,
    ) -> Result<(), IndexFault>
        ensures step { (result, state self.new.core heads.new items.new requests.now) ≡ make bits (state self.old.core heads.old items.old requests.now) }
        ensures law { result ≡ Accepted tt → Starts K.Key.order K.Key.digest (state self.new.core heads.new items.new requests.now) }
    {
        self.make_step(heads, items, requests, bits)
    }

    // A session takes up a task. Refused, in this order: 9, 10, 11, 12.
    pub fn begin<K: Key, V: Copy>(
        &mut self,
        heads: &[u32],
        items: &mut [Item<K, V>],
        requests: &mut [Request<K, V>],
        session: u8,
        task: Task<K, V>,
    ) -> Result<(), IndexFault>
        ensures step { (result, state self.new.core heads.now items.new requests.new) ≡ begin (state self.old.core heads.now items.old requests.old) session task }
        ensures law { GoesOn K.Key.order K.Key.digest (state self.old.core heads.now items.old requests.old) (event session (action.Begin task) (replied (λ _. reply.Begun) result)) (state self.new.core heads.now items.new requests.new) }
    {
        self.begin_step(heads, items, requests, session, task)
    }

    // A session takes one turn at its task. Refused, in this order: 9, 10, 13, 14, 16.
    pub fn turn<K: Key, V: Copy>(
        &mut self,
        heads: &mut [u32],
        items: &mut [Item<K, V>],
        requests: &mut [Request<K, V>],
        session: u8,
    ) -> Result<Progress, IndexFault>
        ensures step { (result, state self.new.core heads.new items.new requests.new) ≡ turn K.Key.order K.Key.digest (state self.old.core heads.old items.old requests.old) session }
        ensures law { GoesOn K.Key.order K.Key.digest (state self.old.core heads.old items.old requests.old) (event session action.Turn (replied reply.Turned result)) (state self.new.core heads.new items.new requests.new) }
    {
        self.turn_step(heads, items, requests, session)
    }

    // An ended session answers, and is idle again. Refused, in this order: 9, 10, 13, 15.
    pub fn collect<K: Key, V: Copy>(
        &mut self,
        heads: &[u32],
        items: &[Item<K, V>],
        requests: &[Request<K, V>],
        session: u8,
    ) -> Result<Option<V>, IndexFault>
        ensures step { (result, state self.new.core heads.now items.now requests.now) ≡ collect (state self.old.core heads.now items.now requests.now) session }
        ensures law { GoesOn K.Key.order K.Key.digest (state self.old.core heads.now items.now requests.now) (event session action.Collect (replied reply.Collected result)) (state self.new.core heads.now items.now requests.now) }
    {
        self.collect_step(heads, items, requests, session)
    }

    // A session gives its task up, or discards its answer. Refused, in this order: 9, 10, 13.
    pub fn abandon<K: Key, V: Copy>(
        &mut self,
        heads: &[u32],
        items: &mut [Item<K, V>],
        requests: &[Request<K, V>],
        session: u8,
    ) -> Result<(), IndexFault>
        ensures step { (result, state self.new.core heads.now items.new requests.now) ≡ abandon (state self.old.core heads.now items.old requests.now) session }
        ensures law { GoesOn K.Key.order K.Key.digest (state self.old.core heads.now items.old requests.now) (event session action.Abandon (replied (λ _. reply.Abandoned) result)) (state self.new.core heads.now items.new requests.now) }
    {
        self.abandon_step(heads, items, requests, session)
    }
}
