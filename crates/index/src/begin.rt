ghost use Rattle.std.specs.Prelude.{◌≡◌, true, None as Nowhere};
ghost use Rattle.rules.specs.Begin.{begin, job_for, hand_after, prepared};
ghost use Rattle.rules.specs.Free.{first_free_in};
ghost use Rattle.rules.specs.States.{state};
ghost use Rattle.tables.specs.declared.session.Stage.TheVariants.{UnderWay};
ghost use Rattle.tables.specs.declared.session.Work.TheVariants.{Seeking};
ghost use Rattle.tables.specs.Items.{with_request};
ghost use Rattle.tables.specs.Lists.{modify};
ghost use Rattle.tables.specs.Records.{in_session};
ghost use Rattle.tables.specs.Sessions.{aside_of, at_stage};

use crate::free::first_free;
use crate::record::Record;
use calls::call::Task;
use calls::fault::IndexFault;
use calls::operation::Operation;
use keys::key::Key;
use tables::item::Item;
use tables::items::prepare;
use tables::record::Core;
use tables::request::{Request, put_request};
use tables::session::{Job, Stage, Work};

// The session takes up its task.
fn take_up<K: Copy, V: Copy>(
    core: &mut Core,
    items: &mut [Item<K, V>],
    requests: &mut [Request<K, V>],
    session: u8,
    task: Task<K, V>,
    job: Job,
)
    ensures core { core.new ≡ hand_after (aside_of job) (in_session session (at_stage (UnderWay (Seeking job Nowhere))) core.old) }
    ensures items { items.new ≡ prepared (aside_of job) task items.old }
    ensures requests { requests.new ≡ modify (with_request task.key task.value) session requests.old }
{
    core.set_stage(session as usize, Stage::UnderWay(Work::Seeking(job, None)));
    if let Some(place) = job.aside() {
        core.set_hand(place);
        prepare(items, place, task.key, task.value);
    }
    put_request(requests, session as usize, task.key, task.value);
}

impl Record {
    // The job of an operation; insert and replace set the first free place aside.
    fn job_for<K: Copy, V: Copy>(
        &self,
        items: &[Item<K, V>],
        operation: Operation,
    ) -> Result<Job, IndexFault>
        requires { self.now.core.made ≡ true }
        ensures { result ≡ job_for (first_free_in self.now.core items.now) operation }
    {
        let free = || first_free(&self.core, items).ok_or(IndexFault::NoPlace);
        match operation {
            Operation::Find => Ok(Job::Find),
            Operation::Insert => free().map(Job::Insert),
            Operation::Write => Ok(Job::Write),
            Operation::Replace => free().map(Job::Replace),
            Operation::Remove => Ok(Job::Remove),
            Operation::Point => Ok(Job::Point),
        }
    }

    // A session takes up a task. Refused, in this order: 9, 10, 11, 12.
    pub(crate) fn begin_step<K: Key, V: Copy>(
        &mut self,
        heads: &[u32],
        items: &mut [Item<K, V>],
        requests: &mut [Request<K, V>],
        session: u8,
        task: Task<K, V>,
    ) -> Result<(), IndexFault>
        ensures { (result, state self.new.core heads.now items.new requests.new) ≡ begin (state self.old.core heads.now items.old requests.old) session task }
    {
        let seat = self.find_seat(heads, items, requests, session)?;
        let Stage::Idle = seat.stage else {
            return Err(IndexFault::NotIdle);
        };
        let job = self.job_for(items, task.operation)?;
        take_up(&mut self.core, items, requests, session, task, job);
        Ok(())
    }
}
