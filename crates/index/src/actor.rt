ghost use Rattle.std.specs.Prelude.{◌≡◌, is_some};
ghost use Rattle.rules.specs.Act.{act, answered};
ghost use Rattle.rules.specs.States.{state};
ghost use Rattle.calls.specs.declared.reply.Progress.TheVariants.{Ended as Finished};
ghost use Rattle.tables.specs.declared.session.Stage.TheVariants.{UnderWay};
ghost use Rattle.tables.specs.Records.{in_session};
ghost use Rattle.tables.specs.Sessions.{at_stage, ended_as, operation_of};

use crate::acting::{keep_answer, move_head, point_head, put_aside_out, take_out, write_found};
use calls::reply::Progress;
use tables::heads::put_head;
use tables::item::{Item, ItemState};
use tables::items::{put_mark, put_next, put_state};
use tables::moves::Move;
use tables::record::Core;
use tables::request::Request;
use tables::session::{Job, Stage, Work};

// The session that acts: its number, its job, its find count and its key's bucket.
#[derive(Clone, Copy)]
pub(crate) struct Actor {
    pub(crate) session: u8,
    pub(crate) job: Job,
    pub(crate) finds: u8,
    pub(crate) bucket: u32,
}

impl Actor {
    fn go_on(self, core: &mut Core, work: Work)
        ensures { core.new ≡ in_session self.session (at_stage (UnderWay work)) core.old }
    {
        core.set_stage(self.session as usize, Stage::UnderWay(work));
    }

    fn end<K: Copy, V: Copy>(
        self,
        core: &mut Core,
        requests: &mut [Request<K, V>],
        answer: Option<V>,
    ) -> Progress
        ensures word { result ≡ Finished }
        ensures core { core.new ≡ in_session self.session (ended_as (operation_of self.job) (is_some answer)) core.old }
        ensures requests { requests.new ≡ answered self.session answer requests.old }
    {
        core.end_session(
            self.session as usize,
            self.job.operation(),
            answer.is_some(),
        );
        keep_answer(requests, self.session, answer);
        Progress::Ended
    }

    // Does what was decided. It writes, and refuses nothing. A struct of the record and the tables would
    // be made for this one call, of four `&mut` that its caller has apart.
    pub(crate) fn act<K: Copy, V: Copy>(
        self,
        core: &mut Core,
        heads: &mut [u32],
        items: &mut [Item<K, V>],
        requests: &mut [Request<K, V>],
        request: Request<K, V>,
        decided: Move<V>,
    ) -> Progress
        ensures { (result, state core.new heads.new items.new requests.new) ≡ act (state core.old heads.old items.old requests.old) self.session self.job self.finds request self.bucket decided }
    {
        match decided {
            Move::Step(place) => {
                self.go_on(core, Work::Seeking(self.job, Some(place)));
                Progress::Moved
            }
            Move::Leave => {
                self.go_on(core, Work::Seeking(self.job, None));
                Progress::Again
            }
            Move::GiveUp(place) => {
                put_mark(items, place, false);
                self.go_on(core, Work::Seeking(self.job, None));
                Progress::Again
            }
            Move::Wait => Progress::Held,
            Move::ClaimToReplace(aside, pair, ahead) => {
                put_mark(items, pair.1, true);
                put_next(items, aside, ahead);
                self.go_on(core, Work::Replacing(aside, pair));
                Progress::Claimed
            }
            Move::ClaimToRemove(pair) => {
                put_mark(items, pair.1, true);
                self.go_on(core, Work::Removing(pair));
                Progress::Claimed
            }
            Move::Absent => {
                put_aside_out(items, self.job);
                self.end(core, requests, None)
            }
            Move::LinkAlone(aside) => {
                put_next(items, aside, aside);
                put_state(items, aside, ItemState::InRing);
                put_head(heads, self.bucket, Some(aside));
                self.end(core, requests, None)
            }
            Move::Link(aside, pair) => {
                put_next(items, aside, pair.1);
                put_next(items, pair.0, aside);
                put_state(items, aside, ItemState::InRing);
                self.end(core, requests, None)
            }
            Move::Present(place, value) => {
                write_found(items, self.job, place, request.value);
                put_aside_out(items, self.job);
                point_head(heads, self.job, self.finds, self.bucket, place);
                self.end(core, requests, Some(value))
            }
            Move::SwingIn(aside, pair, head, value) => {
                put_next(items, pair.0, aside);
                move_head(heads, self.bucket, head);
                take_out(items, pair.1);
                put_state(items, aside, ItemState::InRing);
                self.end(core, requests, Some(value))
            }
            Move::SwingOut(pair, ahead, head, value) => {
                put_next(items, pair.0, ahead);
                move_head(heads, self.bucket, head);
                take_out(items, pair.1);
                self.end(core, requests, Some(value))
            }
        }
    }
}
