ghost use Rattle.std.specs.Prelude.{◌≡◌};
ghost use Rattle.rules.specs.Abandon.{put_out};
ghost use Rattle.rules.specs.Act.{head_by, pointed_by, written_by, linked, taken_out, answered};
ghost use Rattle.rules.specs.States.{state};
ghost use Rattle.tables.specs.Sessions.{aside_of};

use tables::heads::put_head;
use tables::item::{Item, ItemState};
use tables::items::{put_mark, put_next, put_state, put_value};
use tables::moves::HeadMove;
use tables::request::{Request, put_answer};
use tables::session::Job;

// The head of a bucket stays, or becomes another.
pub(crate) fn move_head(heads: &mut [u32], bucket: u32, head: HeadMove)
    ensures { heads.new ≡ head_by head bucket heads.old }
{
    if let HeadMove::Becomes(to) = head {
        put_head(heads, bucket, to);
    }
}

// Point, and a fifth find, make the item that was found the head.
pub(crate) fn point_head(heads: &mut [u32], job: Job, finds: u8, bucket: u32, place: u32)
    ensures { heads.new ≡ pointed_by job finds bucket place heads.old }
{
    match job {
        Job::Find if finds < 4 => {}
        Job::Find | Job::Point => put_head(heads, bucket, Some(place)),
        Job::Insert(_) | Job::Write | Job::Replace(_) | Job::Remove => {}
    }
}

// Write puts its value in the item that was found.
pub(crate) fn write_found<K: Copy, V: Copy>(
    items: &mut [Item<K, V>],
    job: Job,
    place: u32,
    value: V,
)
    ensures { items.new ≡ written_by job place value items.old }
{
    if let Job::Write = job {
        put_value(items, place, value);
    }
}

// An item that was set aside and not linked goes out.
pub(crate) fn put_aside_out<K: Copy, V: Copy>(items: &mut [Item<K, V>], job: Job)
    ensures { items.new ≡ put_out (aside_of job) items.old }
{
    if let Some(place) = job.aside() {
        put_state(items, place, ItemState::Out);
    }
}

// An item leaves its ring.
pub(crate) fn take_out<K: Copy, V: Copy>(items: &mut [Item<K, V>], place: u32)
    ensures { items.new ≡ taken_out place items.old }
{
    put_state(items, place, ItemState::Out);
    put_mark(items, place, false);
}

// The value that a session answers, if any, is kept in its request.
pub(crate) fn keep_answer<K: Copy, V: Copy>(
    requests: &mut [Request<K, V>],
    session: u8,
    answer: Option<V>,
)
    ensures { requests.new ≡ answered session answer requests.old }
{
    if let Some(value) = answer {
        put_answer(requests, session as usize, value);
    }
}
