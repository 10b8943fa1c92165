ghost use Rattle.std.specs.Prelude.{◌≡◌};
ghost use Rattle.tables.specs.Sessions.{operation_of, aside_of, job_of, cursor_of, claim_of, at_stage, finds_after, ended_as};

use calls::operation::Operation;

// An operation with the place that it set aside: insert and replace have one.
#[derive(Clone, Copy, Debug, PartialEq, Eq)]
pub enum Job {
    Find,
    Insert(u32),
    Write,
    Replace(u32),
    Remove,
    Point,
}

// What a session under way is about: it seeks its key, from a cursor if it has one, or it has
// claimed the item after its cursor, to replace it by the one set aside or to remove it.
#[derive(Clone, Copy, Debug, PartialEq, Eq)]
pub enum Work {
    Seeking(Job, Option<u32>),
    Replacing(u32, (u32, u32)),
    Removing((u32, u32)),
}

// Idle, under way, or ended with the answer present (true) or absent.
#[derive(Clone, Copy, Debug, Default, PartialEq, Eq)]
pub enum Stage {
    #[default]
    Idle,
    UnderWay(Work),
    Ended(Operation, bool),
}

// One of the sixteen sessions. `finds` counts its finds since a head last moved by one, 0 to 4.
#[derive(Clone, Copy, Debug, Default, PartialEq, Eq)]
pub struct Session {
    pub stage: Stage,
    pub finds: u8,
}

impl Job {
    pub fn operation(self) -> Operation
        ensures { result ≡ operation_of self }
    {
        match self {
            Job::Find => Operation::Find,
            Job::Insert(_) => Operation::Insert,
            Job::Write => Operation::Write,
            Job::Replace(_) => Operation::Replace,
            Job::Remove => Operation::Remove,
            Job::Point => Operation::Point,
        }
    }

    // The place that the job set aside.
    pub fn aside(self) -> Option<u32>
        ensures { result ≡ aside_of self }
    {
        match self {
            Job::Insert(place) | Job::Replace(place) => Some(place),
            Job::Find | Job::Write | Job::Remove | Job::Point => None,
        }
    }
}

impl Work {
    pub fn job(self) -> Job
        ensures { result ≡ job_of self }
    {
        match self {
            Work::Seeking(job, _) => job,
            Work::Replacing(aside, _) => Job::Replace(aside),
            Work::Removing(_) => Job::Remove,
        }
    }

    // The place that the session stands on.
    pub fn cursor(self) -> Option<u32>
        ensures { result ≡ cursor_of self }
    {
        match self {
            Work::Seeking(_, cursor) => cursor,
            Work::Replacing(_, pair) | Work::Removing(pair) => Some(pair.0),
        }
    }

    // The place that the session has claimed.
    pub fn claim(self) -> Option<u32>
        ensures { result ≡ claim_of self }
    {
        match self {
            Work::Seeking(_, _) => None,
            Work::Replacing(_, pair) | Work::Removing(pair) => Some(pair.1),
        }
    }
}

impl Session {
    pub fn set_stage(&mut self, stage: Stage)
        ensures { self.new ≡ at_stage stage self.old }
    {
        self.stage = stage;
    }

    // The session ends with this operation, present or absent. An ended find counts, and the fifth
    // sets the count to 0.
    pub fn end(&mut self, operation: Operation, present: bool)
        ensures { self.new ≡ ended_as operation present self.old }
    {
        self.finds = finds_after(operation, self.finds);
        self.stage = Stage::Ended(operation, present);
    }
}

fn finds_after(operation: Operation, finds: u8) -> u8
    ensures { result ≡ finds_after operation finds }
{
    match operation {
        Operation::Find if finds < 4 => finds + 1,
        Operation::Find => 0,
        _ => finds,
    }
}
