use crate::answer::Answer;
use crate::count::{Count, add_one, print_counts};
use crate::reference::{Phase, Seat, Work};
use calls::fault::IndexFault;
use calls::operation::Operation;
use calls::reply::{Progress, Reply};
use std::io;

// An answer, without the value that it may hold.
#[derive(Clone, Copy, Debug, PartialEq, Eq)]
enum Word {
    Refused,
    Made,
    Begun,
    Turned(Progress),
    CollectedPresent,
    CollectedAbsent,
    Abandoned,
}

const WORDS: [(Word, &'static str); 11] = [
    (Word::Refused, "refused"),
    (Word::Made, "made"),
    (Word::Begun, "begun"),
    (Word::Turned(Progress::Moved), "moved"),
    (Word::Turned(Progress::Again), "again"),
    (Word::Turned(Progress::Held), "held"),
    (Word::Turned(Progress::Claimed), "claimed"),
    (Word::Turned(Progress::Ended), "ended"),
    (Word::CollectedPresent, "collected present"),
    (Word::CollectedAbsent, "collected absent"),
    (Word::Abandoned, "abandoned"),
];

const REFUSALS: [(IndexFault, &'static str); 10] = [
    (IndexFault::HeadBits, "more than 8 head bits"),
    (IndexFault::TableLengths, "lengths that no index has"),
    (
        IndexFault::NotAsMade,
        "lengths not as made, or a blank record",
    ),
    (IndexFault::NoSession, "no such session"),
    (IndexFault::NotIdle, "the session is not idle"),
    (IndexFault::NoPlace, "no place is free"),
    (IndexFault::Idle, "the session is idle"),
    (IndexFault::Ended, "the session has ended"),
    (IndexFault::UnderWay, "the session is under way"),
    (IndexFault::OutsideTable, "a place outside the table"),
];

// What may come together in a turn, and seldom does.
#[derive(Clone, Copy, Debug, PartialEq, Eq)]
enum Corner {
    FifthHit,
    Swing,
    GivenUp,
    OnAside,
    AsideClaimed,
    OnClaimed,
}

const CORNERS: [(Corner, &'static str); 6] = [
    (Corner::FifthHit, "fifth finds that hit"),
    (Corner::Swing, "swings done"),
    (Corner::GivenUp, "claims given up"),
    (
        Corner::OnAside,
        "turns on the session's own set-aside place",
    ),
    (
        Corner::AsideClaimed,
        "turns with the session's own set-aside place claimed",
    ),
    (Corner::OnClaimed, "turns with the place stood on claimed"),
];

// How often an operation began, and how often it ended present and absent.
#[derive(Clone, Copy)]
struct Course {
    operation: Operation,
    name: &'static str,
    begun: u64,
    present: u64,
    absent: u64,
}

const OPERATIONS: [(Operation, &'static str); 6] = [
    (Operation::Find, "find"),
    (Operation::Insert, "insert"),
    (Operation::Write, "write"),
    (Operation::Replace, "replace"),
    (Operation::Remove, "remove"),
    (Operation::Point, "point"),
];

impl From<Result<Answer, IndexFault>> for Word {
    fn from(answer: Result<Answer, IndexFault>) -> Word {
        match answer {
            Err(_) => Word::Refused,
            Ok(Answer::Made) => Word::Made,
            Ok(Answer::Replied(Reply::Begun)) => Word::Begun,
            Ok(Answer::Replied(Reply::Turned(progress))) => Word::Turned(progress),
            Ok(Answer::Replied(Reply::Collected(Some(_)))) => Word::CollectedPresent,
            Ok(Answer::Replied(Reply::Collected(None))) => Word::CollectedAbsent,
            Ok(Answer::Replied(Reply::Abandoned)) => Word::Abandoned,
        }
    }
}

// What came up, and how often.
#[derive(Clone, Copy)]
pub struct Tally {
    calls: u64,
    pub damages: u64,
    undamaged: u64,
    differences: u64,
    courses: [Course; 6],
    words: [Count<Word>; 11],
    refusals: [Count<IndexFault>; 10],
    corners: [Count<Corner>; 6],
}

impl Tally {
    pub fn new() -> Tally {
        Tally {
            calls: 0,
            damages: 0,
            undamaged: 0,
            differences: 0,
            courses: OPERATIONS.map(|(operation, name)| Course {
                operation,
                name,
                begun: 0,
                present: 0,
                absent: 0,
            }),
            words: WORDS.map(Count::none_of),
            refusals: REFUSALS.map(Count::none_of),
            corners: CORNERS.map(Count::none_of),
        }
    }

    pub fn differ(&mut self) {
        self.differences = self.differences.saturating_add(1);
    }

    // How many calls were refused for this.
    pub(crate) fn refused(&self, fault: IndexFault) -> u64 {
        self.refusals
            .iter()
            .find(|count| count.kind == fault)
            .map_or(0, |count| count.times)
    }

    // A round without damage, in which refusal 16 would be a difference too.
    pub fn count_undamaged(&mut self, all_inside: bool) {
        self.undamaged = self.undamaged.saturating_add(1);
        if !all_inside {
            self.differ();
        }
    }

    // An answer, with what the session was before the call and is after it.
    pub fn count(&mut self, answer: Result<Answer, IndexFault>, before: Seat, after: Seat) {
        self.calls = self.calls.saturating_add(1);
        add_one(&mut self.words, answer.into());
        match answer {
            Err(fault) => add_one(&mut self.refusals, fault),
            Ok(Answer::Replied(Reply::Begun)) => self.count_begin(after),
            Ok(Answer::Replied(Reply::Turned(progress))) => {
                self.count_turn(progress, before, after)
            }
            Ok(_) => {}
        }
    }

    fn course(&mut self, operation: Operation) -> Option<&mut Course> {
        self.courses
            .iter_mut()
            .find(|course| course.operation == operation)
    }

    fn count_begin(&mut self, after: Seat) {
        if let Some(work) = after.work()
            && let Some(course) = self.course(work.operation)
        {
            course.begun = course.begun.saturating_add(1);
        }
    }

    fn count_turn(&mut self, progress: Progress, before: Seat, after: Seat) {
        let Some(work) = before.work() else {
            return;
        };
        if let Phase::Ended { present } = after.phase {
            self.count_end(work, present);
            if before.finds == 4 && after.finds == 0 && present {
                add_one(&mut self.corners, Corner::FifthHit);
            }
        }
        if work.claim.is_some() {
            match progress {
                Progress::Ended => add_one(&mut self.corners, Corner::Swing),
                Progress::Again => add_one(&mut self.corners, Corner::GivenUp),
                Progress::Moved | Progress::Held | Progress::Claimed => {}
            }
        }
        self.count_meeting(work);
    }

    fn count_end(&mut self, work: Work, present: bool) {
        if let Some(course) = self.course(work.operation) {
            if present {
                course.present = course.present.saturating_add(1);
            } else {
                course.absent = course.absent.saturating_add(1);
            }
        }
    }

    // Places of a session that are one: by damage, or in a ring of one item.
    fn count_meeting(&mut self, work: Work) {
        let Work {
            cursor,
            aside,
            claim,
            ..
        } = work;
        if aside.is_some() && cursor == aside {
            add_one(&mut self.corners, Corner::OnAside);
        }
        if aside.is_some() && claim == aside {
            add_one(&mut self.corners, Corner::AsideClaimed);
        }
        if claim.is_some() && cursor == claim {
            add_one(&mut self.corners, Corner::OnClaimed);
        }
    }

    fn print_courses(&self, rt: &impl Print) -> io::Result<()> {
        for course in &self.courses {
            let Course {
                name,
                begun,
                present,
                absent,
                ..
            } = *course;
            println!(rt; "{name}: {begun} begun, {present} ended present, {absent} ended absent")?;
        }
        Ok(())
    }

    fn print_refusals(&self, rt: &impl Print) -> io::Result<()> {
        for count in &self.refusals {
            let number = count.kind.number();
            let name = count.name;
            let times = count.times;
            println!(rt; "refused {number}, {name}: {times}")?;
        }
        Ok(())
    }

    pub fn print(&self, rt: &impl Print) -> io::Result<()> {
        let calls = self.calls;
        let damages = self.damages;
        let undamaged = self.undamaged;
        let differences = self.differences;
        println!(rt; "{undamaged} rounds without damage, {damages} damages in the others")?;
        println!(rt; "{calls} calls")?;
        self.print_courses(rt)?;
        print_counts(rt, &self.words)?;
        self.print_refusals(rt)?;
        print_counts(rt, &self.corners)?;
        println!(rt; "{differences} differences")
    }
}
