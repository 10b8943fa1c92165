ghost use Rattle.std.specs.Prelude.{◌≡◌, ℕ, List, Option as OptionOf};
ghost use Rattle.lines.specs.Words.{letter_of, verb_of, operation_of};

use calls::operation::Operation;

// The board that a line is for.
#[derive(Clone, Copy, Debug, PartialEq, Eq)]
pub enum Letter {
    B,
    S,
}

// What a line asks for.
#[derive(Clone, Copy, Debug, PartialEq, Eq)]
pub enum Verb {
    Begin,
    Turn,
    Collect,
    Abandon,
}

// A word of a closed list. `TryFrom<&[u8]>` would add a lifetime and an empty error to each bound.
pub trait Word: Copy {
    ghost words: { List ℕ → OptionOf Self };

    fn read(bytes: &[u8]) -> Option<Self>
        ensures { result ≡ words bytes.now };
}

impl Word for Letter {
    ghost words = { letter_of };

    fn read(bytes: &[u8]) -> Option<Letter> {
        match bytes {
            b"B" => Some(Letter::B),
            b"S" => Some(Letter::S),
            _ => None,
        }
    }
}

impl Word for Verb {
    ghost words = { verb_of };

    fn read(bytes: &[u8]) -> Option<Verb> {
        match bytes {
            b"begin" => Some(Verb::Begin),
            b"turn" => Some(Verb::Turn),
            b"collect" => Some(Verb::Collect),
            b"abandon" => Some(Verb::Abandon),
            _ => None,
        }
    }
}

impl Word for Operation {
    ghost words = { operation_of };

    fn read(bytes: &[u8]) -> Option<Operation> {
        match bytes {
            b"find" => Some(Operation::Find),
            b"insert" => Some(Operation::Insert),
            b"write" => Some(Operation::Write),
            b"replace" => Some(Operation::Replace),
            b"remove" => Some(Operation::Remove),
            b"point" => Some(Operation::Point),
            _ => None,
        }
    }
}
