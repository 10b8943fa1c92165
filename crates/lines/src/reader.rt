ghost use Rattle.std.specs.Prelude.{◌+◌, ◌≤◌, length};

use crate::fault::Place;

// A part of a line, with its place.
#[derive(Clone, Copy)]
pub struct Part<'a> {
    pub bytes: &'a [u8],
    pub place: Place,
}

// What a field is wanted to be.
#[derive(Clone, Copy, Debug, PartialEq, Eq)]
pub enum Kind {
    Word,
    Digits,
    Name,
}

// A field that was read: a part of its line.
#[derive(Clone, Copy)]
pub enum Field<'a> {
    Word(Part<'a>),
    Digits(Part<'a>),
    Name(Part<'a>),
}

// A line that is read field by field. `next` is the place of the next field; its byte is one past
// the line's end where no field is left.
#[derive(Drop)]
pub struct Reader<'a> {
    pub(crate) line: &'a [u8],
    pub(crate) next: Place,
    ghost within: { next.byte ≤ length line.now + 1 },
    ghost counted: { next.field ≤ next.byte + 1 },
}
