ghost use Rattle.std.specs.Prelude.{◌≡◌, ◌≤◌, length, IfOk};
ghost use Rattle.lines.specs.Fields.{field_end};
ghost use Rattle.lines.specs.Readings.{seen, placed, number_seen, word_seen, name_seen};

use crate::fault::{Cause, FieldFault};
use crate::number::number;
use crate::reader::{Field, Part};
use crate::word::Word;
use keys::name::Name;

// Where the field that begins at `at` ends: at the next comma, or at the line's end.
pub(crate) fn field_end(line: &[u8], at: usize) -> usize
    requires { at ≤ length line.now }
    ensures value { result ≡ field_end line.now at }
    ensures bound { (at ≤ result) × (result ≤ length line.now) }
{
    let rest = &line[at..];
    at + rest.iter().position(|b| *b == b',').unwrap_or(rest.len())
}

impl<'a> Part<'a> {
    // What the bytes of this part say, with its place at a fault.
    fn placed<T>(self, outcome: Result<T, Cause>) -> Result<T, FieldFault>
        ensures { result ≡ placed self.entry.place outcome }
    {
        outcome.map_err(|cause| cause.at(self.place))
    }
}

impl<'a> Field<'a> {
    // The number in a field of digits, which is at most `limit`.
    pub fn number(self, limit: u32) -> Result<u32, FieldFault>
        ensures value { result ≡ number_seen limit (seen self.entry) }
        ensures bound { IfOk result (λ n. n ≤ limit) }
    {
        match self {
            Field::Digits(part) => part.placed(number(part.bytes, limit)),
            Field::Word(part) | Field::Name(part) => Err(Cause::Strange.at(part.place)),
        }
    }

    // The word in a field of letters, which is one of W's.
    pub fn word<W: Word>(self) -> Result<W, FieldFault>
        ensures { result ≡ word_seen W.Word.words (seen self.entry) }
    {
        match self {
            Field::Word(part) => part.placed(W::read(part.bytes).ok_or(Cause::Strange)),
            Field::Digits(part) | Field::Name(part) => Err(Cause::Strange.at(part.place)),
        }
    }

    // The name that a field is.
    pub fn name(self) -> Result<Name, FieldFault>
        ensures { result ≡ name_seen (seen self.entry) }
    {
        match self {
            Field::Name(part) => part.placed(Name::new(part.bytes).map_err(Cause::from)),
            Field::Word(part) | Field::Digits(part) => Err(Cause::Strange.at(part.place)),
        }
    }
}
