ghost use Rattle.std.specs.Prelude.{◌≡◌, ◌+◌, ◌≤◌, IfOk};
ghost use Rattle.lines.specs.Readings.{Reads, text, start, seen_in, field_in, number_in, word_in, name_in, end_in};

use crate::fault::{Cause, FieldFault, Place};
use crate::field::field_end;
use crate::reader::{Field, Kind, Part, Reader};
use crate::word::Word;
use keys::name::Name;

impl<'a> Reader<'a> {
    // The line from its first field on.
    pub fn new(line: &'a [u8]) -> Reader<'a>
        ensures line { text result ≡ line.now }
        ensures place { result.next ≡ start }
    {
        Reader {
            line,
            next: Place { field: 1, byte: 0 },
        }
    }

    // The next field, which is neither missing nor empty.
    pub fn field(&mut self, kind: Kind) -> Result<Field<'a>, FieldFault>
        ensures { Reads (field_in kind) 1 self.old self.new (seen_in result) }
    {
        let line = self.line;
        let place = self.next;
        if place.byte > line.len() {
            return Err(Cause::Missing.at(Place {
                byte: line.len(),
                ..place
            }));
        }
        let end = field_end(line, place.byte);
        if end == place.byte {
            return Err(Cause::Missing.at(place));
        }
        self.next = Place {
            field: place.field + 1,
            byte: end + 1,
        };
        let part = Part {
            bytes: &line[place.byte..end],
            place,
        };
        Ok(match kind {
            Kind::Word => Field::Word(part),
            Kind::Digits => Field::Digits(part),
            Kind::Name => Field::Name(part),
        })
    }

    // The next field as a number.
    pub fn number(&mut self, limit: u32) -> Result<u32, FieldFault>
        ensures read { Reads (number_in limit) 1 self.old self.new result }
        ensures bound { IfOk result (λ n. n ≤ limit) }
    {
        self.field(Kind::Digits)?.number(limit)
    }

    // The next field as a number that is at most `limit`, of sixteen bits.
    pub fn short_number(&mut self, limit: u16) -> Result<u16, FieldFault>
        ensures { Reads (number_in limit) 1 self.old self.new result }
    {
        Ok(self.number(limit as u32)? as u16)
    }

    // The next field as one of W's words.
    pub fn word<W: Word>(&mut self) -> Result<W, FieldFault>
        ensures { Reads (word_in W.Word.words) 1 self.old self.new result }
    {
        self.field(Kind::Word)?.word::<W>()
    }

    // The next field as a name.
    pub fn name(&mut self) -> Result<Name, FieldFault>
        ensures { Reads name_in 1 self.old self.new result }
    {
        self.field(Kind::Name)?.name()
    }

    // Refuses a field that follows the last of those wanted, which have been read.
    pub(crate) fn finish(&mut self, wanted: usize) -> Result<(), FieldFault>
        requires { self.old.next.field ≡ wanted + 1 }
        ensures { Reads end_in 0 self.old self.new result }
    {
        let byte = self.next.byte;
        if byte <= self.line.len() {
            return Err(Cause::Extra.at(Place {
                field: wanted + 1,
                byte,
            }));
        }
        Ok(())
    }
}
