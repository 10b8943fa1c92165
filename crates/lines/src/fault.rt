ghost use Rattle.std.specs.Prelude.{◌≡◌};
ghost use Rattle.lines.specs.Faults.{fault, cause_number, line_number, line_place};
ghost use Rattle.lines.specs.declared.fault.Cause.TheVariants.{Name};
ghost use Rattle.lines.specs.declared.fault.LineFault.TheVariants.{Field};

use keys::name::NameFault;

// Where a field is: which one, counted from 1, and its first byte, from 0.
#[derive(Clone, Copy, Debug, PartialEq, Eq)]
pub struct Place {
    pub field: usize,
    pub byte: usize,
}

// Why a field is refused.
#[derive(Clone, Copy, Debug, PartialEq, Eq)]
pub enum Cause {
    // it is missing or empty
    Missing,
    // it is none of its words, or holds a byte that is no digit
    Strange,
    // it has more than ten digits, or is above its limit
    Large,
    // its bytes make no name
    Name(NameFault),
    // it follows the last one wanted
    Extra,
}

impl From<NameFault> for Cause {
    ghost from_gives = { λ x y. y ≡ Name x };

    fn from(value: NameFault) -> Cause {
        Cause::Name(value)
    }
}

// A refused field, with its place.
#[derive(Clone, Copy, Debug, PartialEq, Eq)]
pub struct FieldFault {
    pub cause: Cause,
    pub place: Place,
}

// A refused line: by its length, or by one of its fields.
#[derive(Clone, Copy, Debug, PartialEq, Eq)]
pub enum LineFault {
    Length,
    Field(FieldFault),
}

impl From<FieldFault> for LineFault {
    ghost from_gives = { λ x y. y ≡ Field x };

    fn from(value: FieldFault) -> LineFault {
        LineFault::Field(value)
    }
}

impl Cause {
    // This fault of the field at a place.
    pub(crate) fn at(self, place: Place) -> FieldFault
        ensures { result ≡ fault self place }
    {
        FieldFault { cause: self, place }
    }

    // The refusal's number.
    pub fn number(self) -> u8
        ensures { result ≡ cause_number self }
    {
        match self {
            Cause::Missing => 2,
            Cause::Strange => 3,
            Cause::Large => 4,
            Cause::Name(fault) => fault.number(),
            Cause::Extra => 6,
        }
    }
}

impl LineFault {
    // The refusal's number.
    pub fn number(self) -> u8
        ensures { result ≡ line_number self }
    {
        match self {
            LineFault::Length => 1,
            LineFault::Field(fault) => fault.cause.number(),
        }
    }

    // The field and the byte that the refusal names.
    pub fn place(self) -> Place
        ensures { result ≡ line_place self }
    {
        match self {
            LineFault::Length => Place { field: 0, byte: 0 },
            LineFault::Field(fault) => fault.place,
        }
    }
}
