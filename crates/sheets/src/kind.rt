// The kinds of records: the byte of each, and what the bytes of its body stand for.
ghost use Rattle.std.specs.Prelude.{◌≡◌, ◌+◌, ◌≤◌, length, Some, slice_index};
ghost use Rattle.sheets.specs.Kinds.{byte_of, IsKindOf};
ghost use Rattle.sheets.specs.Table.{length_of, fields_of};

use crate::fault::{Cause, SheetFault};
use crate::field::{Field, Wanted};
use crate::line::Width;

#[derive(Clone, Copy, Debug, PartialEq, Eq)]
pub enum Kind {
    Declare,
    Input,
    Output,
    Copy,
    Add,
    Multiply,
    UpperHalf,
    GoTo,
    GoToIfZero,
    End,
}

// The one place that has the bytes of the kinds, as records have them.
impl TryFrom<u8> for Kind {
    type Error = SheetFault;

    ghost try_from_gives = { IsKindOf };

    fn try_from(byte: u8) -> Result<Kind, SheetFault> {
        match byte {
            0x01 => Ok(Kind::Declare),
            0x10 => Ok(Kind::Input),
            0x11 => Ok(Kind::Output),
            0x12 => Ok(Kind::Copy),
            0x13 => Ok(Kind::Add),
            0x14 => Ok(Kind::Multiply),
            0x15 => Ok(Kind::UpperHalf),
            0x16 => Ok(Kind::GoTo),
            0x17 => Ok(Kind::GoToIfZero),
            0x18 => Ok(Kind::End),
            _ => Err(Cause::UnknownKind.at(0)),
        }
    }
}

const WORD: Field = Field::Variable(Wanted::Exactly(Width::Word));

const WIDE: Field = Field::Variable(Wanted::Exactly(Width::Wide));

const ANY_WIDTH: Field = Field::Variable(Wanted::Any);

const LIKE_FIRST: Field = Field::Variable(Wanted::LikeFirst);

impl Kind {
    // The kind of a record, by its first byte.
    pub fn of(bytes: &[u8]) -> Result<Kind, SheetFault>
        ensures { IsKindOf (slice_index bytes.now 0) result }
    {
        let first = bytes.first().ok_or(Cause::UnknownKind.at(0))?;
        Kind::try_from(*first)
    }

    // What the bytes of the body stand for.
    pub(crate) fn fields(self) -> &'static [Field]
        ensures value { result.now ≡ fields_of (byte_of self) }
        ensures few { length result.now ≤ 4 }
    {
        match self {
            Kind::Declare => &[Field::Declares, Field::WidthCode],
            Kind::Input | Kind::Output => &[WORD, Field::Port, Field::Weight],
            Kind::Copy => &[ANY_WIDTH, LIKE_FIRST, Field::Weight],
            Kind::Add => &[ANY_WIDTH, LIKE_FIRST, LIKE_FIRST, Field::Weight],
            Kind::Multiply => &[WIDE, WORD, WORD, Field::Weight],
            Kind::UpperHalf => &[WORD, WIDE, Field::Weight],
            Kind::GoTo => &[Field::Target],
            Kind::GoToIfZero => &[WORD, Field::Target, Field::Weight],
            Kind::End => &[],
        }
    }

    // The length of a record: the kind byte, and a byte for each field.
    pub fn length(self) -> usize
        ensures value { length_of (byte_of self) ≡ Some result }
        ensures fields { result ≡ length (fields_of (byte_of self)) + 1 }
    {
        self.fields().len() + 1
    }
}

// The length of a record of this kind, or none where there is no such kind.
pub fn record_length(kind: u8) -> Option<usize>
    ensures { result ≡ length_of kind }
{
    Kind::try_from(kind).ok().map(Kind::length)
}
