// What the bytes of a record stand for, and what is tested of each.
ghost use Rattle.std.specs.Prelude.{◌≡◌};
ghost use Rattle.sheets.specs.Records.{range, within, declared_so, of_width, undeclared_as};

use crate::fault::Cause;
use crate::line::Width;

// Which width a line asks of a variable.
#[derive(Clone, Copy)]
pub enum Wanted {
    Exactly(Width),
    Any,
    // The width of the record's first variable.
    LikeFirst,
}

// What one byte of a record's body stands for.
#[derive(Clone, Copy)]
pub enum Field {
    // A variable that the record declares.
    Declares,
    WidthCode,
    // A variable that a line reads or writes.
    Variable(Wanted),
    Port,
    Target,
    Weight,
}

impl Field {
    fn range(self) -> (u8, u8)
        ensures { result ≡ range self }
    {
        match self {
            Field::Declares | Field::Variable(_) => (0, 11),
            Field::WidthCode => (1, 2),
            Field::Port => (0, 7),
            Field::Target => (0, 63),
            Field::Weight => (1, 255),
        }
    }

    pub(crate) fn is_in_range(self, byte: u8) -> bool
        ensures { result ≡ within (range self) byte }
    {
        let (low, high) = self.range();
        low <= byte && byte <= high
    }

    pub(crate) fn is_declared_so(self, width: Option<Width>) -> bool
        ensures { result ≡ declared_so self width }
    {
        match self {
            Field::Declares => width.is_none(),
            Field::Variable(_) => width.is_some(),
            _ => true,
        }
    }

    // Why the variable is refused that is not declared as the field asks.
    pub(crate) fn undeclared_as(self) -> Cause
        ensures { result ≡ undeclared_as self }
    {
        match self {
            Field::Declares => Cause::DeclaredAgain,
            _ => Cause::Undeclared,
        }
    }

    pub(crate) fn is_of_width(self, width: Option<Width>, first: Option<Width>) -> bool
        ensures { result ≡ of_width self width first }
    {
        match self {
            Field::Variable(Wanted::Exactly(wanted)) => width == Some(wanted),
            Field::Variable(Wanted::LikeFirst) => width == first,
            _ => true,
        }
    }
}
