// Why a call on a sheet is refused.
ghost use Rattle.std.specs.Prelude.{◌≡◌};
ghost use Rattle.sheets.specs.declared.fault.SheetRefusal.TheVariants.{Sheet};
ghost use Rattle.sheets.specs.Faults.{number_of, told};
ghost use Rattle.sheets.specs.Records.{fault};

use refusals::Told;

#[derive(Clone, Copy, Debug, PartialEq, Eq)]
pub enum Cause {
    UnknownKind,
    WrongLength,
    OutOfRange,
    DeclaredAgain,
    Undeclared,
    WrongWidth,
    SheetFull,
    NoLine,
}

// What the sheet itself refuses: why, and where. What the place counts hangs on the cause. The place stands beside the
// cause, not in its cases: it means something for most of them, and the rule of refusals speaks of both at once.
#[derive(Clone, Copy, Debug, PartialEq, Eq)]
pub struct SheetFault {
    pub cause: Cause,
    pub place: u8,
}

// A refused call, by the part that refused it.
#[derive(Clone, Copy, Debug, PartialEq, Eq)]
pub enum SheetRefusal {
    Sheet(SheetFault),
}

impl From<SheetFault> for SheetRefusal {
    ghost from_gives = { λ f r. r ≡ Sheet f };

    fn from(by_sheet: SheetFault) -> SheetRefusal {
        SheetRefusal::Sheet(by_sheet)
    }
}

impl Cause {
    // The number in the table of refusals, which a caller outside knows the cause by.
    fn number(self) -> u8
        ensures { result ≡ number_of self }
    {
        match self {
            Cause::UnknownKind => 1,
            Cause::WrongLength => 2,
            Cause::OutOfRange => 3,
            Cause::DeclaredAgain | Cause::Undeclared => 4,
            Cause::WrongWidth => 5,
            Cause::SheetFull => 6,
            Cause::NoLine => 7,
        }
    }

    // The fault of this cause at a place.
    pub(crate) fn at(self, place: u8) -> SheetFault
        ensures { result ≡ fault self place }
    {
        SheetFault { cause: self, place }
    }
}

impl SheetRefusal {
    // The depth counts how many layers up a solver's refusal came; it is 0 for what the sheet refuses.
    pub fn told(&self) -> Told
        ensures { result ≡ told self.now }
    {
        match self {
            SheetRefusal::Sheet(fault) => Told {
                number: fault.cause.number(),
                place: fault.place,
                depth: 0,
            },
        }
    }
}
