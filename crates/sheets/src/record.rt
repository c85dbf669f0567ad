// Records taken apart: what a record says, or why it is refused.
ghost use Rattle.std.specs.Prelude.{◌≡◌, ◌+◌, ◌<◌, ◌≤◌, length, IfOk, Ok, slice_index};
ghost use Rattle.sheets.specs.Kinds.{byte_of};
ghost use Rattle.sheets.specs.Table.{fields_of, width_coded};
ghost use Rattle.sheets.specs.Records.{Test, TestsBy, width_of, first_fault, unless, tested, declaration_of, line_of};

use crate::fault::{Cause, SheetFault};
use crate::field::Field;
use crate::kind::Kind;
use crate::line::{Declaration, Line, Width};

// The declared width of a variable.
pub(crate) fn width_of(widths: &[Option<Width>], v: u8) -> Option<Width>
    ensures { result ≡ width_of widths.now v }
{
    *widths.get(usize::from(v))?
}

// The width of a code in its range. It is no `TryFrom`: the test of ranges refuses every other code, so no error is left to give.
fn width_coded(code: u8) -> Width
    ensures { result ≡ width_coded code }
{
    if code == 1 { Width::Word } else { Width::Wide }
}

// The bytes of a record, and the declared widths that they are held against.
#[derive(Clone, Copy)]
pub(crate) struct Record<'a> {
    pub widths: &'a [Option<Width>],
    pub bytes: &'a [u8],
}

impl<'a> Record<'a> {
    // Refuses at the lowest offset whose byte does not pass the test: the test gives the cause for which it refuses a byte.
    fn test_all<F: Fn(Field, u8) -> Option<Cause>>(
        &self,
        fields: &[Field],
        test: F,
    ) -> Result<(), SheetFault>
        requires fits { length self.now.bytes.now ≡ length fields.now + 1 }
        requires few { length fields.now ≤ 4 }
        requires tests { F.IsAlwaysCallable test }
        ensures { (by : Test) → (TestsBy (F.post test) by self.now.widths.now (slice_index self.now.bytes.now 1))
            → result ≡ unless (first_fault by self.now.widths.now 1 fields.now self.now.bytes.now) (Ok tt) }
    {
        for (i, (field, byte)) in fields.iter().zip(&self.bytes[1..]).enumerate() {
            if let Some(cause) = test(*field, *byte) {
                return Err(cause.at(i as u8 + 1));
            }
        }
        Ok(())
    }

    // What a record says, unless a byte of its body fails: first by its range, then by the declarations, then by the widths.
    fn checked<A: Copy>(&self, kind: Kind, says: A) -> Result<A, SheetFault>
        requires fits { length self.now.bytes.now ≡ length (fields_of (byte_of kind)) + 1 }
        requires body { 1 < length self.now.bytes.now }
        ensures { result ≡ tested self.now.widths.now (fields_of (byte_of kind)) self.now.bytes.now says }
    {
        let fields = kind.fields();
        let width = |v| width_of(self.widths, v);
        self.test_all(fields, |field, byte| {
            (!field.is_in_range(byte)).then_some(Cause::OutOfRange)
        })?;
        self.test_all(fields, |field, byte| {
            (!field.is_declared_so(width(byte))).then_some(field.undeclared_as())
        })?;
        self.test_all(fields, |field, byte| {
            (!field.is_of_width(width(byte), width(self.bytes[1]))).then_some(Cause::WrongWidth)
        })?;
        Ok(says)
    }

    // The declaration that the record makes, or why it is refused.
    pub(crate) fn declaration(&self) -> Result<Declaration, SheetFault>
        ensures value { result ≡ declaration_of self.now.widths.now self.now.bytes.now }
        ensures low { IfOk result (λ d. d.variable ≤ 11) }
    {
        let kind = Kind::of(self.bytes)?;
        match (kind, self.bytes) {
            (Kind::Declare, &[_, variable, code]) => {
                let width = width_coded(code);
                self.checked(kind, Declaration { variable, width })
            }
            (Kind::Declare, _) => Err(Cause::WrongLength.at(kind.length() as u8)),
            _ => Err(Cause::UnknownKind.at(0)),
        }
    }

    // The line that the record stands for, or why it is refused.
    pub(crate) fn line(&self) -> Result<Line, SheetFault>
        ensures { result ≡ line_of self.now.widths.now self.now.bytes.now }
    {
        let kind = Kind::of(self.bytes)?;
        match (kind, self.bytes) {
            (Kind::Input, &[_, d, port, w]) => self.checked(kind, Line::Input { d, port, w }),
            (Kind::Output, &[_, s, port, w]) => self.checked(kind, Line::Output { s, port, w }),
            (Kind::Copy, &[_, d, s, w]) => self.checked(kind, Line::Copy { d, s, w }),
            (Kind::Add, &[_, d, a, b, w]) => self.checked(kind, Line::Add { d, a, b, w }),
            (Kind::Multiply, &[_, d, a, b, w]) => self.checked(kind, Line::Multiply { d, a, b, w }),
            (Kind::UpperHalf, &[_, d, s, w]) => self.checked(kind, Line::UpperHalf { d, s, w }),
            (Kind::GoTo, &[_, t]) => self.checked(kind, Line::GoTo { t }),
            (Kind::GoToIfZero, &[_, s, t, w]) => self.checked(kind, Line::GoToIfZero { s, t, w }),
            (Kind::End, &[_]) => Ok(Line::End),
            (Kind::Declare, _) => Err(Cause::UnknownKind.at(0)),
            _ => Err(Cause::WrongLength.at(kind.length() as u8)),
        }
    }
}
