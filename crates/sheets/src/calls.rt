// The calls on a sheet.
ghost use Rattle.std.specs.Prelude.{◌≡◌, ◌≤◌, length};
ghost use Rattle.sheets.specs.declared.sheet.TheConstants.{MAX_LINES, VARIABLES};
ghost use Rattle.sheets.specs.Records.{width_of, declaration_of, line_of};
ghost use Rattle.sheets.specs.Rules.{ByTheRule};
ghost use Rattle.sheets.specs.Table.{declaration_rows, line_rows};
ghost use Rattle.sheets.specs.Contents.{content_of, blank, declaring, lining, withdrawing, answered, left};

use crate::fault::{Cause, SheetRefusal};
use crate::line::{Line, Width};
use crate::record::{Record, width_of};
use crate::sheet::{MAX_LINES, Sheet, VARIABLES};
use arrayvec::ArrayVec;

impl Sheet {
    // A sheet with no declaration and no line.
    pub fn new() -> Sheet
        ensures { content_of result ≡ blank }
    {
        Sheet {
            widths: [None; VARIABLES],
            lines: ArrayVec::new(),
        }
    }

    // The record of these bytes, against the widths declared here.
    fn record<'a>(&'a self, bytes: &'a [u8]) -> Record<'a>
        ensures bytes { result.bytes.now ≡ bytes.now }
        ensures widths { result.widths.now ≡ self.now.widths }
    {
        Record {
            widths: &self.widths,
            bytes,
        }
    }

    // Adds the declaration of a record.
    pub fn declare(&mut self, bytes: &[u8]) -> Result<(), SheetRefusal>
        ensures answer { result ≡ answered (declaring bytes.now (content_of self.old)) }
        ensures sheet { content_of self.new ≡ left (declaring bytes.now (content_of self.old)) (content_of self.old) }
        ensures rule { ByTheRule declaration_rows (content_of self.old).widths bytes.now (declaration_of (content_of self.old).widths bytes.now) }
    {
        let declaration = self.record(bytes).declaration()?;
        self.widths[usize::from(declaration.variable)] = Some(declaration.width);
        Ok(())
    }

    // Adds the line of a record after the last.
    pub fn line(&mut self, bytes: &[u8]) -> Result<(), SheetRefusal>
        ensures answer { result ≡ answered (lining bytes.now (content_of self.old)) }
        ensures sheet { content_of self.new ≡ left (lining bytes.now (content_of self.old)) (content_of self.old) }
        ensures rule { ByTheRule line_rows (content_of self.old).widths bytes.now (line_of (content_of self.old).widths bytes.now) }
    {
        let line = self.record(bytes).line()?;
        let full = Cause::SheetFull.at(MAX_LINES as u8);
        self.lines.try_push(line).map_err(|_| full)?;
        Ok(())
    }

    // Removes the last line.
    pub fn withdraw(&mut self) -> Result<(), SheetRefusal>
        ensures answer { result ≡ answered (withdrawing (content_of self.old)) }
        ensures sheet { content_of self.new ≡ left (withdrawing (content_of self.old)) (content_of self.old) }
    {
        self.lines.pop().ok_or(Cause::NoLine.at(0))?;
        Ok(())
    }

    // The lines that stand, in order.
    pub fn lines(&self) -> &[Line]
        ensures value { result.now ≡ (content_of self.now).lines }
        ensures few { length result.now ≤ MAX_LINES }
    {
        self.lines.as_slice()
    }

    // The declared width of a variable.
    pub fn width(&self, variable: u8) -> Option<Width>
        ensures value { result ≡ width_of (content_of self.now).widths variable }
        ensures twelve { length (content_of self.now).widths ≡ VARIABLES }
    {
        width_of(&self.widths, variable)
    }
}
