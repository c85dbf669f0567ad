// A file keyed in: its records handed to a sheet in order, up to the first that is refused.
ghost use Rattle.std.specs.Prelude.{◌≡◌};
ghost use Rattle.sheets.specs.Contents.{content_of, answered, left};
ghost use Rattle.files.specs.Cut.{cut};
ghost use Rattle.files.specs.Keyed.{entering, located, fitted, keyed, keyed_records, answer_of};
ghost use Rattle.files.specs.Rules.{KeyedByRule};

use crate::fault::{FileCause, FileFault, FileRefusal, RecordRefusal};
use crate::reader::Reader;
use sheets::{Kind, Sheet, SheetRefusal};

// The longest file that is looked at, in bytes.
pub const MAX_FILE: usize = 4096;

// Hands one record to a sheet: a declaration to declare, any other to line.
fn enter(sheet: &mut Sheet, bytes: &[u8]) -> Result<(), SheetRefusal>
    ensures answer { result ≡ answered (entering bytes.now (content_of sheet.old)) }
    ensures sheet { content_of sheet.new ≡ left (entering bytes.now (content_of sheet.old)) (content_of sheet.old) }
{
    if Kind::of(bytes) == Ok(Kind::Declare) {
        sheet.declare(bytes)
    } else {
        sheet.line(bytes)
    }
}

// The sheet's refusal, with the offset of the record that it was handed.
fn locate(answer: Result<(), SheetRefusal>, offset: usize) -> Result<(), RecordRefusal>
    ensures { result ≡ located offset answer }
{
    answer.map_err(|refusal| RecordRefusal { refusal, offset })
}

fn fit(length: usize) -> Result<(), FileFault>
    ensures { result ≡ fitted length }
{
    if length <= MAX_FILE {
        Ok(())
    } else {
        Err(FileFault {
            cause: FileCause::TooLong,
            place: 0,
        })
    }
}

// Hands the records of a file to a sheet, and answers the first fault.
pub fn key_in(file: &[u8], sheet: &mut Sheet) -> Result<(), FileRefusal>
    ensures answer { result ≡ answer_of (keyed (content_of sheet.old) file.now).fault }
    ensures sheet { content_of sheet.new ≡ (keyed (content_of sheet.old) file.now).content }
    ensures rule { KeyedByRule (content_of sheet.old) (cut file.now) (keyed_records (content_of sheet.old) (cut file.now)) }
{
    fit(file.len())?;
    for part in Reader::new(file) {
        locate(enter(sheet, part.bytes), part.offset)?;
    }
    Ok(())
}
