// The records of a file, each with its offset and in words.
use crate::report::Report;
use files::{Part, Reader};
use sheets::Kind;
use std::io;

impl<'a, R: Print> Report<'a, R> {
    // Prints an accepted record; `number` is that of the next line. Answers the number after it: it goes along with the
    // records, since not every record is a line (handed along as `enumerate`, a goal of it stayed open).
    fn print_accepted(&self, part: Part, number: usize) -> io::Result<usize> {
        if let (Ok(Kind::Declare), &[_, variable, ..]) = (Kind::of(part.bytes), part.bytes) {
            if let Some(width) = self.sheet.width(variable) {
                println!(self.rt; "{:>6}  declare v{variable}: {width}", part.offset)?;
            }
        } else if let Some(line) = self.sheet.lines().get(number) {
            println!(self.rt; "{:>6}  line {number}: {line}", part.offset)?;
            return Ok(number + 1);
        }
        Ok(number)
    }

    fn print_bytes(&self, part: Part) -> io::Result<()> {
        print!(self.rt; "{:>6}  refused:", part.offset)?;
        for byte in part.bytes {
            print!(self.rt; " {byte:02x}")?;
        }
        println!(self.rt; "")
    }

    // Prints the records before the offset `end`, which were accepted, and the bytes of the one there, if there is one.
    pub(crate) fn print_records(&self, end: usize) -> io::Result<()> {
        let mut number = 0;
        for part in Reader::new(self.file) {
            if part.offset >= end {
                return self.print_bytes(part);
            }
            number = self.print_accepted(part, number)?;
        }
        Ok(())
    }
}
