// What a file holds, what its variables are used for, and what it costs.
use crate::report::Report;
use files::FileRefusal;
use prices::{Plain, Ranked};
use sheets::{Access, VARIABLES, Width};
use std::io;
use std::ops::Range;

// The variables by number, which is what a sheet is asked by.
fn numbers() -> Range<u8> {
    0..VARIABLES as u8
}

impl<'a, R: Print> Report<'a, R> {
    fn print_variable(&self, variable: u8, width: Width) -> io::Result<()> {
        let read = self.sheet.tally(Access::Read, variable);
        let written = self.sheet.tally(Access::Write, variable);
        println!(self.rt; "  v{variable} ({width}): reads {read}, writes {written}")
    }

    fn print_variables(&self) -> io::Result<()> {
        println!(self.rt; "variables:")?;
        for variable in numbers() {
            if let Some(width) = self.sheet.width(variable) {
                self.print_variable(variable, width)?;
            }
        }
        Ok(())
    }

    // How many variables are declared.
    fn count_variables(&self) -> usize {
        numbers()
            .filter(|variable| self.sheet.width(*variable).is_some())
            .count()
    }

    fn print_prices(&self) -> io::Result<()> {
        let plain: Plain = self.sheet.price_in_memory();
        let ranked: Ranked = self.sheet.price_in_memory();
        println!(self.rt; "price with everything in memory: {plain} (plain), {ranked} (ranked)")
    }

    // Prints the records up to the refused one, and why it was refused.
    fn print_refused(&self, refusal: FileRefusal) -> io::Result<()> {
        if let Some(end) = refusal.offset() {
            self.print_records(end)?;
        }
        println!(self.rt; "refused: {refusal}")
    }

    // How far the file was accepted, and what of it stands.
    fn print_outcome(&self) -> io::Result<()> {
        let outcome = if self.answer.is_ok() {
            "every record accepted"
        } else {
            "stopped at the first refusal"
        };
        println!(self.rt;
            "done: {} bytes read, {outcome}; {} variables and {} lines stand",
            self.file.len(),
            self.count_variables(),
            self.sheet.lines().len()
        )
    }

    // Prints it whole.
    pub(crate) fn print(&self) -> io::Result<()> {
        println!(self.rt; "records:")?;
        match self.answer {
            Ok(()) => self.print_records(self.file.len())?,
            Err(refusal) => self.print_refused(refusal)?,
        }
        self.print_variables()?;
        self.print_prices()?;
        self.print_outcome()
    }
}
