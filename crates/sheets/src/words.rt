// Lines, widths, tallies and refusals in words.
ghost use Rattle.std.specs.Prelude.{Some};
ghost use Rattle.sheets.specs.Words.{width_words, line_words, tally_words, cause_words, refusal_words};

use crate::access::Tally;
use crate::fault::{Cause, SheetRefusal};
use crate::line::{Line, Width};
use std::fmt;

impl fmt::Display for Width {
    ghost output = { λ w. Some (width_words w) };

    fn fmt<W: fmt::Write>(&self, f: &mut fmt::Formatter<W>) -> fmt::Result {
        f.write_str(match self {
            Width::Word => "word",
            Width::Wide => "wide",
        })
    }
}

impl fmt::Display for Line {
    ghost output = { λ l. Some (line_words l) };

    fn fmt<W: fmt::Write>(&self, f: &mut fmt::Formatter<W>) -> fmt::Result {
        match *self {
            Line::Input { d, port, w } => write!(f, "v{d} = input {port}, weight {w}"),
            Line::Output { s, port, w } => write!(f, "output {port} = v{s}, weight {w}"),
            Line::Copy { d, s, w } => write!(f, "v{d} = v{s}, weight {w}"),
            Line::Add { d, a, b, w } => write!(f, "v{d} = v{a} + v{b}, weight {w}"),
            Line::Multiply { d, a, b, w } => write!(f, "v{d} = v{a} * v{b}, weight {w}"),
            Line::UpperHalf { d, s, w } => write!(f, "v{d} = upper half of v{s}, weight {w}"),
            Line::GoTo { t } => write!(f, "go to line {t}"),
            Line::GoToIfZero { s, t, w } => write!(f, "go to line {t} if v{s} is zero, weight {w}"),
            Line::End => write!(f, "end"),
        }
    }
}

impl fmt::Display for Tally {
    ghost output = { λ t. Some (tally_words t) };

    fn fmt<W: fmt::Write>(&self, f: &mut fmt::Formatter<W>) -> fmt::Result {
        write!(f, "{} (weight {})", self.count, self.weight)
    }
}

impl fmt::Display for Cause {
    ghost output = { λ c. Some (cause_words c) };

    fn fmt<W: fmt::Write>(&self, f: &mut fmt::Formatter<W>) -> fmt::Result {
        f.write_str(match self {
            Cause::UnknownKind => "the record is empty or not of a kind that this call takes",
            Cause::WrongLength => "the record is not as long as its kind asks",
            Cause::OutOfRange => "a byte is out of its range",
            Cause::DeclaredAgain => "the variable is declared already",
            Cause::Undeclared => "a variable is not declared",
            Cause::WrongWidth => "a variable has the wrong width",
            Cause::SheetFull => "64 lines stand already",
            Cause::NoLine => "no line stands",
        })
    }
}

impl fmt::Display for SheetRefusal {
    ghost output = { λ r. Some (refusal_words r) };

    fn fmt<W: fmt::Write>(&self, f: &mut fmt::Formatter<W>) -> fmt::Result {
        match self {
            SheetRefusal::Sheet(fault) => write!(f, "{} ({})", fault.cause, self.told()),
        }
    }
}
