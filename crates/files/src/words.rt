// Refusals of files in words.
ghost use Rattle.std.specs.Prelude.{Some};
ghost use Rattle.files.specs.Words.{cause_words, refusal_words};

use crate::fault::{FileCause, FileRefusal, RecordRefusal};
use std::fmt;

impl fmt::Display for FileCause {
    ghost output = { λ c. Some (cause_words c) };

    fn fmt<W: fmt::Write>(&self, f: &mut fmt::Formatter<W>) -> fmt::Result {
        f.write_str(match self {
            FileCause::TooLong => "the file is above 4096 bytes",
        })
    }
}

impl fmt::Display for FileRefusal {
    ghost output = { λ r. Some (refusal_words r) };

    fn fmt<W: fmt::Write>(&self, f: &mut fmt::Formatter<W>) -> fmt::Result {
        match self {
            FileRefusal::File(fault) => write!(f, "{} ({})", fault.cause, self.told()),
            FileRefusal::Record(RecordRefusal { refusal, offset }) => {
                write!(f, "{refusal} in the record at offset {offset}")
            }
        }
    }
}
