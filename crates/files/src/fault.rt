// Why a file is refused: by itself, or by the sheet at one of its records.
ghost use Rattle.std.specs.Prelude.{◌≡◌};
ghost use Rattle.files.specs.declared.fault.FileRefusal.TheVariants.{File, Record};
ghost use Rattle.files.specs.Faults.{number_of, told, offset_of};

use refusals::Told;
use sheets::SheetRefusal;

#[derive(Clone, Copy, Debug, PartialEq, Eq)]
pub enum FileCause {
    TooLong,
}

// What is refused of the file as a whole. The place stands beside the cause, though the one cause so far has place 0: with the cause
// alone it would be no plainer, since what a refusal tells has a place at every level.
#[derive(Clone, Copy, Debug, PartialEq, Eq)]
pub struct FileFault {
    pub cause: FileCause,
    pub place: u8,
}

// What the sheet refused, and where the record that it was handed begins.
#[derive(Clone, Copy, Debug, PartialEq, Eq)]
pub struct RecordRefusal {
    pub refusal: SheetRefusal,
    pub offset: usize,
}

#[derive(Clone, Copy, Debug, PartialEq, Eq)]
pub enum FileRefusal {
    File(FileFault),
    Record(RecordRefusal),
}

impl From<FileFault> for FileRefusal {
    ghost from_gives = { λ f r. r ≡ File f };

    fn from(of_file: FileFault) -> FileRefusal {
        FileRefusal::File(of_file)
    }
}

impl From<RecordRefusal> for FileRefusal {
    ghost from_gives = { λ f r. r ≡ Record f };

    fn from(of_record: RecordRefusal) -> FileRefusal {
        FileRefusal::Record(of_record)
    }
}

impl FileCause {
    // The number in the table of refusals, which a caller outside knows the cause by.
    fn number(self) -> u8
        ensures { result ≡ number_of self }
    {
        match self {
            FileCause::TooLong => 15,
        }
    }
}

impl FileRefusal {
    pub fn told(&self) -> Told
        ensures { result ≡ told self.now }
    {
        match self {
            FileRefusal::File(fault) => Told {
                number: fault.cause.number(),
                place: fault.place,
                depth: 0,
            },
            FileRefusal::Record(refused) => refused.refusal.told(),
        }
    }

    // Where the refused record begins; none where the whole file is refused.
    pub fn offset(&self) -> Option<usize>
        ensures { result ≡ offset_of self.now }
    {
        match self {
            FileRefusal::File(_) => None,
            FileRefusal::Record(refused) => Some(refused.offset),
        }
    }
}
