// Files: a keyed sheet as a file, cut into records and handed to a sheet.
#![tactic(auto)]

mod fault;
mod keying;
mod part;
mod reader;
mod words;

pub use fault::{FileCause, FileFault, FileRefusal, RecordRefusal};
pub use keying::{MAX_FILE, key_in};
pub use part::Part;
pub use reader::Reader;
