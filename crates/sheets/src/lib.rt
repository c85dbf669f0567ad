// Sheets: a control program as it is keyed in, record by record, and what its lines use and cost.
#![tactic(auto)]

mod access;
mod calls;
mod fault;
mod field;
mod kind;
mod line;
mod record;
mod sheet;
mod usage;
mod words;

pub use access::{Access, Tally};
pub use fault::{Cause, SheetFault, SheetRefusal};
pub use kind::{Kind, record_length};
pub use line::{Line, Width};
pub use sheet::{MAX_LINES, Sheet, VARIABLES};
