// A sheet's memory: the declared widths, and the lines that stand.
ghost use Rattle.std.specs.Prelude.{◌≡◌, ◌≤◌, length};

use crate::line::{Line, Width};
use arrayvec::ArrayVec;

pub const MAX_LINES: usize = 64;

pub const VARIABLES: usize = 12;

// Twelve variables and at most 64 lines, in fixed memory. It has no model: a caller would see the content alone, and could not
// show its bounds without a call.
#[derive(Drop)]
pub struct Sheet {
    pub(crate) widths: [Option<Width>; VARIABLES],
    pub(crate) lines: ArrayVec<Line, MAX_LINES>,
    ghost few: { length lines.items ≤ 64 },
    ghost twelve: { length widths ≡ 12 },
}
