// What a sheet holds: declared widths, and lines by their kind.

// How much a variable holds: a word fills a register, a wide variable a pair of them.
#[derive(Clone, Copy, Debug, PartialEq, Eq)]
pub enum Width {
    Word,
    Wide,
}

// What a declaring record says.
#[derive(Clone, Copy)]
pub struct Declaration {
    pub variable: u8,
    pub width: Width,
}

// One line, with the bytes of its record by their letters in the table of records: it writes d, reads s, a and b,
// and goes to line t; w is its weight. By default a line is an end, which is what an empty place of a sheet holds.
#[derive(Clone, Copy, Debug, Default, PartialEq, Eq)]
pub enum Line {
    Input { d: u8, port: u8, w: u8 },
    Output { s: u8, port: u8, w: u8 },
    Copy { d: u8, s: u8, w: u8 },
    Add { d: u8, a: u8, b: u8, w: u8 },
    Multiply { d: u8, a: u8, b: u8, w: u8 },
    UpperHalf { d: u8, s: u8, w: u8 },
    GoTo { t: u8 },
    GoToIfZero { s: u8, t: u8, w: u8 },
    #[default]
    End,
}
