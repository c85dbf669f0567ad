// How a line uses a variable, and how often lines do.

#[derive(Clone, Copy, Debug, PartialEq, Eq)]
pub enum Access {
    Read,
    Write,
}

// How many accesses there are, and the sum of their lines' weights.
#[derive(Clone, Copy, Debug, PartialEq, Eq)]
pub struct Tally {
    pub count: u16,
    pub weight: u16,
}
