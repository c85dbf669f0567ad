// What a refusal tells, as a value and in words.
ghost use Rattle.std.specs.Prelude.{Some};
ghost use Rattle.refusals.specs.Words.{bare_words};

use std::fmt;

#[derive(Clone, Copy, Debug, PartialEq, Eq)]
pub struct Told {
    // The number in the table of refusals.
    pub number: u8,
    pub place: u8,
    // How many layers it has risen through, at most 255.
    pub depth: u8,
}

impl fmt::Display for Told {
    ghost output = { λ t. Some (bare_words t) };

    fn fmt<W: fmt::Write>(&self, f: &mut fmt::Formatter<W>) -> fmt::Result {
        let Told {
            number,
            place,
            depth,
        } = *self;
        write!(f, "refusal {number}, place {place}, depth {depth}")
    }
}
