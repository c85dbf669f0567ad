// Why a solver gave no answer.
ghost use Rattle.std.specs.Prelude.{◌≡◌};
ghost use Rattle.graphs.specs.Faults.{told};

use refusals::Told;

#[derive(Clone, Copy, Debug, PartialEq, Eq)]
pub enum Cause {
    // The cost memory is shorter than the solver's need.
    Short,
    // The solver does not take this graph.
    TurnedAway { variable: u8, depth: u8 },
    // Every assignment totals top.
    NothingFits,
}

// A struct around its cause, as the faults of a sheet and of a file are: an enum by itself would be no plainer to hand up, and the
// levels would differ.
#[derive(Clone, Copy, Debug, PartialEq, Eq)]
pub struct Fault {
    pub cause: Cause,
}

impl Fault {
    // What the table of refusals has for it.
    pub fn told(&self) -> Told
        ensures { result ≡ told self.now.cause }
    {
        let (number, place, depth) = match self.cause {
            Cause::Short => (10, 0, 0),
            Cause::TurnedAway { variable, depth } => (11, variable, depth),
            Cause::NothingFits => (12, 255, 0),
        };
        Told {
            number,
            place,
            depth,
        }
    }
}
