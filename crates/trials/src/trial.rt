// One graph through one solver: what it has to answer, and what it has to leave.
ghost use Rattle.std.specs.Prelude.{◌≤◌};

use crate::case::{Case, NEED};
use crate::refusal::SHORT;
use crate::sample::Sample;
use crate::tally::{Disagreements, Tally};
use crate::variable::Variable;
use graphs::{Fault, GRAPH_PRICES, Solver};
use refusals::Told;

// What a solver answered, and the picks that it left.
#[derive(Clone, Copy)]
struct Solved<P> {
    answer: Result<P, Fault>,
    picks: [u8; 12],
}

impl<P: Sample> Solved<P> {
    // The picks of present variables are choices that they have, and the others stay.
    fn check_picks(&self, case: &Case<P>, failed: &mut Disagreements) {
        for v in Variable::all() {
            let pick = self.picks[v.index()];
            if case.shape.has(v) {
                failed.choice.expect(pick < case.shape.choices(v));
            } else {
                failed.picks.expect(pick == case.picks[v.index()]);
            }
        }
    }

    fn check(&self, case: &Case<P>, right: Result<P, Told>, tally: &mut Tally) {
        tally.count(&self.answer);
        let failed = &mut tally.disagreements;
        match (self.answer, right) {
            (Ok(price), Ok(lowest)) => {
                failed.price.expect(price == lowest);
                failed.total.expect(price == case.total(&self.picks));
                self.check_picks(case, failed);
            }
            (Err(fault), Err(refusal)) => {
                failed.outcome.expect(fault.told() == refusal);
                failed.picks.expect(self.picks == case.picks);
            }
            (Ok(_), Err(_)) | (Err(_), Ok(_)) => failed.outcome.add(),
        }
    }
}

// A solver that is tried, and the tally of what comes of it. The case is handed to each call: only of one that is handed in is it
// known that it fits the address space. What is right differs from call to call.
#[derive(Drop)]
pub(crate) struct Trial<'a, S> {
    pub(crate) solver: &'a mut S,
    pub(crate) tally: &'a mut Tally,
}

impl<'a, S> Trial<'a, S> {
    fn solve<P: Sample>(&mut self, case: &Case<P>, memory: &mut [P]) -> Solved<P>
    where
        S: Solver<P>,
    {
        let mut picks = case.picks;
        let answer = self.solver.solve(&case.shape.graph(), memory, &mut picks);
        Solved { answer, picks }
    }

    // Lends the first prices of the case, as many as `room`, to the solver; of all its prices the first, as many as `standing`, have to
    // be as they were.
    fn try_room<P: Sample>(
        &mut self,
        case: &Case<P>,
        right: Result<P, Told>,
        room: usize,
        standing: usize,
    )
    where
        S: Solver<P>,
        requires { (room ≤ 2010) × (standing ≤ 2010) }
    {
        let mut memory = case.prices;
        let solved = self.solve(case, &mut memory[..room]);
        solved.check(case, right, self.tally);
        let stand = memory[..standing] == case.prices[..standing];
        self.tally.disagreements.prices.expect(stand);
    }

    // With one price less than the need nothing at all may change. With just the need the graph's own prices stand; what lies past
    // them is the solver's.
    pub(crate) fn run<P: Sample>(&mut self, case: &Case<P>, right: Result<P, Told>)
    where
        S: Solver<P>,
    {
        self.try_room(case, Err(SHORT), NEED - 1, NEED);
        self.try_room(case, right, NEED, GRAPH_PRICES);
    }
}
