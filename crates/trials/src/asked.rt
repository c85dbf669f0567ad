// What can be asked of a graph apart from any solver: its edges, and the total of picks.
use crate::case::Case;
use crate::sample::Sample;
use crate::tally::Counter;
use crate::variable::Variable;
use std::fmt;

// How often each was answered otherwise than by hand.
#[derive(Clone, Copy, Default)]
pub(crate) struct Asked {
    pub(crate) edges: Counter,
    pub(crate) totals: Counter,
}

// What is wrong is counted where it is found, one by one, so the counter goes along.
impl<P: Sample> Case<P> {
    fn check_edges(&self, u: Variable, mask: u16, failed: &mut Counter) {
        for v in Variable::all() {
            let joined = u != v && self.is_edge(u, v);
            failed.expect(v.is_in(mask) == joined);
        }
    }

    fn ask_edges(&self, failed: &mut Counter) {
        match self.shape.graph().edges(&self.prices) {
            Some(masks) => {
                for (u, mask) in Variable::all().zip(masks) {
                    self.check_edges(u, mask, failed);
                }
            }
            None => failed.add(),
        }
    }

    // Whether each present variable has a choice in the picks.
    fn is_assignment(&self, picks: &[u8; 12]) -> bool {
        Variable::all()
            .filter(|v| self.shape.has(*v))
            .all(|v| picks[v.index()] < self.shape.choices(v))
    }

    fn ask_total(&self, picks: &[u8; 12], failed: &mut Counter) {
        let answer = self.shape.graph().total(&self.prices, picks);
        let right = self.is_assignment(picks).then(|| self.total(picks));
        failed.expect(answer == right);
    }
}

impl Asked {
    // Random picks are hardly ever an assignment; the first choices always are.
    pub(crate) fn ask<P: Sample>(&mut self, case: &Case<P>) {
        case.ask_edges(&mut self.edges);
        case.ask_total(&case.picks, &mut self.totals);
        case.ask_total(&[0; 12], &mut self.totals);
    }
}

impl fmt::Display for Asked {
    fn fmt<W: fmt::Write>(&self, f: &mut fmt::Formatter<W>) -> fmt::Result {
        let Asked { edges, totals } = *self;
        write!(f, "edges {edges}, totals {totals}")
    }
}
