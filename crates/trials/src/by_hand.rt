// What a graph's answer is, by trying all assignments and summing each from nothing.
use crate::case::Case;
use crate::refusal::NOTHING_FITS;
use crate::sample::Sample;
use crate::shape::Shape;
use crate::variable::{Variable, Variables};
use refusals::Told;
use std::iter;

// Where the search ends at the latest: five choices for each of twelve variables.
const ALL_ASSIGNMENTS: usize = 244_140_625;

// The assignment after this one, as an odometer turns; none where it is back at the first.
fn next_assignment(shape: &Shape, picks: &[u8; 12]) -> Option<[u8; 12]> {
    let mut next = *picks;
    for (v, pick) in Variable::all().zip(next.iter_mut()) {
        let turned = pick.saturating_add(1);
        if turned < shape.choices(v) {
            *pick = turned;
            return Some(next);
        }
        *pick = 0;
    }
    None
}

impl<P: Sample> Case<P> {
    // The prices of those of the variables that are present, together.
    fn sum<F: Fn(Variable) -> P>(&self, variables: Variables, price_of: F) -> P
        requires { (state : F) (v : _) → F.pre state v }
    {
        variables
            .filter(|v| self.shape.has(*v))
            .map(price_of)
            .fold(P::zero(), P::add)
    }

    // The price of v's pick with those of the present variables below it.
    fn total_below(&self, v: Variable, picks: &[u8; 12]) -> P {
        self.sum(v.below(), |u| {
            self.pair_price(u, v, picks[u.index()], picks[v.index()])
        })
    }

    pub(crate) fn total(&self, picks: &[u8; 12]) -> P {
        self.sum(Variable::all(), |v| {
            self.choice_price(v, picks[v.index()])
                .add(self.total_below(v, picks))
        })
    }

    fn lowest(&self) -> P {
        iter::successors(Some([0; 12]), |picks| next_assignment(&self.shape, picks))
            .take(ALL_ASSIGNMENTS)
            .map(|picks| self.total(&picks))
            .min()
            .unwrap_or(P::top())
    }

    // What is right where the graph is taken and the memory suffices.
    pub(crate) fn answer(&self) -> Result<P, Told> {
        let lowest = self.lowest();
        if lowest == P::top() {
            Err(NOTHING_FITS)
        } else {
            Ok(lowest)
        }
    }
}
