// Which graphs elimination has to turn away: those with a wide frontier.
use crate::case::Case;
use crate::sample::Sample;
use crate::variable::Variable;

// How many variables a frontier may have.
const WIDEST: usize = 3;

impl<P: Sample> Case<P> {
    // Whether some choice of u with some choice of v has a price; an absent variable has no choices.
    pub(crate) fn is_edge(&self, u: Variable, v: Variable) -> bool {
        (0..self.shape.choices(u)).any(|i| {
            (0..self.shape.choices(v)).any(|j| self.pair_price(u, v, i, j) != P::zero())
        })
    }

    // Whether u has an edge to a variable above k.
    fn reaches_above(&self, u: Variable, k: Variable) -> bool {
        k.above().any(|v| self.is_edge(u, v))
    }

    // How many variables up to k have an edge to one above it.
    fn frontier_after(&self, k: Variable) -> usize {
        k.up_to().filter(|u| self.reaches_above(*u, k)).count()
    }

    // The lowest present variable after which the frontier is too wide.
    pub(crate) fn too_wide_after(&self) -> Option<Variable> {
        Variable::all().find(|k| self.shape.has(*k) && self.frontier_after(*k) > WIDEST)
    }
}
