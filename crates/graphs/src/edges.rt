// Edges, found once: each matrix is read once, and each variable's edges are a mask.
ghost use Rattle.std.specs.Prelude.{◌≡◌, ◌≢◌};
ghost use Rattle.graphs.specs.Masks.{some_below};
ghost use Rattle.graphs.specs.Stored.{stored, count_at, model_at};
ghost use Rattle.graphs.specs.Edges.{priced_in, linked_in, edge, lower_edges, joined, LowerOf, EdgesOf};

use crate::index::{Choice, Variable};
use crate::masks::{holds, with_member};
use crate::priced::Priced;
use prices::Price;
use std::array;

// The edges of v, by the edges of each variable to those below it. The fold tests by itself, which is quicker than behind a `filter`.
fn joined(lower: &[u16; 12], v: Variable) -> u16
    ensures { result ≡ joined lower.now v }
{
    v.after().fold(lower[v.number()], |mask, u| {
        if holds(lower[u.number()], v) {
            with_member(mask, u)
        } else {
            mask
        }
    })
}

impl<'a, P: Price> Priced<'a, P> {
    // Whether choice i of u with some choice of v has a price.
    fn is_row_linked(&self, u: Variable, v: Variable, i: Choice) -> bool
        requires { u ≢ v }
        ensures { result ≡ some_below (count_at self.now.graph v) (priced_in P.Price (stored P.Price self.now.prices.now) u v i) }
    {
        self.graph
            .choices(v)
            .any(|j| !self.entry(u, v, i, j).at_most(P::zero()))
    }

    fn are_linked(&self, u: Variable, v: Variable) -> bool
        requires { u ≢ v }
        ensures { result ≡ linked_in P.Price (count_at self.now.graph) (stored P.Price self.now.prices.now) u v }
    {
        self.graph.choices(u).any(|i| self.is_row_linked(u, v, i))
    }

    fn is_edge(&self, u: Variable, v: Variable) -> bool
        ensures { result ≡ edge P.Price (model_at P.Price self.now) u v }
    {
        u != v && self.graph.has(u) && self.graph.has(v) && self.are_linked(u, v)
    }

    // The edges of v to variables below it.
    fn lower_edges(&self, v: Variable) -> u16
        ensures { result ≡ lower_edges P.Price (model_at P.Price self.now) v }
    {
        v.before()
            .filter(|u| self.is_edge(v, *u))
            .fold(0, with_member)
    }

    // The same of all twelve variables, for which each matrix is read once.
    fn lower_masks(&self) -> [u16; 12]
        ensures { LowerOf P.Price (model_at P.Price self.now) result }
    {
        array::from_fn(|v| self.lower_edges(Variable::known(v)))
    }

    // The edges of all twelve variables.
    #[tactic(auto, using(crate::proofs::Joining::joined_is))]
    pub(crate) fn edge_masks(&self) -> [u16; 12]
        ensures { EdgesOf P.Price (model_at P.Price self.now) result }
    {
        let lower = self.lower_masks();
        array::from_fn(|v| joined(&lower, Variable::known(v)))
    }
}
