// Reading the entries of a graph.
ghost use Rattle.std.specs.Prelude.{◌≡◌, ◌≢◌};
ghost use Rattle.graphs.specs.Model.{cost};
ghost use Rattle.graphs.specs.Stored.{stored};

use crate::index::{Choice, Variable};
use crate::places::{entry_at, vector_at};
use crate::priced::Priced;
use prices::Price;

impl<'a, P: Price> Priced<'a, P> {
    pub(crate) fn vector(&self, v: Variable, i: Choice) -> P
        ensures { result ≡ (stored P.Price self.now.prices.now).vector v i }
    {
        self.prices[vector_at(v, i).number()]
    }

    // Choice i of u with choice j of v, whichever has the higher number.
    pub(crate) fn entry(&self, u: Variable, v: Variable, i: Choice, j: Choice) -> P
        requires { u ≢ v }
        ensures { result ≡ cost (stored P.Price self.now.prices.now) u v i j }
    {
        self.prices[entry_at(u, v, i, j).number()]
    }
}
