// A graph with its prices, and the edges that these make.
ghost use Rattle.graphs.specs.Edges.{EdgesOf};
ghost use Rattle.graphs.specs.Stored.{model_at};

use crate::priced::Priced;
use prices::Price;

#[derive(Drop)]
pub(crate) struct Linked<'a, P: Price> {
    pub(crate) priced: Priced<'a, P>,
    pub(crate) edges: [u16; 12],
    ghost joined: { EdgesOf P.Price (model_at P.Price priced) edges },
}

impl<'a, P: Price> Linked<'a, P> {
    ghost use Rattle.std.specs.Prelude.{◌≡◌};

    pub(crate) fn new(priced: Priced<'a, P>) -> Linked<'a, P>
        ensures { result.priced ≡ priced.entry }
    {
        let edges = priced.edge_masks();
        Linked { priced, edges }
    }
}
