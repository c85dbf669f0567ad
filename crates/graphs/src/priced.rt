// A graph together with the prices of its entries.
ghost use Rattle.std.specs.Prelude.{◌≡◌, ◌<◌, ◌≤◌, length, take, Some, None};

use crate::graph::Graph;
use crate::places::GRAPH_PRICES;

#[derive(Drop)]
pub(crate) struct Priced<'a, P> {
    pub(crate) graph: Graph,
    pub(crate) prices: &'a [P],
    ghost whole: { 1710 ≤ length prices.now },
}

impl<'a, P> Priced<'a, P> {
    // None where the memory has no room for a graph.
    pub(crate) fn new(graph: &Graph, memory: &'a [P]) -> Option<Priced<'a, P>>
        ensures { elim result [ None ↦ length memory.now < 1710 | Some s ↦ (1710 ≤ length memory.now) × (s.graph ≡ graph.now) × (s.prices.now ≡ take 1710 memory.now) ] }
    {
        let prices = memory.get(..GRAPH_PRICES)?;
        Some(Priced {
            graph: *graph,
            prices,
        })
    }
}
