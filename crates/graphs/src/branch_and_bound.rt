// Branch and bound: a base solver that turns nothing away.
ghost use Rattle.std.specs.Prelude.{None};
ghost use Rattle.std.proofs.Common.{rules};

use crate::base::{check_room, fitting};
use crate::fault::Fault;
use crate::graph::Graph;
use crate::places::GRAPH_PRICES;
use crate::priced::Priced;
use crate::solver::Solver;
use prices::Price;

#[derive(Clone, Copy)]
pub struct BranchAndBound;

impl<P: Price> Solver<P> for BranchAndBound {
    ghost need = { λ _. 2010 };

    ghost turns = { λ _ _. None };

    ghost roomy = { Prim.search rules };

    ghost open = { Prim.search rules };

    ghost named = { Prim.search rules };

    fn solve(&mut self, graph: &Graph, memory: &mut [P], picks: &mut [u8; 12]) -> Result<P, Fault> {
        check_room(memory)?;
        let priced = Priced {
            graph: *graph,
            prices: &memory[..GRAPH_PRICES],
        };
        let best = priced.searched(*picks);
        let price = fitting(best.price)?;
        *picks = best.picks;
        Ok(price)
    }
}
