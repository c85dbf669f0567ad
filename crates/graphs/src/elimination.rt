// Elimination: a base solver that turns a graph away where a frontier has more than 3 variables.
ghost use Rattle.std.specs.Prelude.{◌≡◌, ℕ, ◌≤◌, if◌then◌else◌, length, nat_lt, slice_index};
ghost use Rattle.graphs.specs.Masks.{has};
ghost use Rattle.graphs.specs.Frontier.{widest, at_depth_zero};
ghost use Rattle.graphs.specs.Kept.{Narrow, Swept};
ghost use Rattle.graphs.specs.Stored.{model_at, pick_of};
ghost use Rattle.graphs.specs.Eliminated.{SweptUnlessTurned, open_none, named_within};
ghost use Rattle.std.proofs.Common.{rules};

use crate::base::{check_room, fitting};
use crate::best::Best;
use crate::fault::{Cause, Fault};
use crate::graph::Graph;
use crate::index::Variable;
use crate::linked::Linked;
use crate::places::GRAPH_PRICES;
use crate::priced::Priced;
use crate::solver::Solver;
use crate::table::{PLACES, Table};
use prices::Price;

impl<'a, P: Price> Linked<'a, P> {
    // The sweep from its first table, in which nothing is set yet, at the price zero.
    fn swept(&self, first: &mut [P], second: &mut [P]) -> Best<P>
        requires first { length first.old ≡ 125 }
        requires second { length second.old ≡ 125 }
        requires narrow { Narrow P.Price (model_at P.Price self.now.priced) }
        ensures { Swept P.Price self.now.priced.graph self.now.priced.prices.now result.price (pick_of result.picks) }
    {
        let mut old = Table::new(first);
        let mut new = Table::new(second);
        old.start();
        self.sweep(0, &mut old, &mut new)
    }

    // The lowest price of all assignments, with one that has it, unless a frontier is too wide.
    fn eliminated(&self, free: &mut [P]) -> Result<Best<P>, Fault>
        requires { 300 ≤ length free.old }
        ensures { SweptUnlessTurned P.Price self.now.priced.graph self.now.priced.prices.now result }
    {
        if let Some(v) = self.too_wide() {
            let variable = v.number() as u8;
            return Err(Fault {
                cause: Cause::TurnedAway { variable, depth: 0 },
            });
        }
        let (first, rest) = free.split_at_mut(PLACES);
        let (second, _) = rest.split_at_mut(PLACES);
        Ok(self.swept(first, second))
    }
}

// Takes over the choices of the present variables.
fn assign(graph: &Graph, picks: &mut [u8; 12], chosen: &[u8; 12])
    ensures { (y : ℕ) → slice_index picks.new y ≡ (if nat_lt y 12 then (if has graph.now.present y then slice_index chosen.now y else slice_index picks.old y) else slice_index picks.old y) }
{
    for v in Variable::all() {
        if graph.has(v) {
            picks[v.number()] = chosen[v.number()];
        }
    }
}

#[derive(Clone, Copy)]
pub struct Elimination;

impl<P: Price> Solver<P> for Elimination {
    ghost need = { λ _. 2010 };

    ghost turns = { λ _ g. at_depth_zero (widest P.Price g) };

    ghost roomy = { Prim.search rules };

    ghost open = { λ s m e. open_none P.Price m e };

    ghost named = { λ s m v d e. named_within P.Price m v d e };

    fn solve(&mut self, graph: &Graph, memory: &mut [P], picks: &mut [u8; 12]) -> Result<P, Fault> {
        check_room(memory)?;
        let (prices, free) = memory.split_at_mut(GRAPH_PRICES);
        let linked = Linked::new(Priced {
            graph: *graph,
            prices,
        });
        let best = linked.eliminated(free)?;
        let price = fitting(best.price)?;
        assign(graph, picks, &best.picks);
        Ok(price)
    }
}
