// What a solver means: its need, what it turns away, and what a solve answers and leaves.
ghost use Rattle.std.specs.Prelude.{◌≡◌, ℕ, ◌≤◌, [], length, take, Some, None, Option};
ghost use Rattle.graphs.specs.Model.{Model};
ghost use Rattle.graphs.specs.Stored.{model_of};
ghost use Rattle.graphs.specs.Outcome.{outcome, Picked, Nothing};

use crate::fault::Fault;
use crate::graph::Graph;
use prices::Price;

pub trait Solver<P: Price> {
    // How many prices the cost memory has to have.
    ghost need: { Self → ℕ };

    // Whether a graph is turned away, with a variable and a depth.
    ghost turns: { Self → Model P → Option (ℕ × ℕ) };

    // The lowest total of the graph, with an assignment that has it in the picks of present variables.
    // Only the choice among several such assignments is open.
    fn solve(&mut self, graph: &Graph, memory: &mut [P], picks: &mut [u8; 12]) -> Result<P, Fault>
        ensures answer { result ≡ outcome P.Price (need self.old) (turns self.old (model_of P.Price graph.now memory.old)) (model_of P.Price graph.now memory.old) (length memory.old) }
        ensures stands { take 1710 memory.new ≡ take 1710 memory.old }
        ensures picked { Picked P.Price (model_of P.Price graph.now memory.old) result picks.old picks.new }
        ensures nothing { Nothing P.Price (model_of P.Price graph.now memory.old) result }
        ensures needs { need self.new ≡ need self.old }
        ensures turning { turns self.new ≡ turns self.old };

    // A memory that suffices has room for a graph.
    ghost roomy: { (s : Self) → 1710 ≤ need s };

    // The empty graph is never turned away.
    ghost open: { (s : Self) (g : Model P) → g.variables ≡ [] → turns s g ≡ None };

    // What is named is one of the twelve variables, and a depth that a byte holds.
    ghost named: { (s : Self) (g : Model P) (v d : ℕ) → turns s g ≡ Some (v, d) → (v ≤ 11) × (d ≤ 255) };
}
