// Graphs of prices and their solvers.
#![tactic(auto)]

mod asked;
mod base;
mod beside;
mod best;
mod branch_and_bound;
mod edges;
mod elimination;
mod entries;
mod fault;
mod frontier;
mod graph;
mod index;
mod kept;
mod linked;
mod masks;
mod places;
mod present;
mod priced;
mod search;
mod solver;
mod sweep;
mod table;

pub use branch_and_bound::BranchAndBound;
pub use elimination::Elimination;
pub use fault::{Cause, Fault};
pub use graph::Graph;
pub use places::{BASE_NEED, GRAPH_PRICES, matrix_place, vector_place};
pub use solver::Solver;
