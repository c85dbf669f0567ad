// Where the entries of a graph stand in a cost memory.
ghost use Rattle.std.specs.Prelude.{◌≡◌, ◌<◌, ◌≢◌};
ghost use Rattle.graphs.specs.Places.{vector_at, matrix_at, entry_at, of_vector, of_matrix, place_of, Layout};

use crate::index::{Below, Choice, Variable};

// How many prices a graph takes.
pub const GRAPH_PRICES: usize = 1710;

// How many prices a base solver needs: a graph and 300 to work with.
pub const BASE_NEED: usize = 2010;

// Where an entry of a graph stands.
pub(crate) type Entry = Below<GRAPH_PRICES>;

pub(crate) fn vector_at(v: Variable, i: Choice) -> Entry
    ensures { result ≡ vector_at v i }
{
    Entry::known(5 * v.number() + i.number())
}

fn matrix_at(u: Variable, v: Variable, i: Choice, j: Choice) -> Entry
    requires { u < v }
    ensures { result ≡ matrix_at u v i j }
{
    let (u, v) = (u.number(), v.number());
    Entry::known(60 + 25 * (u * (23 - u) / 2 + v - u - 1) + 5 * i.number() + j.number())
}

// Choice i of u with choice j of v, whichever has the higher number.
// That u and v differ is asked here and up to where they are chosen: a type for the two, or for all four, would be made and
// taken apart at each entry.
pub(crate) fn entry_at(u: Variable, v: Variable, i: Choice, j: Choice) -> Entry
    requires { u ≢ v }
    ensures { result ≡ entry_at u v i j }
{
    if u.number() < v.number() {
        matrix_at(u, v, i, j)
    } else {
        matrix_at(v, u, j, i)
    }
}

// Where choice i of v stands; none where there is no such variable or choice.
#[tactic(auto, using(crate::proofs::Layouts::layout_stands))]
pub fn vector_place(v: usize, i: usize) -> Option<usize>
    ensures place { result ≡ place_of (of_vector v i) }
    ensures layout { Layout }
{
    Some(vector_at(Variable::new(v)?, Choice::new(i)?).number())
}

// Where choice i of u with choice j of v stands; none where there are no two such variables or no such choices.
#[tactic(auto, using(crate::proofs::Layouts::layout_stands))]
pub fn matrix_place(u: usize, v: usize, i: usize, j: usize) -> Option<usize>
    ensures place { result ≡ place_of (of_matrix u v i j) }
    ensures layout { Layout }
{
    let (u, v) = (Variable::new(u)?, Variable::new(v)?);
    let (i, j) = (Choice::new(i)?, Choice::new(j)?);
    if u == v {
        return None;
    }
    Some(entry_at(u, v, i, j).number())
}
