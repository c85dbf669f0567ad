// Which variables a graph has, and which choices each of them has.
ghost use Rattle.std.specs.Prelude.{◌≡◌, ◌<◌, ◌≤◌};
ghost use Rattle.graphs.specs.Masks.{has};
ghost use Rattle.graphs.specs.Stored.{count_at};

use crate::graph::Graph;
use crate::index::{Choice, Run, Variable};
use crate::masks::holds;

impl Graph {
    pub(crate) fn has(&self, v: Variable) -> bool
        ensures value { result ≡ has self.now.present v }
        ensures variable { v < 12 }
    {
        holds(self.present, v)
    }

    pub(crate) fn count(&self, v: Variable) -> usize
        ensures value { result ≡ count_at self.now v }
        ensures some { 0 < result }
        ensures few { result ≤ 5 }
    {
        usize::from(self.counts[v.number()])
    }

    pub(crate) fn choices(&self, v: Variable) -> Run<5>
        ensures next { result.next ≡ 0 }
        ensures end { result.end ≡ count_at self.now v }
    {
        Choice::first(self.count(v))
    }
}
