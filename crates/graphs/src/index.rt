// Numbers below a bound, which an array of that many can be read at, and runs of them.
ghost use Rattle.std.specs.Prelude.{◌≡◌, ℕ, ◌+◌, ◌-◌, ◌<◌, ◌≤◌, Some, None};

use std::marker::Model;

#[derive(Clone, Copy, PartialEq, Eq)]
pub(crate) struct Below<const N: usize> {
    number: usize,
}

// A contract sees the number alone; the clauses `within`, `variable` and `place` hand its bound on to proofs that rest on it.
impl<const N: usize> Model for Below<N> {
    ghost Value = { ℕ };

    ghost view = { λ b. b.number };

    ghost invariant = { λ b. b.number < N };

    ghost inverse = { λ n. record { number = n } };
}

// One of the twelve variables.
pub(crate) type Variable = Below<12>;

// One of a variable's choices, which are at most five.
pub(crate) type Choice = Below<5>;

impl<const N: usize> Below<N> {
    pub(crate) fn new(number: usize) -> Option<Below<N>>
        ensures { elim result [ None ↦ N ≤ number | Some b ↦ (number < N) × (b ≡ number) ] }
    {
        if number < N {
            Some(Below { number })
        } else {
            None
        }
    }

    pub(crate) fn known(number: usize) -> Below<N>
        requires { number < N }
        ensures { result ≡ number }
    {
        Below { number }
    }

    pub(crate) fn number(self) -> usize
        ensures value { result ≡ self.entry }
        ensures within { result < N }
    {
        self.number
    }

    pub(crate) fn all() -> Run<N>
        ensures next { result.next ≡ 0 }
        ensures end { result.end ≡ N }
    {
        Run { next: 0, end: N }
    }

    // The first ones, as many as this.
    pub(crate) fn first(end: usize) -> Run<N>
        requires { end ≤ N }
        ensures next { result.next ≡ 0 }
        ensures end { result.end ≡ end }
    {
        Run { next: 0, end }
    }

    // Those below this one.
    pub(crate) fn before(self) -> Run<N>
        ensures next { result.next ≡ 0 }
        ensures end { result.end ≡ self.entry }
        ensures within { self.entry < N }
    {
        Run {
            next: 0,
            end: self.number,
        }
    }

    // Those up to this one.
    pub(crate) fn through(self) -> Run<N>
        ensures next { result.next ≡ 0 }
        ensures end { result.end ≡ self.entry + 1 }
        ensures within { self.entry < N }
    {
        Run {
            next: 0,
            end: self.number + 1,
        }
    }

    // Those above this one.
    pub(crate) fn after(self) -> Run<N>
        ensures next { result.next ≡ self.entry + 1 }
        ensures end { result.end ≡ N }
        ensures within { self.entry < N }
    {
        Run {
            next: self.number + 1,
            end: N,
        }
    }
}

// The numbers from `next` on that are below `end`.
#[derive(Drop)]
pub(crate) struct Run<const N: usize> {
    pub(crate) next: usize,
    pub(crate) end: usize,
    ghost within: { end ≤ N },
}

impl<const N: usize> Iterator for Run<N> {
    ghost use Rattle.std.specs.Iterator.{at_most};
    ghost use Rattle.graphs.specs.Runs.{Steps};

    type Item = Below<N>;

    ghost next_gives = { λ s r t. Steps s.next s.end r t.next t.end };

    ghost remaining = { λ s. at_most (s.end - s.next) };

    fn next(&mut self) -> Option<Below<N>> {
        if self.next >= self.end {
            return None;
        }
        let number = self.next;
        self.next += 1;
        Some(Below { number })
    }
}
