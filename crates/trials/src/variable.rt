// The twelve variables that a graph may have, one by one or in order; the library's own stay apart, since it is tried.
ghost use Rattle.std.specs.Prelude.{◌≡◌, ℕ, ◌-◌, ◌<◌, ◌≤◌};
ghost use Rattle.std.specs.Iterator.{at_most};

use crate::chance::Chance;
use std::marker::Model;

#[derive(Clone, Copy, PartialEq, Eq)]
pub(crate) struct Variable {
    number: u8,
}

impl Model for Variable {
    ghost Value = { ℕ };

    ghost view = { λ v. v.number };

    ghost invariant = { λ v. v.number < 12 };

    ghost inverse = { λ n. record { number = n } };
}

impl Variable {
    pub(crate) fn draw(chance: &mut Chance) -> Variable {
        Variable {
            number: chance.below(12) as u8,
        }
    }

    pub(crate) fn number(self) -> u8
        ensures { result ≡ self }
    {
        self.number
    }

    // Where it stands in a list of twelve.
    pub(crate) fn index(self) -> usize
        ensures value { result ≡ self }
        ensures within { result < 12 }
    {
        usize::from(self.number)
    }

    // A set of variables is a mask with the bits of its members.
    pub(crate) fn bit(self) -> u16 {
        1 << self.number
    }

    pub(crate) fn is_in(self, mask: u16) -> bool {
        mask & self.bit() != 0
    }

    pub(crate) fn distance(self, other: Variable) -> u32 {
        u32::from(self.number.abs_diff(other.number))
    }

    pub(crate) fn all() -> Variables {
        Variables { next: 0, end: 12 }
    }

    pub(crate) fn below(self) -> Variables {
        Variables {
            next: 0,
            end: self.number,
        }
    }

    // Those below it and itself.
    pub(crate) fn up_to(self) -> Variables {
        Variables {
            next: 0,
            end: self.number + 1,
        }
    }

    // Itself and those above it.
    pub(crate) fn onward(self) -> Variables {
        Variables {
            next: self.number,
            end: 12,
        }
    }

    pub(crate) fn above(self) -> Variables {
        Variables {
            next: self.number + 1,
            end: 12,
        }
    }
}

// The variables from `next` on that are below `end`, the lowest first.
#[derive(Drop)]
pub(crate) struct Variables {
    next: u8,
    end: u8,
    ghost within: { end ≤ 12 },
}

impl Iterator for Variables {
    type Item = Variable;

    ghost remaining = { λ s. at_most (s.end - s.next) };

    fn next(&mut self) -> Option<Variable> {
        if self.next >= self.end {
            return None;
        }
        let number = self.next;
        self.next += 1;
        Some(Variable { number })
    }
}
