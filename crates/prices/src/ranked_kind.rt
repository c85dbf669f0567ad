// The ranked kind: accesses count first and moves second, and both stop together at top.
ghost use Rattle.std.specs.Prelude.{◌≡◌, Some};
ghost use Rattle.prices.specs.RankedKind.{ranked, ranked_zero, ranked_top, ranked_sum, ranked_at_most, ranked_access, ranked_move, ranked_words};
ghost use Rattle.prices.specs.RankedLaws.{ranked_laws};

use crate::price::Price;
use crate::ranked::Ranked;
use std::fmt;

impl Ranked {
    // The price of these two numbers; with a first part of 65,535 it is top, whatever the second.
    pub fn new(first: u16, second: u16) -> Ranked
        ensures { result ≡ ranked first second }
    {
        if first == u16::MAX {
            Ranked { first, second: 0 }
        } else {
            Ranked { first, second }
        }
    }
}

impl Price for Ranked {
    ghost least = { ranked_zero };

    ghost greatest = { ranked_top };

    ghost sum = { ranked_sum };

    ghost at_most = { ranked_at_most };

    ghost access_of = { ranked_access };

    ghost move_of = { ranked_move };

    ghost laws = { ranked_laws };

    fn zero() -> Ranked {
        Ranked::new(0, 0)
    }

    fn top() -> Ranked {
        Ranked::new(u16::MAX, 0)
    }

    fn add(self, other: Ranked) -> Ranked {
        let first = self.first.saturating_add(other.first);
        let second = self.second.saturating_add(other.second);
        Ranked::new(first, second)
    }

    fn at_most(self, other: Ranked) -> bool {
        self <= other
    }

    fn access_price(weight: u8) -> Ranked {
        Ranked::new(u16::from(weight), 0)
    }

    fn move_price(weight: u8) -> Ranked {
        Ranked::new(0, u16::from(weight))
    }
}

impl fmt::Display for Ranked {
    ghost output = { λ p. Some (ranked_words p) };

    fn fmt<W: fmt::Write>(&self, f: &mut fmt::Formatter<W>) -> fmt::Result {
        if self.first == u16::MAX {
            write!(f, "top")
        } else {
            write!(f, "({}, {})", self.first, self.second)
        }
    }
}
