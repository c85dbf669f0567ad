// The plain kind: an access costs three times its weight, a move its weight, and a sum stops at top.
ghost use Rattle.std.specs.Prelude.{◌≡◌, Some};
ghost use Rattle.prices.specs.PlainKind.{plain, plain_zero, plain_top, plain_sum, plain_at_most, plain_access, plain_move, plain_words};
ghost use Rattle.prices.specs.PlainLaws.{plain_laws};

use crate::plain::Plain;
use crate::price::Price;
use std::fmt;

impl Plain {
    // The price of this number; the highest number is top.
    pub fn new(value: u32) -> Plain
        ensures { result ≡ plain value }
    {
        Plain { value }
    }
}

impl Price for Plain {
    ghost least = { plain_zero };

    ghost greatest = { plain_top };

    ghost sum = { plain_sum };

    ghost at_most = { plain_at_most };

    ghost access_of = { plain_access };

    ghost move_of = { plain_move };

    ghost laws = { plain_laws };

    fn zero() -> Plain {
        Plain::new(0)
    }

    fn top() -> Plain {
        Plain::new(u32::MAX)
    }

    fn add(self, other: Plain) -> Plain {
        Plain::new(self.value.saturating_add(other.value))
    }

    fn at_most(self, other: Plain) -> bool {
        self <= other
    }

    fn access_price(weight: u8) -> Plain {
        Plain::new(3 * u32::from(weight))
    }

    fn move_price(weight: u8) -> Plain {
        Plain::new(u32::from(weight))
    }
}

impl fmt::Display for Plain {
    ghost output = { λ p. Some (plain_words p) };

    fn fmt<W: fmt::Write>(&self, f: &mut fmt::Formatter<W>) -> fmt::Result {
        if self.value == u32::MAX {
            write!(f, "top")
        } else {
            write!(f, "{}", self.value)
        }
    }
}
