// What a price kind is: its members, and the laws that everything above is proved from.
ghost use Rattle.std.specs.Prelude.{◌≡◌, ℕ, Bool};
ghost use Rattle.prices.specs.Laws.{Laws};

pub trait Price: Copy {
    // The price of nothing.
    ghost least: { Self };

    // Top: the price of what is not allowed.
    ghost greatest: { Self };

    ghost sum: { Self → Self → Self };

    // Whether the first is at most the second.
    ghost at_most: { Self → Self → Bool };

    // One access to memory on a line of this weight.
    ghost access_of: { ℕ → Self };

    // One move between registers or pairs on a line of this weight.
    ghost move_of: { ℕ → Self };

    ghost laws: { Laws least greatest sum at_most };

    fn zero() -> Self
        ensures { result ≡ least };

    fn top() -> Self
        ensures { result ≡ greatest };

    fn add(self, other: Self) -> Self
        ensures { result ≡ sum self other };

    // Not by `Ord` as a supertrait, which would ask more of whoever writes a price kind.
    fn at_most(self, other: Self) -> bool
        ensures { result ≡ at_most self other };

    fn access_price(weight: u8) -> Self
        ensures { result ≡ access_of weight };

    fn move_price(weight: u8) -> Self
        ensures { result ≡ move_of weight };
}
