// A ranked price as a value: two numbers, of which the first comes first.
ghost use Rattle.std.specs.Prelude.{◌≡◌, ◌+◌, ◌*◌, ◌≤◌};

#[derive(Clone, Copy, PartialEq, Eq, PartialOrd, Ord)]
pub struct Ranked {
    pub(crate) first: u16,
    pub(crate) second: u16,
    // A first part of 65,535 goes with a second part of 0 alone, said as one bound on a sum.
    ghost fits: { (second ≤ 65535) × (65535 * first + second ≤ 65535 * 65535) },
}

impl Ranked {
    pub fn first(self) -> u16
        ensures { result ≡ self.first }
    {
        self.first
    }

    pub fn second(self) -> u16
        ensures { result ≡ self.second }
    {
        self.second
    }
}
