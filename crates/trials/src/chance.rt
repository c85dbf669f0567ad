// A small random source that gives the same numbers in every run.
ghost use Rattle.std.specs.Prelude.{◌<◌};

#[derive(Drop)]
pub(crate) struct Chance {
    state: u64,
}

impl Chance {
    // A seed of 0 would give zeros for ever, so its lowest bit is set.
    pub(crate) fn new(seed: u64) -> Chance {
        Chance { state: seed | 1 }
    }

    // One step of a xorshift; the upper half is the better one.
    pub(crate) fn bits(&mut self) -> u32 {
        let mut x = self.state;
        x ^= x << 13;
        x ^= x >> 7;
        x ^= x << 17;
        self.state = x;
        ((x >> 32) & 0xffff_ffff) as u32
    }

    pub(crate) fn below(&mut self, limit: u32) -> u32
        requires { 0 < limit }
        ensures { result < limit }
    {
        self.bits() % limit
    }

    pub(crate) fn byte(&mut self) -> u8 {
        (self.bits() & 0xff) as u8
    }
}
