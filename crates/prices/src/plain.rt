// A plain price as a value: one number.
ghost use Rattle.std.specs.Prelude.{◌≡◌, ◌≤◌};

#[derive(Clone, Copy, PartialEq, Eq, PartialOrd, Ord)]
pub struct Plain {
    pub(crate) value: u32,
    ghost fits: { value ≤ 4294967295 },
}

impl Plain {
    pub fn value(self) -> u32
        ensures { result ≡ self.value }
    {
        self.value
    }
}
