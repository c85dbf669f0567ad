// Sets of variables, as masks over the twelve: numbers of 16 bits and no type of their own, since public calls take and give them.
ghost use Rattle.std.specs.Prelude.{◌≡◌, ◌<◌};
ghost use Rattle.graphs.specs.Masks.{has, with_member};

use crate::index::Variable;

pub(crate) fn holds(mask: u16, v: Variable) -> bool
    ensures value { result ≡ has mask v }
    ensures variable { v < 12 }
{
    (mask >> v.number()) & 1 == 1
}

pub(crate) fn with_member(mask: u16, v: Variable) -> u16
    ensures { result ≡ with_member mask v }
{
    mask | 1 << v.number()
}
