// Prices of either kind, drawn so that sums are equal, differ a little, or reach top.
use crate::chance::Chance;
use prices::{Plain, Price, Ranked};

#[derive(Clone, Copy)]
pub(crate) enum Size {
    Zero,
    // Few numbers, so that some totals are equal.
    Small,
    // All entries of a graph together stay below top.
    Large,
    // A few small prices away from top.
    NearTop,
    Top,
}

impl Size {
    // Of 32 sizes `steep` are near top or top.
    pub(crate) fn draw(chance: &mut Chance, steep: u32) -> Size {
        if chance.below(32) < steep {
            match chance.below(2) {
                0 => Size::NearTop,
                _ => Size::Top,
            }
        } else {
            match chance.below(4) {
                0 => Size::Zero,
                1 => Size::Large,
                _ => Size::Small,
            }
        }
    }
}

// `Ord` and its `==` compare answers, and find the lowest, apart from what `Price` says of the order.
pub(crate) trait Sample: Price + Ord {
    // A price of each size that lies between zero and top, chosen among those of its size by the bits.
    fn small(bits: u32) -> Self;

    fn large(bits: u32) -> Self;

    fn near_top(bits: u32) -> Self;
}

// A price of this size, chosen by the bits.
pub(crate) fn draw_price<P: Sample>(size: Size, bits: u32) -> P {
    match size {
        Size::Zero => P::zero(),
        Size::Small => P::small(bits),
        Size::Large => P::large(bits),
        Size::NearTop => P::near_top(bits),
        Size::Top => P::top(),
    }
}

impl Sample for Plain {
    fn small(bits: u32) -> Plain {
        Plain::new(bits & 63)
    }

    fn large(bits: u32) -> Plain {
        Plain::new(bits & 0xff_ffff)
    }

    fn near_top(bits: u32) -> Plain {
        Plain::new(u32::MAX - 1 - (bits & 63))
    }
}

// The two parts of 32 bits.
fn halves(bits: u32) -> (u16, u16) {
    ((bits & 0xffff) as u16, (bits >> 16) as u16)
}

impl Sample for Ranked {
    fn small(bits: u32) -> Ranked {
        let (low, high) = halves(bits);
        Ranked::new(low & 7, high & 7)
    }

    // The second part is so large that a few of them stop at its end below top.
    fn large(bits: u32) -> Ranked {
        let (low, high) = halves(bits);
        Ranked::new(low & 255, high | 0x4000)
    }

    fn near_top(bits: u32) -> Ranked {
        let (low, high) = halves(bits);
        Ranked::new(u16::MAX - 1 - (low & 7), high)
    }
}
