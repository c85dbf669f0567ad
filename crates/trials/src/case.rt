// A random graph with its prices, and random bytes for the picks.
use crate::chance::Chance;
use crate::sample::{Sample, Size, draw_price};
use crate::shape::{Family, Shape};
use crate::variable::Variable;
use graphs::{matrix_place, vector_place};
use std::array;

// What every solver needs: the prices of a graph and 300 more.
pub(crate) const NEED: usize = 2010;

#[derive(Clone, Copy)]
pub(crate) struct Case<P> {
    pub(crate) shape: Shape,
    pub(crate) prices: [P; NEED],
    pub(crate) picks: [u8; 12],
}

// Which pairs of variables have prices.
#[derive(Clone, Copy)]
struct Web {
    // How many of 8 matrices are kept.
    density: u32,
    // How far apart the two variables may be.
    reach: u32,
}

impl Web {
    fn draw(chance: &mut Chance, family: Family) -> Web {
        match family {
            Family::Any => Web {
                density: chance.below(9),
                reach: 1 + chance.below(11),
            },
            // After a variable at most three up to it then have an edge to one above it.
            Family::Widest => Web {
                density: 8,
                reach: 3,
            },
        }
    }

    fn keeps(&self, chance: &mut Chance, distance: u32) -> bool {
        chance.below(8) < self.density && distance <= self.reach
    }
}

fn draw_picks(chance: &mut Chance) -> [u8; 12] {
    array::from_fn(|_| chance.byte())
}

// How many of 32 prices are near top or top.
fn draw_steepness(chance: &mut Chance) -> u32 {
    match chance.below(4) {
        0 => 0,
        1 => 1,
        2 => 4,
        _ => 16,
    }
}

fn draw_prices<P: Sample>(chance: &mut Chance) -> [P; NEED] {
    let steep = draw_steepness(chance);
    array::from_fn(|_| draw_price(Size::draw(chance, steep), chance.bits()))
}

impl<P: Sample> Case<P> {
    // No variables and no prices, to be drawn.
    // Made in `main` for each kind, and drawn anew: only of a case that is handed in is it known, for any kind, that it fits the
    // address space, as one has to that is lent.
    pub(crate) fn new() -> Case<P> {
        Case {
            shape: Shape::default(),
            prices: [P::zero(); NEED],
            picks: [0; 12],
        }
    }

    // Another graph. Places that it does not have are filled like the others.
    pub(crate) fn redraw(&mut self, chance: &mut Chance) {
        let family = Family::draw(chance);
        self.shape = Shape::draw(chance, family);
        self.prices = draw_prices(chance);
        self.picks = draw_picks(chance);
        let web = Web::draw(chance, family);
        for v in Variable::all() {
            self.thin(chance, &web, v);
            if family == Family::Widest {
                self.favour_last(v);
            }
        }
    }

    // Takes the price of v's last choice away, so that the last places of the tables matter too.
    fn favour_last(&mut self, v: Variable) {
        let last = self.shape.choices(v).saturating_sub(1);
        self.clear_place(choice_place(v, last));
    }

    // Takes the prices away between v and the variables below it that the web does not keep.
    fn thin(&mut self, chance: &mut Chance, web: &Web, v: Variable) {
        for u in v.below() {
            if !web.keeps(chance, v.distance(u)) {
                self.clear(u, v);
            }
        }
    }

    // Only what the graph has is cleared: beyond the counts nothing may count as an edge. A choice is a number here, so that this
    // loop and that of a row go over numbers.
    fn clear(&mut self, u: Variable, v: Variable) {
        for i in 0..self.shape.choices(u) {
            self.clear_row(u, v, i);
        }
    }

    fn clear_row(&mut self, u: Variable, v: Variable, i: u8) {
        for j in 0..self.shape.choices(v) {
            self.clear_place(pair_place(u, v, i, j));
        }
    }

    fn clear_place(&mut self, place: Option<usize>) {
        if let Some(at) = place
            && let Some(price) = self.prices.get_mut(at)
        {
            *price = P::zero();
        }
    }

    // A place that is not there has the price of top, so that it shows.
    fn price(&self, place: Option<usize>) -> P {
        place
            .and_then(|at| self.prices.get(at))
            .copied()
            .unwrap_or(P::top())
    }

    pub(crate) fn choice_price(&self, v: Variable, i: u8) -> P {
        self.price(choice_place(v, i))
    }

    pub(crate) fn pair_price(&self, u: Variable, v: Variable, i: u8, j: u8) -> P {
        self.price(pair_place(u, v, i, j))
    }
}

fn choice_place(v: Variable, i: u8) -> Option<usize> {
    vector_place(v.index(), usize::from(i))
}

// Two variables and their choices, as the library takes them: a type for the four would be taken apart here again.
fn pair_place(u: Variable, v: Variable, i: u8, j: u8) -> Option<usize> {
    matrix_place(u.index(), v.index(), usize::from(i), usize::from(j))
}
