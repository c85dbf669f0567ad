// What a graph is made from: any present set and any counts, few enough together for a plain search.
ghost use Rattle.std.specs.Prelude.{◌≤◌};

use crate::chance::Chance;
use crate::variable::Variable;
use graphs::Graph;
use std::array;

// How many assignments a graph may have, so that all can be tried.
const MOST_ASSIGNMENTS: u32 = 2000;

// Drawn once for each graph. What is drawn by it takes the source of chance beside it, which other draws take alone.
#[derive(Clone, Copy, PartialEq, Eq)]
pub(crate) enum Family {
    // Any counts and any edges.
    Any,
    // Full counts and all edges between near variables: the largest tables that elimination has to keep.
    Widest,
}

impl Family {
    pub(crate) fn draw(chance: &mut Chance) -> Family {
        match chance.below(4) {
            0 => Family::Widest,
            _ => Family::Any,
        }
    }
}

// Without variables, to begin with.
#[derive(Clone, Copy, Default)]
pub(crate) struct Shape {
    // A mask, as `Graph::new` takes it, so that bits of no variable are tried too.
    present: u16,
    counts: [u8; 12],
}

// Each variable with the same chance, from none of them to all; now and then with bits that name no variable.
fn draw_present(chance: &mut Chance) -> u16 {
    let likely = chance.below(13);
    let mut present = 0u16;
    for v in Variable::all() {
        if chance.below(12) < likely {
            present |= v.bit();
        }
    }
    if chance.below(4) == 0 {
        present |= (chance.below(16) as u16) << 12;
    }
    present
}

// Which counts are drawn, but for a few.
#[derive(Clone, Copy)]
struct CountRange {
    least: u32,
    most: u32,
    ghost ordered: { least ≤ most },
    ghost few: { most ≤ 6 },
}

impl CountRange {
    // A count of 0 is one below what a graph has, and one of 6 is one above it.
    fn draw(chance: &mut Chance, family: Family) -> CountRange {
        match family {
            Family::Any => CountRange {
                least: 0,
                most: 1 + chance.below(6),
            },
            Family::Widest => CountRange { least: 5, most: 6 },
        }
    }

    // Now and then any byte.
    fn draw_count(&self, chance: &mut Chance) -> u8 {
        if chance.below(16) == 0 {
            chance.byte()
        } else {
            (self.least + chance.below(self.most - self.least + 1)) as u8
        }
    }
}

fn draw_counts(chance: &mut Chance, family: Family) -> [u8; 12] {
    let range = CountRange::draw(chance, family);
    array::from_fn(|_| range.draw_count(chance))
}

impl Shape {
    pub(crate) fn draw(chance: &mut Chance, family: Family) -> Shape {
        let mut shape = Shape {
            present: draw_present(chance),
            counts: draw_counts(chance, family),
        };
        shape.limit(Variable::draw(chance), chance.below(2) as u8);
        shape
    }

    pub(crate) fn graph(&self) -> Graph {
        Graph::new(self.present, self.counts)
    }

    pub(crate) fn has(&self, v: Variable) -> bool {
        v.is_in(self.present)
    }

    // How many choices v has in the graph; none where it is absent.
    pub(crate) fn choices(&self, v: Variable) -> u8
        ensures { result ≤ 5 }
    {
        if self.has(v) {
            self.counts[v.index()].clamp(1, 5)
        } else {
            0
        }
    }

    // Leaves single choices, by this count, once the limit is reached: from `start` on, so that no variable is always the last.
    fn limit(&mut self, start: Variable, single: u8) {
        let mut assignments = 1u32;
        for v in start.onward().chain(start.below()) {
            let more = assignments.saturating_mul(u32::from(self.choices(v).max(1)));
            if more <= MOST_ASSIGNMENTS {
                assignments = more;
            } else {
                self.counts[v.index()] = single;
            }
        }
    }
}
