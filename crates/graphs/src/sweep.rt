// The sweep: one variable after the other, each with a table over the frontier after it.
ghost use Rattle.std.specs.Prelude.{◌+◌, ◌≤◌, length};
ghost use Rattle.graphs.specs.Kept.{front_at, TableAt, Next, Below, Every, Narrow, Swept};
ghost use Rattle.graphs.specs.Stored.{model_at, pick_of};

use crate::best::Best;
use crate::index::Variable;
use crate::kept::{Place, place_of};
use crate::linked::Linked;
use crate::priced::Priced;
use crate::table::Table;
use prices::Price;

// One turn of the sweep: which variable comes, and the frontier after it.
#[derive(Clone, Copy)]
pub(crate) struct Turn {
    pub variable: Variable,
    pub front: u16,
}

// The two tables are lent apart: a turn reads one and writes the other, so that the types say which of them stands, and the sweep
// changes their sides. What they keep is said of each moment by `TableAt`.
impl<'a, P: Price> Priced<'a, P> {
    // Each choice of the turn's variable beside what the old table keeps at place j.
    fn extend(&self, turn: &Turn, j: Place, old: &Table<P>, new: &mut Table<P>)
        requires next { Next P.Price self.now.graph self.now.prices.now turn.now.variable turn.now.front }
        requires before { TableAt P.Price self.now turn.now.variable old.now Every }
        requires after { TableAt P.Price self.now (turn.now.variable + 1) new.old (Below P.Price self.now.graph self.now.prices.now turn.now.variable j) }
        ensures { TableAt P.Price self.now (turn.now.variable + 1) new.new (Below P.Price self.now.graph self.now.prices.now turn.now.variable (j + 1)) }
    {
        // Of a place that is not used, as most are, the picks are not looked at.
        let lowest = old.price(j);
        if P::top().at_most(lowest) {
            return;
        }
        let chosen = old.chosen(j);
        for i in self.graph.choices(turn.variable) {
            let price = self.beside(turn.variable, i, &chosen).add(lowest);
            let mut picks = chosen;
            picks[turn.variable.number()] = i.number() as u8;
            let place = place_of(turn.front, turn.variable, &picks);
            new.improve(place, Best { price, picks });
        }
    }

    // The table after the turn's variable, from the one before it.
    fn advance(&self, turn: &Turn, old: &Table<P>, new: &mut Table<P>)
        requires next { Next P.Price self.now.graph self.now.prices.now turn.now.variable turn.now.front }
        requires slim { length (front_at P.Price self.now.graph self.now.prices.now turn.now.variable) ≤ 3 }
        requires before { TableAt P.Price self.now turn.now.variable old.now Every }
        ensures { TableAt P.Price self.now (turn.now.variable + 1) new.new Every }
    {
        new.clear();
        for j in Place::all() {
            self.extend(turn, j, old, new);
        }
    }
}

impl<'a, P: Price> Linked<'a, P> {
    // Takes the variables from `from` on. The old table is the one before them. It is no loop: there the two tables would change
    // places, and the borrow checker does not cover that yet.
    pub(crate) fn sweep(&self, from: usize, old: &mut Table<P>, new: &mut Table<P>) -> Best<P>
        requires end { from ≤ 12 }
        requires narrow { Narrow P.Price (model_at P.Price self.now.priced) }
        requires slim { length (front_at P.Price self.now.priced.graph self.now.priced.prices.now from) ≤ 3 }
        requires before { TableAt P.Price self.now.priced from old.old Every }
        ensures { Swept P.Price self.now.priced.graph self.now.priced.prices.now result.price (pick_of result.picks) }
    {
        let Some(v) = Variable::new(from) else {
            return old.kept(Place::known(0));
        };
        if !self.priced.graph.has(v) {
            return self.sweep(from + 1, old, new);
        }
        let turn = Turn {
            variable: v,
            front: self.frontier(v),
        };
        self.priced.advance(&turn, old, new);
        self.sweep(from + 1, new, old)
    }
}
