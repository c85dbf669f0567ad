// Branch and bound over the present variables in ascending order.
ghost use Rattle.std.specs.Prelude.{◌≡◌, ◌≤◌};
ghost use Rattle.graphs.specs.Masks.{members_from, members_below};
ghost use Rattle.graphs.specs.Search.{search, searched};
ghost use Rattle.graphs.specs.Holding.{found_in};
ghost use Rattle.graphs.specs.Stored.{model_at, pick_of};
ghost use Rattle.graphs.specs.Taken.{Taken};

use crate::best::Best;
use crate::index::Variable;
use crate::priced::Priced;
use prices::Price;

impl<'a, P: Price> Priced<'a, P> {
    // The best of all assignments; the picks of absent variables stay.
    pub(crate) fn searched(&self, picks: [u8; 12]) -> Best<P>
        ensures { found_in result ≡ searched P.Price (model_at P.Price self.now) (pick_of picks) }
    {
        let mut best = Best {
            price: P::top(),
            picks,
        };
        self.descend(0, picks, P::zero(), &mut best);
        best
    }

    // Sets the present variables from `from` on beside those taken at this price, each choice in turn. It goes down a tree, and the
    // number says how far: with an iterator handed down, each choice would need it anew.
    fn descend(&self, from: usize, taken: [u8; 12], price: P, best: &mut Best<P>)
        requires { (from ≤ 12) × Taken self.now.graph from taken }
        ensures { found_in best.new ≡ search P.Price (model_at P.Price self.now) (members_from self.now.graph.present from) (members_below self.now.graph.present from) (pick_of taken) price (found_in best.old) }
    {
        let Some(v) = Variable::new(from) else {
            *best = Best {
                price,
                picks: taken,
            };
            return;
        };
        if !self.graph.has(v) {
            self.descend(from + 1, taken, price, best);
            return;
        }
        for i in self.graph.choices(v) {
            let next = self.beside(v, i, &taken).add(price);
            if !best.price.at_most(next) {
                let mut set = taken;
                set[from] = i.number() as u8;
                self.descend(from + 1, set, next, best);
            }
        }
    }
}
