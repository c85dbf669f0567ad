// The price of one more choice beside those taken. That picks are choices (`Taken`) is a fact of a moment, which no type carries.
ghost use Rattle.std.specs.Prelude.{◌≡◌};
ghost use Rattle.graphs.specs.Masks.{members_below};
ghost use Rattle.graphs.specs.Model.{beside, total};
ghost use Rattle.graphs.specs.Stored.{model_at, pick_of};
ghost use Rattle.graphs.specs.Taken.{HasChoice, Taken};

use crate::index::{Choice, Variable};
use crate::priced::Priced;
use prices::Price;

impl<'a, P: Price> Priced<'a, P> {
    // Choice i of v with the choices taken by the present variables below v.
    pub(crate) fn beside(&self, v: Variable, i: Choice, taken: &[u8; 12]) -> P
        requires { HasChoice self.now.graph v i × Taken self.now.graph v taken.now }
        ensures { result ≡ beside P.Price (model_at P.Price self.now).entries v (members_below self.now.graph.present v) i (pick_of taken.now) }
    {
        let mut price = self.vector(v, i);
        for u in v.before() {
            if self.graph.has(u) {
                let j = Choice::known(usize::from(taken[u.number()]));
                price = self.entry(v, u, i, j).add(price);
            }
        }
        price
    }

    // Each present variable beside those below it.
    pub(crate) fn summed(&self, picks: &[u8; 12]) -> P
        requires { Taken self.now.graph 12 picks.now }
        ensures { result ≡ total P.Price (model_at P.Price self.now) (pick_of picks.now) }
    {
        let mut price = P::zero();
        for v in Variable::all() {
            if self.graph.has(v) {
                let i = Choice::known(usize::from(picks[v.number()]));
                price = self.beside(v, i, picks).add(price);
            }
        }
        price
    }
}
