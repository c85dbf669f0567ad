// What a table keeps: for each assignment of a frontier the lowest price, with choices that have it.
ghost use Rattle.std.specs.Prelude.{◌≡◌, ℕ, ◌+◌, ◌<◌, ◌≤◌, cond, length, slice_set};
ghost use Rattle.graphs.specs.Masks.{members_below};
ghost use Rattle.graphs.specs.Kept.{number_of, prices_in, picks_in, Five};
ghost use Rattle.graphs.specs.Stored.{pick_of};

use crate::best::Best;
use crate::index::{Below, Variable};
use crate::masks::holds;
use crate::table::{PLACES, Table};
use prices::Price;

pub(crate) type Place = Below<PLACES>;

// The place of the choices that the frontier's variables, all up to v, have in the picks.
pub(crate) fn place_of(front: u16, v: Variable, picks: &[u8; 12]) -> Place
    requires { (length (members_below front (v + 1)) ≤ 3) × Five front (v + 1) picks.now }
    ensures value { result ≡ number_of (members_below front (v + 1)) (pick_of picks.now) }
    ensures within { result < 125 }
{
    let mut place = 0;
    for u in v.through() {
        if holds(front, u) {
            place = usize::from(picks[u.number()]) + 5 * place;
        }
    }
    Place::known(place)
}

// Twelve picks out of a table: of an array within an array no length is known.
fn copied(picks: &[u8; 12]) -> [u8; 12]
    ensures same { result ≡ picks.now }
    ensures twelve { length result ≡ 12 }
{
    *picks
}

impl<'t, P: Price> Table<'t, P> {
    pub(crate) fn new(prices: &'t mut [P]) -> Table<'t, P>
        requires { length prices.old ≡ 125 }
        ensures { result.prices.ghost_name ≡ prices.entry.ghost_name }
    {
        Table {
            prices,
            picks: [[0; 12]; PLACES],
        }
    }

    // The price that is kept at a place; top where it is not used.
    pub(crate) fn price(&self, place: Place) -> P
        ensures { result ≡ prices_in P.Price self.now.prices.now place }
    {
        self.prices[place.number()]
    }

    // The picks that are kept at a place, if it is used.
    pub(crate) fn chosen(&self, place: Place) -> [u8; 12]
        ensures picks { pick_of result ≡ picks_in self.now.picks place }
        ensures twelve { length result ≡ 12 }
        ensures place { place < 125 }
    {
        copied(&self.picks[place.number()])
    }

    // Both.
    pub(crate) fn kept(&self, place: Place) -> Best<P>
        ensures price { result.price ≡ prices_in P.Price self.now.prices.now place }
        ensures picks { pick_of result.picks ≡ picks_in self.now.picks place }
        ensures twelve { length result.picks ≡ 12 }
        ensures place { place < 125 }
    {
        Best {
            price: self.price(place),
            picks: self.chosen(place),
        }
    }

    // No place is used.
    pub(crate) fn clear(&mut self)
        ensures { (c : ℕ) → prices_in P.Price self.new.prices.now c ≡ P.Price.greatest }
    {
        let top = P::top();
        self.prices.fill_with(|| top);
    }

    // Nothing is set yet, at the price zero.
    pub(crate) fn start(&mut self)
        ensures zero { prices_in P.Price self.new.prices.now 0 ≡ P.Price.least }
        ensures others { (c : ℕ) → 0 < c → prices_in P.Price self.new.prices.now c ≡ P.Price.greatest }
    {
        self.clear();
        self.prices[0] = P::zero();
    }

    // Keeps another price with its picks at a place if it is lower than what is kept there.
    pub(crate) fn improve(&mut self, place: Place, other: Best<P>)
        ensures prices { self.new.prices.now ≡ cond (P.Price.at_most (prices_in P.Price self.old.prices.now place) other.price) self.old.prices.now (slice_set self.old.prices.now place other.price) }
        ensures picks { self.new.picks ≡ cond (P.Price.at_most (prices_in P.Price self.old.prices.now place) other.price) self.old.picks (slice_set self.old.picks place other.picks) }
    {
        let at = place.number();
        if !self.prices[at].at_most(other.price) {
            self.prices[at] = other.price;
            self.picks[at] = other.picks;
        }
    }
}
