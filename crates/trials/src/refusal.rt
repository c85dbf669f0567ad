// What a refused solver has to tell, by this program's own figures: the solvers' are what is tried.
use crate::variable::Variable;
use refusals::Told;

pub(crate) const SHORT: Told = Told {
    number: 10,
    place: 0,
    depth: 0,
};

pub(crate) const NOTHING_FITS: Told = Told {
    number: 12,
    place: 255,
    depth: 0,
};

pub(crate) fn turned_away(variable: Variable) -> Told {
    Told {
        number: 11,
        place: variable.number(),
        depth: 0,
    }
}
