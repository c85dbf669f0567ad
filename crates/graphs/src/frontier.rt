// Frontiers: the variables up to one that have an edge to one above it.
ghost use Rattle.std.specs.Prelude.{◌≡◌};
ghost use Rattle.graphs.specs.Frontier.{reaches_above, frontier, too_wide, widest};
ghost use Rattle.graphs.specs.Stored.{model_at};

use crate::index::Variable;
use crate::linked::Linked;
use crate::masks::{holds, with_member};
use prices::Price;

fn reaches_above(mask: u16, v: Variable) -> bool
    ensures { result ≡ reaches_above mask v }
{
    v.after().any(|z| holds(mask, z))
}

impl<'a, P: Price> Linked<'a, P> {
    // The frontier after v.
    pub(crate) fn frontier(&self, v: Variable) -> u16
        ensures { result ≡ frontier P.Price (model_at P.Price self.now.priced) v }
    {
        v.through()
            .filter(|u| reaches_above(self.edges[u.number()], v))
            .fold(0, with_member)
    }

    // Whether v is present and the frontier after it has more than 3 variables.
    fn is_too_wide(&self, v: Variable) -> bool
        ensures { result ≡ too_wide P.Price (model_at P.Price self.now.priced) v }
    {
        self.priced.graph.has(v) && self.frontier(v).count_ones() > 3
    }

    // The lowest present variable after which the frontier is too wide.
    pub(crate) fn too_wide(&self) -> Option<Variable>
        ensures { result ≡ widest P.Price (model_at P.Price self.now.priced) }
    {
        Variable::all().find(|v| self.is_too_wide(*v))
    }
}
