// What both base solvers refuse.
ghost use Rattle.std.specs.Prelude.{◌≡◌, ◌<◌, ◌≤◌, Ok, Err, length};
ghost use Rattle.graphs.specs.declared.fault.Cause.TheVariants.{Short};
ghost use Rattle.graphs.specs.Outcome.{fitted, refused};

use crate::fault::{Cause, Fault};
use crate::places::BASE_NEED;
use prices::Price;

pub(crate) fn check_room<P>(memory: &[P]) -> Result<(), Fault>
    ensures { elim result [ Ok u ↦ 2010 ≤ length memory.now | Err f ↦ (length memory.now < 2010) × (f ≡ refused Short) ] }
{
    if memory.len() < BASE_NEED {
        return Err(Fault {
            cause: Cause::Short,
        });
    }
    Ok(())
}

// The lowest total, unless it is top.
pub(crate) fn fitting<P: Price>(lowest: P) -> Result<P, Fault>
    ensures { result ≡ fitted P.Price lowest }
{
    if P::top().at_most(lowest) {
        return Err(Fault {
            cause: Cause::NothingFits,
        });
    }
    Ok(lowest)
}
