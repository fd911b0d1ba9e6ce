// What settling makes of the charge cycle.
ghost use Rattle.std.specs.Prelude.{◌≡◌};
ghost use Rattle.settle_phases.specs.Cycles.{cycle_of};

use crate::order;
use crate::tests::Tests;
use base::choice;
use state_parts::cycle::Cycle;

// The cycle after a settling.
#[tactic(auto, unfolding(crate::specs::Cycles::cycle_of))]
pub fn after(t: Tests, was: Cycle) -> Cycle
    ensures { result ≡ cycle_of t was }
{
    let clears = order::clears(t);
    let ends = order::ends(t);
    let trickle = choice::either(clears, 0, was.trickle);
    let precharge = choice::either(clears, 0, was.precharge);
    let fast = choice::either(clears, 0, was.fast);
    Cycle {
        trickle,
        precharge,
        fast,
        done: ends | (!clears & was.done),
    }
}
