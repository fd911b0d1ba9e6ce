// The stages' time limits.
ghost use Rattle.std.specs.Prelude.{◌≡◌};
ghost use Rattle.settle_permission.specs.Limits.{limit_reached, reached_of};

use state_parts::cycle;
use state_parts::cycle::Cycle;
use state_parts::profile::Profile;

// A limit in seconds, against a time in half milliseconds.
fn limit_reached(limit: u32, units: u32) -> bool
    ensures { result ≡ limit_reached limit units }
{
    let top = cycle::limit_units(limit);
    (limit != 0) & (top <= units as u64)
}

// Whether any stage has reached its limit.
#[tactic(auto, unfolding(crate::specs::Limits::reached_of))]
pub fn any_reached(profile: Profile, cycle: Cycle) -> bool
    ensures { result ≡ reached_of profile cycle }
{
    let trickle = limit_reached(profile.trickle, cycle.trickle);
    let precharge = limit_reached(profile.precharge, cycle.precharge);
    let fast = limit_reached(profile.fast, cycle.fast);
    trickle | precharge | fast
}
