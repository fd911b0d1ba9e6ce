// The judged order of phases, and when a charge is done, starts again or is cleared: by the tests alone.
ghost use Rattle.std.specs.Prelude.{◌≡◌};
ghost use Rattle.settle_phases.specs.Order.{is_taper, first_phase, judged_of, restarts_of, clears_of, ends_of, phase_of};

use crate::tests::Tests;
use base::choice;
use state_parts::phase::Phase;

// Whether a phase is taper.
pub fn is_taper(phase: Phase) -> bool
    ensures { result ≡ is_taper phase }
{
    phase == Phase::Taper
}

// The first phase whose test holds.
fn first_phase(
    permitted: bool,
    fault: bool,
    suspended: bool,
    done: bool,
    short: bool,
    low: bool,
    taper: bool,
) -> Phase
    ensures { result ≡ first_phase permitted fault suspended done short low taper }
{
    if !permitted {
        Phase::Idle
    } else if fault {
        Phase::Fault
    } else if suspended {
        Phase::Suspended
    } else if done {
        Phase::Done
    } else if short {
        Phase::Trickle
    } else if low {
        Phase::Precharge
    } else if taper {
        Phase::Taper
    } else {
        Phase::Fast
    }
}

// The phase before the end of a charge is judged.
#[tactic(auto, unfolding(crate::specs::Order::judged_of))]
fn judged(t: Tests) -> Phase
    ensures { result ≡ judged_of t }
{
    first_phase(
        t.permitted,
        t.fault,
        t.suspended,
        t.done & !t.recharge,
        t.short,
        t.low,
        t.taper,
    )
}

// Whether a done charge starts again.
#[tactic(auto, unfolding(crate::specs::Order::restarts_of))]
fn restarts(t: Tests) -> bool
    ensures { result ≡ restarts_of t }
{
    t.permitted & !t.fault & !t.suspended & t.done & t.recharge
}

// Whether the cycle's times and done are cleared.
#[tactic(auto, unfolding(crate::specs::Order::clears_of))]
pub(crate) fn clears(t: Tests) -> bool
    ensures { result ≡ clears_of t }
{
    let permitted = t.permitted;
    let again = restarts(t);
    !permitted | again
}

// Whether the charge is done from here on.
#[tactic(auto, unfolding(crate::specs::Order::ends_of))]
pub(crate) fn ends(t: Tests) -> bool
    ensures { result ≡ ends_of t }
{
    let ready = t.observed & t.tapered & t.ending;
    let phase = judged(t);
    let tapers = is_taper(phase);
    tapers & ready
}

// The phase that settling comes to.
#[tactic(auto, unfolding(crate::specs::Order::phase_of))]
pub fn phase(t: Tests) -> Phase
    ensures { result ≡ phase_of t }
{
    let done = ends(t);
    let other = judged(t);
    choice::either(done, Phase::Done, other)
}
