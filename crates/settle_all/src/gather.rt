// The tests of a state.
// What a rule goes by are its parameters, as in its definition: with the whole state in their place each law of the rule would speak of whole states.
ghost use Rattle.std.specs.Prelude.{◌≡◌};
ghost use Rattle.settle_all.specs.Gather.{bad_of, tests_of};

use settle_bands::effect;
use settle_levels::voltage;
use settle_permission::{bits, ending, limits, permission};
use settle_phases::order;
use settle_phases::tests::Tests;
use state_parts::band::Band;
use state_parts::cycle::Cycle;
use state_parts::latches::Latches;
use state_parts::profile::Profile;
use state_parts::sample::Sample;
use state_parts::state::State;

// What phase 7 stands for.
fn is_bad(profile: Profile, sample: Sample, latches: Latches, cycle: Cycle) -> bool
    ensures { result ≡ bad_of profile sample latches cycle }
{
    let over = latches.packover;
    let shutdown = bits::shutdown(sample);
    let reached = limits::any_reached(profile, cycle);
    shutdown | over | reached
}

// Each test by its own function.
#[tactic(auto, unfolding(crate::specs::Gather::tests_of))]
pub(crate) fn gather(state: State, latches: Latches, band: Band, observed: bool) -> Tests
    ensures { result ≡ tests_of state latches band observed }
{
    let State {
        profile,
        settings,
        registers,
        sample,
        cycle,
        phase,
        ..
    } = state;
    let permitted = permission::permitted(profile, settings, registers, sample, latches);
    let fault = is_bad(profile, sample, latches, cycle);
    let suspended = effect::suspends(profile, registers, band);
    let charge = voltage::charge_voltage(profile, settings, registers, band);
    let recharge = voltage::below_recharge(profile, settings, charge, sample);
    let taper = voltage::tapers(charge, sample);
    let tapered = order::is_taper(phase);
    let ending = ending::may_end(settings, sample);
    Tests {
        permitted,
        fault,
        suspended,
        done: cycle.done,
        recharge,
        short: latches.short,
        low: latches.low,
        taper,
        observed,
        tapered,
        ending,
    }
}
