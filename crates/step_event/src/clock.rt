// One observation before it settles: the time goes to the stage held, the watchdog counts it, and the new sample stands.
ghost use Rattle.std.specs.Prelude.{◌≡◌, ◌≤◌, true};
ghost use Rattle.base.specs.Stamps.{elapsed_of};
ghost use Rattle.state_valid.specs.Holds.{profile_ok, stage_ok, cycle_ok};
ghost use Rattle.step_event.specs.Clock.{units_of, added_of, times_of, counted_of, cleared_if, observed_of};

use crate::valid::Valid;
use base::{choice, stamp};
use settle_permission::bits;
use state_fields::holding::without_overrides;
use state_parts::cycle::Cycle;
use state_parts::phase;
use state_parts::phase::Phase;
use state_parts::profile::Profile;
use state_parts::registers::Registers;
use state_parts::sample::Sample;
use state_parts::state::State;
use state_parts::watchdog::Watchdog;
use step_flags::expiry;

// Units of so many ms: one for each while the sample shows any regulation, else two.
#[tactic(auto, unfolding(crate::specs::Clock::units_of))]
fn units(old: Sample, ms: u32) -> u32
    requires { ms ≤ 3600000 }
    ensures { result ≡ units_of old ms }
{
    let slow = bits::regulated(old);
    choice::either(slow, ms, ms * 2)
}

// A stage's time with the units that went to it.
fn added(held: bool, limit: u32, time: u32, units: u32) -> u32
    requires { (stage_ok limit held time ≡ true) × (limit ≤ 172800) × (units ≤ 7200000) }
    ensures { result ≡ added_of held limit time units }
{
    let counts = held & (limit != 0);
    choice::either(counts, time + units, time)
}

// The stages' times with the units that went to the one held.
fn times(p: Profile, held: Phase, units: u32, c: Cycle) -> Cycle
    requires { (profile_ok p ≡ true) × (cycle_ok c p held ≡ true) × (units ≤ 7200000) }
    ensures { result ≡ times_of p held units c }
{
    let done = c.done;
    let trickle = added(phase::in_trickle(held), p.trickle, c.trickle, units);
    let precharge = added(phase::in_precharge(held), p.precharge, c.precharge, units);
    let fast = added(phase::in_fast(held), p.fast, c.fast, units);
    Cycle {
        trickle,
        precharge,
        fast,
        done,
    }
}

// The watchdog with so many ms more, at most its period's.
fn counted(p: Profile, w: Watchdog, ms: u32) -> Watchdog
    requires { profile_ok p ≡ true }
    ensures { result ≡ counted_of p w ms }
{
    let period = (p.watchdog as u64) * 1000;
    let sum = (w.count as u64) + (ms as u64);
    if sum < period {
        Watchdog { count: sum as u32 }
    } else {
        Watchdog {
            count: period as u32,
        }
    }
}

// The registers, with the overrides cleared where the watchdog expires.
#[tactic(auto, unfolding(crate::specs::Clock::cleared_if))]
fn cleared(expires: bool, g: Registers) -> Registers
    ensures { result ≡ cleared_if expires g }
{
    if expires {
        Registers {
            words: without_overrides(g.words),
            ..g
        }
    } else {
        g
    }
}

// The state as an observation finds it, before it settles.
pub(crate) fn observed(valid: Valid, x: Sample) -> State
    requires { elapsed_of valid.state.sample.stamp x.stamp ≤ 3600000 }
    ensures { result ≡ observed_of valid.state x }
{
    let s = valid.state;
    let p = s.profile;
    let old = s.sample;
    let ms = stamp::elapsed(old.stamp, x.stamp);
    let n = units(old, ms);
    let cycle = times(p, s.phase, n, s.cycle);
    let watchdog = counted(p, s.watchdog, ms);
    let expires = expiry::expires(p, s.watchdog, watchdog);
    let registers = cleared(expires, s.registers);
    State {
        cycle,
        registers,
        watchdog,
        sample: x,
        ..s
    }
}
