// The kinds of events that time has no part in: what each writes, or its refusal.
ghost use Rattle.std.specs.Prelude.{◌≡◌};
ghost use Rattle.state_parts.specs.With.{with_settings, with_watchdog};
ghost use Rattle.state_start.specs.Values.{start_watchdog};
ghost use Rattle.state_runs.specs.Runs.{with_kept};
ghost use Rattle.base.specs.Pick.{pick};
ghost use Rattle.log_raw.specs.Struct.{raw_of};
ghost use Rattle.state_registers.specs.Resets.{reset_of};
ghost use Rattle.step_kinds.specs.Plain.{serviced_of, acted_of};
ghost use Rattle.step_kinds.specs.PublicPromises.{OpenedPromise, SetPromise, WritePromise, RunPromise, ReadFlagsPromise};

use crate::change::Way;
use base::refusal::Refusal;
use log_raw::RawBytes;
use report_registers::flags;
use state_parts::profile::Profile;
use state_parts::registers::Registers;
use state_parts::settings::Settings;
use state_parts::state::State;
use state_parts::watchdog::Watchdog;
use state_registers::{resetting, writing};
use state_runs::registers::Kept;
use state_runs::run;
use state_settings::{numbered, ranges};

// A power-on, whatever the model holds.
pub fn opened(p: Profile) -> (State, Way)
    ensures { OpenedPromise p result }
{
    (state_start::start(p), Way::Powers)
}

// The state with these settings.
fn with_settings(s: State, t: Settings) -> State
    ensures { result ≡ with_settings s t }
{
    State { settings: t, ..s }
}

#[tactic(auto, unfolding(crate::specs::Plain::set_of))]
pub fn set(s: State, number: u32, value: u32) -> Result<(State, Way), Refusal>
    ensures { SetPromise s number value result }
{
    let profile = s.profile;
    if !ranges::known(profile, number) {
        return Err(Refusal::UnknownSetting);
    }
    if !ranges::may_hold(profile, number, value) {
        return Err(Refusal::BadValue);
    }
    let held = s.settings;
    let stored = numbered::store(held, number, value);
    Ok((with_settings(s, stored), Way::Plain))
}

#[tactic(auto, unfolding(crate::specs::Plain::written_of))]
pub fn write(s: State, address: u32, byte: u32) -> Result<(State, Way), Refusal>
    ensures { WritePromise s address byte result }
{
    let written = writing::write(s, address, byte)?;
    Ok((written, Way::Plain))
}

// The state with the watchdog at zero.
pub fn serviced(s: State) -> State
    ensures { result ≡ serviced_of s }
{
    State {
        watchdog: state_start::start_watchdog(),
        ..s
    }
}

// The watchdog at zero, if that is asked for.
fn served_if(asked: bool, w: Watchdog) -> Watchdog
    ensures { result ≡ pick asked start_watchdog w }
{
    if asked {
        state_start::start_watchdog()
    } else {
        w
    }
}

// The state with what a run leaves, and with the watchdog served if that is asked for.
fn kept_in(s: State, k: Kept, serves: bool) -> State
    ensures { result ≡ with_watchdog (with_kept s k) (pick serves start_watchdog s.watchdog) }
{
    let Kept {
        settings,
        words,
        cells,
    } = k;
    State {
        settings,
        registers: Registers { words, cells },
        watchdog: served_if(serves, s.watchdog),
        ..s
    }
}

// The same where a run resets the registers: the settings start anew, and the watchdog is at zero either way.
#[tactic(auto, unfolding(state_registers::specs::Resets::reset_of))]
fn kept_reset(s: State, k: Kept) -> State
    ensures { result ≡ reset_of (with_kept s k) }
{
    let Kept { words, cells, .. } = k;
    resetting::reset_with(s, Registers { words, cells })
}

// What the reset and service bits of a run do, after its other bytes.
fn acted(s: State, k: Kept, address: u32, raw: RawBytes) -> State
    ensures { result ≡ acted_of (with_kept s k) address (raw_of raw) }
{
    let serves = run::serves(address, raw);
    if run::resets(address, raw) {
        kept_reset(s, k)
    } else {
        kept_in(s, k, serves)
    }
}

// A run of bytes from an address on.
#[tactic(auto, unfolding(crate::specs::Plain::run_from))]
pub fn write_run(s: State, address: u32, raw: RawBytes) -> Result<(State, Way), Refusal>
    ensures { RunPromise s address raw result }
{
    let k = run::run(s, address, raw)?;
    Ok((acted(s, k, address, raw), Way::Plain))
}

// A read of a flag register.
#[tactic(auto, unfolding(crate::specs::Plain::read_flags_of))]
pub fn read_flags(s: State, address: u32) -> Result<(State, Way), Refusal>
    ensures { ReadFlagsPromise s address result }
{
    let profile = s.profile;
    if !flags::flag_register(profile, address) {
        return Err(Refusal::UnknownAddress);
    }
    Ok((s, Way::Reads(address)))
}
