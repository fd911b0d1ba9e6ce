// The report: phase, charge current, charge voltage and input limit.
// What a rule goes by are its parameters, as in its definition: with the whole state in their place each law of the rule would speak of whole states.
ghost use Rattle.std.specs.Prelude.{◌≡◌, min};
ghost use Rattle.report_state.specs.Report.{charge_clamp_of, fast_current, trickle_current, current_in, input_limit_of};
ghost use Rattle.report_state.specs.PublicPromises.{ReportPromise};

use crate::answer::Report;
use base::choice;
use base::units::PackMv;
use settle_bands::{effect, joined};
use settle_levels::voltage;
use state_fields::named;
use state_parts::band::Band;
use state_parts::phase::Phase;
use state_parts::profile::Profile;
use state_parts::registers::Registers;
use state_parts::settings::Settings;
use state_parts::state::State;
use state_parts::{phase, pins};

// What the charge current is at most, in mA.
#[tactic(auto, unfolding(crate::specs::Report::charge_clamp_of))]
fn charge_clamp(profile: Profile, registers: Registers) -> u32
    ensures { result ≡ charge_clamp_of profile registers }
{
    let lifted = named::ichg_override(registers);
    let pin = pins::ichg(profile);
    choice::either(lifted, 3300, pin)
}

// The current of phases 3 and 4: all that ICHG reaches.
#[tactic(auto, unfolding(crate::specs::Report::fast_current))]
fn fast_current(profile: Profile, settings: Settings, registers: Registers, band: Band) -> u32
    ensures { result ≡ fast_current profile settings registers band }
{
    let ichg = settings.ichg;
    let clamp = charge_clamp(profile, registers);
    let share = effect::share(profile, registers, band);
    let whole = ichg.min(clamp);
    ((whole as u64) * (share as u64) / 100) as u32
}

// The current of trickle, in mA.
fn trickle_current(profile: Profile) -> u32
    ensures { result ≡ trickle_current profile }
{
    100
}

fn current_in(phase: Phase, trickle: u32, precharge: u32, fast: u32) -> u32
    ensures { result ≡ current_in phase trickle precharge fast }
{
    match phase {
        Phase::Trickle => trickle,
        Phase::Precharge => precharge,
        Phase::Fast | Phase::Taper => fast,
        Phase::Idle | Phase::Done | Phase::Suspended | Phase::Fault => 0,
    }
}

#[tactic(auto, unfolding(crate::specs::Report::input_limit_of))]
fn input_limit(profile: Profile, settings: Settings) -> u32
    ensures { result ≡ input_limit_of profile settings }
{
    let iindpm = settings.iindpm;
    let ohms = profile.ohms;
    if !settings.enextilim {
        return iindpm;
    }
    if ohms < 1 {
        return iindpm;
    }
    iindpm.min(3333000 / ohms)
}

// What the model reports.
#[tactic(auto, unfolding(crate::specs::Report::report_of))]
pub fn report(state: State) -> Report
    ensures { ReportPromise state result }
{
    let profile = state.profile;
    let settings = state.settings;
    let registers = state.registers;
    let phase = state.phase;
    let held = state.bands;
    let precharge = settings.iprechg;
    let band = joined::pack_band(held);
    let fast = fast_current(profile, settings, registers, band);
    let trickle = trickle_current(profile);
    let current = current_in(phase, trickle, precharge, fast);
    let charge = voltage::charge_voltage(profile, settings, registers, band);
    let charges = phase::charging(phase);
    let none = PackMv::from(0);
    let voltage = choice::either(charges, charge, none);
    let limit = input_limit(profile, settings);
    Report {
        phase,
        current,
        voltage,
        limit,
    }
}
