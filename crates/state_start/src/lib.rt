// What a power-on begins with, and a register reset returns to.
// The profile is the first parameter of every table of the paper, also where no row goes by it yet (CONTRIBUTING.md, House rules).
#![tactic(auto)]

ghost use Rattle.std.specs.Prelude.{◌≡◌};
ghost use Rattle.state_start.specs.Values.{start_vreg, start_ichg, start_vsysmin, start_settings, start_registers};
ghost use Rattle.state_start.specs.Values.{start_sample, start_cycle, start_watchdog, start_latches, start_bands, start_state};

use base::choice;
use base::units::{CellMv, PackMv, in_pack};
use state_fields::holding::start_words;
use state_parts::band::{Bands, TsBand};
use state_parts::cycle::Cycle;
use state_parts::latches::Latches;
use state_parts::phase::Phase;
use state_parts::pins;
use state_parts::profile::Profile;
use state_parts::registers::Registers;
use state_parts::sample::Sample;
use state_parts::settings::Settings;
use state_parts::state::State;
use state_parts::watchdog::Watchdog;

// VREG's start value at a cell count.
#[tactic(auto, unfolding(crate::specs::Values::start_vreg))]
pub fn start_vreg(p: Profile, cells: u32) -> PackMv
    ensures { result ≡ start_vreg p cells }
{
    let fault = (p.vchg == 0) | (cells == 0);
    let least = PackMv::from(2400);
    let each = pins::vchg(p);
    let full = in_pack(each, cells);
    choice::either(fault, least, full)
}

// ICHG's start value.
#[tactic(auto, unfolding(crate::specs::Values::start_ichg))]
pub fn start_ichg(p: Profile) -> u32
    ensures { result ≡ start_ichg p }
{
    let fault = p.ichg == 0;
    let current = pins::ichg(p);
    choice::either(fault, 40, current)
}

// VSYSMIN's start value at a cell count.
#[tactic(auto, unfolding(crate::specs::Values::start_vsysmin))]
pub fn start_vsysmin(p: Profile, cells: u32) -> PackMv
    ensures { result ≡ start_vsysmin p cells }
{
    let least = PackMv::from(3000);
    let single = PackMv::from(3500);
    let full = in_pack(CellMv(3100), cells);
    let some = choice::either(cells == 1, single, full);
    choice::either(cells == 0, least, some)
}

// The settings' start values at a cell count.
#[tactic(auto, unfolding(crate::specs::Values::start_settings))]
pub fn start_settings(p: Profile, cells: u32) -> Settings
    ensures { result ≡ start_settings p cells }
{
    let vreg = start_vreg(p, cells);
    let ichg = start_ichg(p);
    let vsysmin = start_vsysmin(p, cells);
    Settings {
        vreg,
        ichg,
        iprechg: 120,
        iterm: 60,
        iindpm: 3300,
        vsysmin,
        lowv: 3,
        vrechg: 3,
        enchg: true,
        enterm: true,
        enhiz: false,
        enextilim: true,
        disstat: false,
        masks: 0,
    }
}

// The registers at power-on.
pub fn start_registers(p: Profile) -> Registers
    ensures { result ≡ start_registers p }
{
    let words = start_words(p);
    Registers {
        words,
        cells: p.cell,
    }
}

// The sample that stands before the first observation.
pub fn start_sample(p: Profile) -> Sample
    ensures { result ≡ start_sample p }
{
    Sample {
        stamp: p.stamp,
        input: 0,
        pack: 0,
        ibat: 0,
        ts: 55000,
        secondts: 55000,
        bits: 0,
    }
}

// A cleared cycle.
pub fn start_cycle() -> Cycle
    ensures { result ≡ start_cycle }
{
    Cycle {
        trickle: 0,
        precharge: 0,
        fast: 0,
        done: false,
    }
}

// A zeroed watchdog.
pub fn start_watchdog() -> Watchdog
    ensures { result ≡ start_watchdog }
{
    Watchdog { count: 0 }
}

// The comparators at power-on.
pub fn start_latches() -> Latches
    ensures { result ≡ start_latches }
{
    Latches {
        inputok: false,
        inputover: false,
        short: true,
        low: true,
        packover: false,
    }
}

// The bands at power-on.
pub fn start_bands() -> Bands
    ensures { result ≡ start_bands }
{
    Bands {
        first: TsBand::Normal,
        second: TsBand::Normal,
    }
}

// What a power-on begins with, before it settles.
#[tactic(auto, unfolding(crate::specs::Values::start_state))]
pub fn start(p: Profile) -> State
    ensures { result ≡ start_state p }
{
    let settings = start_settings(p, p.cell);
    let registers = start_registers(p);
    let latches = start_latches();
    let cycle = start_cycle();
    let watchdog = start_watchdog();
    let sample = start_sample(p);
    let bands = start_bands();
    State {
        profile: p,
        settings,
        registers,
        latches,
        cycle,
        watchdog,
        sample,
        phase: Phase::Idle,
        bands,
        flags: 0,
    }
}
