// A state out of a list of numbers: every list makes one.
ghost use Rattle.std.specs.Prelude.{◌+◌, ◌*◌, ◌≡◌};
ghost use Rattle.c_list.specs.Places.{profile_place, settings_place, registers_place, latches_place, cycle_place, sample_place, bands_place};
ghost use Rattle.c_list.specs.Back.{profile_from, settings_from, registers_from, latches_from, cycle_from, sample_from, phase_from, band_from, bands_from, state_from};

use crate::list::Numbers;
use crate::places::{BANDS, CYCLE, FLAGS, LATCHES, PHASE, REGISTERS, SAMPLE, SETTINGS, WATCHDOG};
use base::units::PackMv;
use log_number::ibat;
use state_parts::band::{Bands, TsBand};
use state_parts::cycle::Cycle;
use state_parts::latches::Latches;
use state_parts::phase::Phase;
use state_parts::profile::Profile;
use state_parts::registers::Registers;
use state_parts::sample::Sample;
use state_parts::settings::Settings;
use state_parts::state::State;
use state_parts::watchdog::Watchdog;
use state_parts::words::Words;

fn profile(all: Numbers) -> Profile
    ensures { result ≡ profile_from all profile_place }
{
    Profile {
        cell: all[0],
        vchg: all[1],
        ichg: all[2],
        ohms: all[3],
        stamp: all[4],
        ceiling: all[5],
        trickle: all[6],
        precharge: all[7],
        fast: all[8],
        watchdog: all[9],
        edition: all[10],
    }
}

fn settings(all: Numbers) -> Settings
    ensures { result ≡ settings_from all settings_place }
{
    Settings {
        vreg: PackMv::from(all[SETTINGS]),
        ichg: all[SETTINGS + 1],
        iprechg: all[SETTINGS + 2],
        iterm: all[SETTINGS + 3],
        iindpm: all[SETTINGS + 4],
        vsysmin: PackMv::from(all[SETTINGS + 5]),
        lowv: all[SETTINGS + 6],
        vrechg: all[SETTINGS + 7],
        enchg: all[SETTINGS + 8] == 1,
        enterm: all[SETTINGS + 9] == 1,
        enhiz: all[SETTINGS + 10] == 1,
        enextilim: all[SETTINGS + 11] == 1,
        disstat: all[SETTINGS + 12] == 1,
        masks: all[SETTINGS + 13],
    }
}

// A word of its two halves.
fn whole(low: u32, high: u32) -> u64
    ensures { result ≡ low + high * 0x100000000 }
{
    u64::from(low) + u64::from(high) * 0x100000000
}

fn registers(all: Numbers) -> Registers
    ensures { result ≡ registers_from all registers_place }
{
    let words = Words {
        w0: whole(all[REGISTERS], all[REGISTERS + 1]),
        w1: whole(all[REGISTERS + 2], all[REGISTERS + 3]),
        w2: whole(all[REGISTERS + 4], all[REGISTERS + 5]),
        w3: whole(all[REGISTERS + 6], all[REGISTERS + 7]),
        w4: whole(all[REGISTERS + 8], all[REGISTERS + 9]),
    };
    Registers {
        words,
        cells: all[REGISTERS + 10],
    }
}

fn latches(all: Numbers) -> Latches
    ensures { result ≡ latches_from all latches_place }
{
    Latches {
        inputok: all[LATCHES] == 1,
        inputover: all[LATCHES + 1] == 1,
        short: all[LATCHES + 2] == 1,
        low: all[LATCHES + 3] == 1,
        packover: all[LATCHES + 4] == 1,
    }
}

fn cycle(all: Numbers) -> Cycle
    ensures { result ≡ cycle_from all cycle_place }
{
    Cycle {
        trickle: all[CYCLE],
        precharge: all[CYCLE + 1],
        fast: all[CYCLE + 2],
        done: all[CYCLE + 3] == 1,
    }
}

fn sample(all: Numbers) -> Sample
    ensures { result ≡ sample_from all sample_place }
{
    Sample {
        stamp: all[SAMPLE],
        input: all[SAMPLE + 1],
        pack: all[SAMPLE + 2],
        ibat: ibat::signed(all[SAMPLE + 3]),
        ts: all[SAMPLE + 4],
        secondts: all[SAMPLE + 5],
        bits: all[SAMPLE + 6],
    }
}

// The phase of a number. No `From` or `TryFrom`: here each number makes a phase, also one that no phase has, and it is the image's comparison that refuses those (`MadeAgain`).
fn phase(n: u32) -> Phase
    ensures { result ≡ phase_from n }
{
    match n {
        0 => Phase::Idle,
        1 => Phase::Trickle,
        2 => Phase::Precharge,
        3 => Phase::Fast,
        4 => Phase::Taper,
        5 => Phase::Done,
        6 => Phase::Suspended,
        _ => Phase::Fault,
    }
}

// The band of a number, likewise.
fn band(n: u32) -> TsBand
    ensures { result ≡ band_from n }
{
    match n {
        0 => TsBand::Normal,
        1 => TsBand::Cold,
        2 => TsBand::Hot,
        3 => TsBand::Cool,
        _ => TsBand::Warm,
    }
}

fn bands(all: Numbers) -> Bands
    ensures { result ≡ bands_from all bands_place }
{
    Bands {
        first: band(all[BANDS]),
        second: band(all[BANDS + 1]),
    }
}

// The state that numbers make.
#[tactic(auto, unfolding(crate::specs::Back::state_from))]
pub fn made(all: Numbers) -> State
    ensures { result ≡ state_from all }
{
    State {
        profile: profile(all),
        settings: settings(all),
        registers: registers(all),
        latches: latches(all),
        cycle: cycle(all),
        watchdog: Watchdog {
            count: all[WATCHDOG],
        },
        sample: sample(all),
        phase: phase(all[PHASE]),
        bands: bands(all),
        flags: all[FLAGS] % 4096,
    }
}
