// One settling of the whole state.
ghost use Rattle.std.specs.Prelude.{◌≡◌};
ghost use Rattle.settle_all.specs.Settle.{stored_of, forced_of, settled_of, settle_of};

use crate::gather;
use settle_bands::{holding, joined};
use settle_levels::{clamps, comparators};
use settle_phases::tests::Tests;
use settle_phases::{cycles, order};
use state_parts::band::Bands;
use state_parts::latches::Latches;
use state_parts::settings::Settings;
use state_parts::state::State;

// EN_CHG as a pin fault leaves it.
fn stored(fault: bool, settings: Settings) -> Settings
    ensures { result ≡ stored_of fault settings }
{
    Settings {
        enchg: settings.enchg & !fault,
        ..settings
    }
}

// The state with that EN_CHG.
#[tactic(auto, unfolding(crate::specs::Settle::forced_of))]
fn forced(state: State) -> State
    ensures { result ≡ forced_of state }
{
    let fault = clamps::pin_fault(state.profile, state.registers);
    let settings = stored(fault, state.settings);
    State { settings, ..state }
}

// The state by what was found.
#[tactic(auto, unfolding(crate::specs::Settle::settled_of))]
fn settled(state: State, latches: Latches, bands: Bands, t: Tests) -> State
    ensures { result ≡ settled_of state latches bands t }
{
    let cycle = cycles::after(t, state.cycle);
    let phase = order::phase(t);
    State {
        latches,
        cycle,
        phase,
        bands,
        ..state
    }
}

// Settles on the held sample; `observed` says that an observation asks for it.
#[tactic(auto, unfolding(crate::specs::Settle::settle_of))]
pub fn settle(state: State, observed: bool) -> State
    ensures { result ≡ settle_of state observed }
{
    let start = forced(state);
    let State {
        profile,
        settings,
        registers,
        sample,
        latches: was,
        bands: held,
        ..
    } = start;
    let latches = comparators::latches(profile, settings, registers, sample, was);
    let bands = holding::bands(profile, registers, sample, held);
    let band = joined::pack_band(bands);
    let t = gather::gather(start, latches, band, observed);
    settled(start, latches, bands, t)
}
