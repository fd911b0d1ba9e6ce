// What flags are edges of, as it stands in one state; and the edges between two states.
ghost use Rattle.std.specs.Prelude.{◌≡◌};
ghost use Rattle.step_flags.specs.Edges.{seen_of, edges_of};

use crate::expiry;
use settle_bands::joined;
use settle_levels::comparators;
use settle_permission::{bits, limits};
use state_parts::flags::Edges;
use state_parts::state::State;

// The phase and the band by their numbers, and no enums: `between` is promised of every two numbers (`edges_of`).
#[derive(Clone, Copy)]
pub struct Seen {
    pub good: bool,
    pub iindpm: bool,
    pub vindpm: bool,
    pub thermal: bool,
    pub expired: bool,
    pub phase: u32,
    pub band: u32,
    pub inputover: bool,
    pub shutdown: bool,
    pub packover: bool,
    pub limit: bool,
}

// What is seen of a state. Always inlined: called, it takes a copy of the state on the stack of every step (small stack), and a quarter more instructions.
#[inline(always)]
#[tactic(auto, unfolding(crate::specs::Edges::seen_of))]
pub fn seen_in(s: State) -> Seen
    ensures { result ≡ seen_of s }
{
    let profile = s.profile;
    let sample = s.sample;
    let latches = s.latches;
    let held = s.bands;
    let good = comparators::input_good(latches);
    let iindpm = bits::iindpm(sample);
    let vindpm = bits::vindpm(sample);
    let thermal = bits::thermal(sample);
    let shutdown = bits::shutdown(sample);
    let expired = expiry::expired(profile, s.watchdog);
    let limit = limits::any_reached(profile, s.cycle);
    let phase = u32::from(s.phase);
    let band = u32::from(joined::pack_band(held));
    Seen {
        good,
        iindpm,
        vindpm,
        thermal,
        expired,
        phase,
        band,
        inputover: latches.inputover,
        shutdown,
        packover: latches.packover,
        limit,
    }
}

// One flag for each of the twelve edges.
#[tactic(auto, unfolding(crate::specs::Edges::edges_of))]
pub fn between(was: Seen, is: Seen) -> Edges
    ensures { result ≡ edges_of was is }
{
    Edges {
        good: !was.good & is.good,
        lost: !is.good & was.good,
        iindpm: !was.iindpm & is.iindpm,
        vindpm: !was.vindpm & is.vindpm,
        thermal: !was.thermal & is.thermal,
        expired: !was.expired & is.expired,
        phase: was.phase != is.phase,
        band: was.band != is.band,
        inputover: !was.inputover & is.inputover,
        shutdown: !was.shutdown & is.shutdown,
        packover: !was.packover & is.packover,
        limit: !was.limit & is.limit,
    }
}
