// What a thermistor's band becomes: the second edition of the pack's sheet holds one until TS is well back.
// What a rule goes by are its parameters, as in its definition: with the whole state in their place each law of the rule would speak of whole states.
ghost use Rattle.std.specs.Prelude.{◌≡◌};
ghost use Rattle.settle_bands.specs.Holding.{by_held, back_by, ended_by, at_once, stays_by, next_by, bands_of};

use crate::thresholds;
use crate::thresholds::Marks;
use base::choice;
use state_parts::band::{Bands, TsBand};
use state_parts::profile::Profile;
use state_parts::registers::Registers;
use state_parts::sample::Sample;

// How far back past its threshold TS ends a band that is held.
const BACK: u64 = 1000;

// What is so of a band that is held.
fn by_held(held: TsBand, cold: bool, hot: bool, cool: bool, warm: bool) -> bool
    ensures { result ≡ by_held held cold hot cool warm }
{
    match held {
        TsBand::Normal => true,
        TsBand::Cold => cold,
        TsBand::Cool => cool,
        TsBand::Warm => warm,
        TsBand::Hot => hot,
    }
}

// Whether TS is back past the threshold that let a band in.
fn is_back(m: Marks, held: TsBand, ts: u32) -> bool
    ensures { result ≡ back_by m held ts }
{
    let at = ts as u64;
    let cold = at + BACK <= (m.th1 as u64);
    let hot = (m.th5 as u64) + BACK <= at;
    let cool = at + BACK <= (m.th2 as u64);
    let warm = (m.th3 as u64) + BACK <= at;
    by_held(held, cold, hot, cool, warm)
}

// Whether the registers end the holding of a band.
fn is_ended(m: Marks, held: TsBand) -> bool
    ensures { result ≡ ended_by m held }
{
    let off = m.off;
    let ended = !m.jeita;
    off | by_held(held, false, false, ended, ended)
}

// Whether a band is entered at once, whatever is held.
fn at_once(fresh: TsBand) -> bool
    ensures { result ≡ at_once fresh }
{
    matches!(fresh, TsBand::Cold | TsBand::Hot)
}

// One thermistor's next band.
#[tactic(auto, unfolding(crate::specs::Holding::next_by, crate::specs::Holding::stays_by))]
fn next(holds: bool, m: Marks, held: TsBand, ts: u32) -> TsBand
    ensures { result ≡ next_by holds m held ts }
{
    let fresh = thresholds::band_at(m, ts);
    if holds {
        let once = at_once(fresh);
        let ended = is_ended(m, held);
        let back = is_back(m, held, ts);
        choice::either(!once & !ended & !back, held, fresh)
    } else {
        fresh
    }
}

// The next band of each thermistor.
#[tactic(auto, unfolding(crate::specs::Holding::bands_of, crate::specs::Holding::next_of))]
pub fn bands(profile: Profile, registers: Registers, sample: Sample, held: Bands) -> Bands
    ensures { result ≡ bands_of profile registers sample held }
{
    // a number and no enum: the profile holds what any list of numbers gave it (`MadeAgain`)
    let holds = profile.edition == 2;
    let ts = sample.ts;
    let other = sample.secondts;
    let was = held.first;
    let beside = held.second;
    let m = thresholds::marks_in(profile, registers);
    let first = next(holds, m, was, ts);
    let second = next(holds, m, beside, other);
    Bands { first, second }
}
