// The comparators, each with the point at which it turns on and the point up or down to which it then stays.
// What a rule goes by are its parameters, as in its definition: with the whole state in their place each law of the rule would speak of whole states.
// The profile is the first parameter of every table of the paper, also where no row goes by it yet (CONTRIBUTING.md, House rules).
ghost use Rattle.std.specs.Prelude.{◌≡◌};
ghost use Rattle.settle_levels.specs.Comparators.{held, good_of, input_ok_of, input_over_of, short_returns, short_ends, short_of, low_returns, low_ends, low_of, pack_over_of, latches_of};

use crate::clamps;
use base::units::{CellMv, PackMv};
use base::{choice, entry, units};
use state_parts::latches::Latches;
use state_parts::profile::Profile;
use state_parts::registers::Registers;
use state_parts::sample::Sample;
use state_parts::settings::Settings;

// On if it begins, or if it was on and nothing ends it.
fn hold(begins: bool, stays: bool, was: bool) -> bool
    ensures { result ≡ held begins stays was }
{
    begins | (was & stays)
}

// Each comparator and each point has a function, as it has a definition; what they share is `hold` and `choice::either`.
fn input_ok(profile: Profile, sample: Sample, was: bool) -> bool
    ensures { result ≡ input_ok_of profile sample was }
{
    hold(2900 <= sample.input, 2350 <= sample.input, was)
}

fn input_over(profile: Profile, sample: Sample, was: bool) -> bool
    ensures { result ≡ input_over_of profile sample was }
{
    hold(36300 <= sample.input, 34500 <= sample.input, was)
}

fn short_returns(profile: Profile, registers: Registers) -> CellMv
    ensures { result ≡ short_returns profile registers }
{
    choice::either(registers.cells <= 2, CellMv(1850), CellMv(2000))
}

fn short_ends(profile: Profile, registers: Registers) -> CellMv
    ensures { result ≡ short_ends profile registers }
{
    choice::either(registers.cells <= 2, CellMv(2150), CellMv(2200))
}

#[tactic(auto, unfolding(crate::specs::Comparators::short_of))]
fn short(profile: Profile, registers: Registers, sample: Sample, was: bool) -> bool
    ensures { result ≡ short_of profile registers sample was }
{
    let cells = registers.cells;
    let now = PackMv::from(sample.pack);
    let returns = units::in_pack(short_returns(profile, registers), cells);
    let ends = units::in_pack(short_ends(profile, registers), cells);
    hold(
        units::is_below(now, returns),
        units::is_below(now, ends),
        was,
    )
}

fn low_ends(profile: Profile, settings: Settings) -> u32
    ensures { result ≡ low_ends profile settings }
{
    entry::of(settings.lowv, [300, 550, 667, 714])
}

fn low_returns(profile: Profile, settings: Settings) -> u32
    ensures { result ≡ low_returns profile settings }
{
    low_ends(profile, settings) - 50
}

#[tactic(auto, unfolding(crate::specs::Comparators::low_of))]
fn low(profile: Profile, settings: Settings, base: PackMv, sample: Sample, was: bool) -> bool
    ensures { result ≡ low_of profile settings base sample was }
{
    let now = PackMv::from(sample.pack);
    let begins = units::is_below_share(now, base, low_returns(profile, settings));
    let stays = units::is_below_share(now, base, low_ends(profile, settings));
    hold(begins, stays, was)
}

#[tactic(auto, unfolding(crate::specs::Comparators::pack_over_of))]
fn pack_over(profile: Profile, base: PackMv, sample: Sample, was: bool) -> bool
    ensures { result ≡ pack_over_of profile base sample was }
{
    let now = PackMv::from(sample.pack);
    let under = units::is_below_share(now, base, 1040);
    let cleared = units::is_below_share(now, base, 1020);
    hold(!under, !cleared, was)
}

// All five at a sample; a pin fault decides the battery's three.
#[tactic(auto, unfolding(crate::specs::Comparators::latches_of))]
pub fn latches(
    profile: Profile,
    settings: Settings,
    registers: Registers,
    sample: Sample,
    was: Latches,
) -> Latches
    ensures { result ≡ latches_of profile settings registers sample was }
{
    let fault = clamps::pin_fault(profile, registers);
    let base = clamps::base(profile, settings, registers);
    let ok = input_ok(profile, sample, was.inputok);
    let over = input_over(profile, sample, was.inputover);
    let shorted = short(profile, registers, sample, was.short);
    let lowered = low(profile, settings, base, sample, was.low);
    let high = pack_over(profile, base, sample, was.packover);
    Latches {
        inputok: ok,
        inputover: over,
        short: fault | shorted,
        low: fault | lowered,
        packover: !fault & high,
    }
}

// Whether the input is good.
pub fn input_good(latches: Latches) -> bool
    ensures { result ≡ good_of latches }
{
    latches.inputok & !latches.inputover
}
