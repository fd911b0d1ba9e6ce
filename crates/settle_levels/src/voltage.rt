// The charge voltage, and where VBAT stands to it and to the recharge point.
// What a rule goes by are its parameters, as in its definition: with the whole state in their place each law of the rule would speak of whole states.
// The profile is the first parameter of every table of the paper, also where no row goes by it yet (CONTRIBUTING.md, House rules).
ghost use Rattle.std.specs.Prelude.{◌≡◌};
ghost use Rattle.settle_levels.specs.Voltage.{charge_voltage_of, taper_of, below_recharge};

use crate::clamps;
use base::units::PackMv;
use base::{entry, units};
use settle_bands::effect;
use state_parts::band::Band;
use state_parts::profile::Profile;
use state_parts::registers::Registers;
use state_parts::sample::Sample;
use state_parts::settings::Settings;

// The voltage that the pack is charged to in a band.
#[tactic(auto, unfolding(crate::specs::Voltage::charge_voltage_of))]
pub fn charge_voltage(
    profile: Profile,
    settings: Settings,
    registers: Registers,
    band: Band,
) -> PackMv
    ensures { result ≡ charge_voltage_of profile settings registers band }
{
    let cells = registers.cells;
    let base = clamps::base(profile, settings, registers);
    let each = effect::cut(profile, registers, band);
    let all = units::in_pack(each, cells);
    units::less(base, all)
}

// Whether VBAT is so near the charge voltage that the current tapers.
#[tactic(auto, unfolding(crate::specs::Voltage::taper_of))]
pub fn tapers(charge: PackMv, sample: Sample) -> bool
    ensures { result ≡ taper_of charge sample }
{
    let now = PackMv::from(sample.pack);
    units::is_within(now, charge, 10)
}

// Whether VBAT is below the recharge point, a share of the charge voltage.
#[tactic(auto, unfolding(crate::specs::Voltage::below_recharge))]
pub fn below_recharge(profile: Profile, settings: Settings, charge: PackMv, sample: Sample) -> bool
    ensures { result ≡ below_recharge profile settings charge sample }
{
    let share = entry::of(settings.vrechg, [927, 941, 955, 970]);
    let now = PackMv::from(sample.pack);
    units::is_below_share(now, charge, share)
}
