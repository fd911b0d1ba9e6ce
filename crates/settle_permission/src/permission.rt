// Whether a charge is permitted.
// What a rule goes by are its parameters, as in its definition: with the whole state in their place each law of the rule would speak of whole states.
ghost use Rattle.std.specs.Prelude.{◌≡◌};
ghost use Rattle.settle_permission.specs.Permission.{hiz_of, permitted_of};

use crate::bits;
use settle_levels::{clamps, comparators};
use state_parts::latches::Latches;
use state_parts::profile::Profile;
use state_parts::registers::Registers;
use state_parts::sample::Sample;
use state_parts::settings::Settings;

// HIZ, by the setting or by the pin.
fn high_impedance(settings: Settings, sample: Sample) -> bool
    ensures { result ≡ hiz_of settings sample }
{
    let forced = settings.enhiz;
    let external = settings.enextilim;
    let pin = bits::hiz_high(sample);
    forced | (external & pin)
}

// All that a charge needs, whatever the battery and its temperature.
#[tactic(auto, unfolding(crate::specs::Permission::permitted_of))]
pub fn permitted(
    profile: Profile,
    settings: Settings,
    registers: Registers,
    sample: Sample,
    latches: Latches,
) -> bool
    ensures { result ≡ permitted_of profile settings registers sample latches }
{
    let enabled = settings.enchg;
    let good = comparators::input_good(latches);
    let hiz = high_impedance(settings, sample);
    let ce = bits::ce_high(sample);
    let fault = clamps::pin_fault(profile, registers);
    good & !hiz & enabled & !ce & !fault
}
