// The bits of a sample.
// A function for each: one for all would take the weight that the names stand for, and be no shorter.
ghost use Rattle.std.specs.Prelude.{◌≡◌};
ghost use Rattle.settle_permission.specs.Bits.{ce_high, hiz_high, iindpm_of, vindpm_of, thermal_of, shutdown_of, regulated_of};

use state_parts::sample::Sample;

// The CE pin is high.
pub(crate) fn ce_high(sample: Sample) -> bool
    ensures { result ≡ ce_high sample }
{
    sample.bits % 2 == 1
}

// The ILIM_HIZ pin is high.
pub(crate) fn hiz_high(sample: Sample) -> bool
    ensures { result ≡ hiz_high sample }
{
    sample.bits / 2 % 2 == 1
}

// The input's current is regulated.
pub fn iindpm(sample: Sample) -> bool
    ensures { result ≡ iindpm_of sample }
{
    sample.bits / 4 % 2 == 1
}

// The input's voltage is regulated.
pub fn vindpm(sample: Sample) -> bool
    ensures { result ≡ vindpm_of sample }
{
    sample.bits / 8 % 2 == 1
}

// Thermal regulation.
pub fn thermal(sample: Sample) -> bool
    ensures { result ≡ thermal_of sample }
{
    sample.bits / 16 % 2 == 1
}

// Thermal shutdown.
pub fn shutdown(sample: Sample) -> bool
    ensures { result ≡ shutdown_of sample }
{
    sample.bits / 32 % 2 == 1
}

// Any regulation: of the input's current, of its voltage, or thermal.
#[tactic(auto, unfolding(crate::specs::Bits::regulated_of))]
pub fn regulated(sample: Sample) -> bool
    ensures { result ≡ regulated_of sample }
{
    iindpm(sample) | vindpm(sample) | thermal(sample)
}
