// What a sample must show for a charge to end.
// What a rule goes by are its parameters, as in its definition: with the whole state in their place each law of the rule would speak of whole states.
ghost use Rattle.std.specs.Prelude.{◌≡◌, pos};
ghost use Rattle.std.specs.Int.Signed.{lt_z};
ghost use Rattle.settle_permission.specs.Ending.{ending_of};

use crate::bits;
use state_parts::sample::Sample;
use state_parts::settings::Settings;

// IBAT below ITERM, as signed numbers.
fn below_term(settings: Settings, sample: Sample) -> bool
    ensures { result ≡ lt_z sample.ibat (pos settings.iterm) }
{
    (sample.ibat as i64) < (settings.iterm as i64)
}

// Whether settings and sample let a charge end.
#[tactic(auto, unfolding(crate::specs::Ending::ending_of))]
pub fn may_end(settings: Settings, sample: Sample) -> bool
    ensures { result ≡ ending_of settings sample }
{
    let enabled = settings.enterm;
    let lower = below_term(settings, sample);
    let regulated = bits::regulated(sample);
    enabled & lower & !regulated
}
