// What a band does: it suspends, leaves a share of the current, or cuts the voltage.
// The profile is the first parameter of every table of the paper, also where no row goes by it yet (CONTRIBUTING.md, House rules).
ghost use Rattle.std.specs.Prelude.{◌≡◌};
ghost use Rattle.settle_bands.specs.Effect.{suspended_in, suspends_of, share_by_band, share_of, is_warm, cut_of};

use base::units::CellMv;
use base::{choice, entry};
use state_fields::named;
use state_parts::band::Band;
use state_parts::profile::Profile;
use state_parts::registers::Registers;

fn suspended_in(band: Band, stopscool: bool, stopswarm: bool) -> bool
    ensures { result ≡ suspended_in band stopscool stopswarm }
{
    match band {
        Band::Normal => false,
        Band::Cool => stopscool,
        Band::Warm => stopswarm,
        Band::Cold | Band::Hot | Band::Mixed => true,
    }
}

// Whether a band suspends the charge.
#[tactic(auto, unfolding(crate::specs::Effect::suspends_of))]
pub fn suspends(profile: Profile, registers: Registers, band: Band) -> bool
    ensures { result ≡ suspends_of profile registers band }
{
    let cool = named::jeita_isetc(registers);
    let warm = named::jeita_vset(registers);
    suspended_in(band, cool == 0, warm == 0)
}

fn share_by_band(band: Band, cool: u32, warm: u32) -> u32
    ensures { result ≡ share_by_band band cool warm }
{
    match band {
        Band::Cool => cool,
        Band::Warm => warm,
        _ => 100,
    }
}

// The percentage of the charge current that a band leaves.
#[tactic(auto, unfolding(crate::specs::Effect::share_of))]
pub fn share(profile: Profile, registers: Registers, band: Band) -> u32
    ensures { result ≡ share_of profile registers band }
{
    let isetc = named::jeita_isetc(registers);
    let iseth = named::jeita_iseth(registers);
    let cool = entry::of(isetc, [0, 20, 40, 100]);
    let warm = choice::either(iseth == 1, 100, 40);
    share_by_band(band, cool, warm)
}

fn is_warm(band: Band) -> bool
    ensures { result ≡ is_warm band }
{
    band == Band::Warm
}

// What a band takes off each cell's voltage.
#[tactic(auto, unfolding(crate::specs::Effect::cut_of))]
pub fn cut(profile: Profile, registers: Registers, band: Band) -> CellMv
    ensures { result ≡ cut_of profile registers band }
{
    let code = named::jeita_vset(registers);
    let off = entry::of(code, [0, 250, 100, 0]);
    let warm = is_warm(band);
    choice::either(warm, CellMv(off), CellMv(0))
}
