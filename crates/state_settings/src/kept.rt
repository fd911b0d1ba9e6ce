// Settings that hold what they may.
ghost use Rattle.std.specs.Prelude.{◌≡◌};
ghost use Rattle.state_settings.specs.Kept.{settings_ok};

use crate::ranges::may_hold;
use state_parts::profile::Profile;
use state_parts::settings::Settings;

// Every setting holds what it may. One that is on or off always does, so those five aren't tested.
pub fn settings_ok(p: Profile, s: Settings) -> bool
    ensures { result ≡ settings_ok p s }
{
    let volts = u32::from(s.vreg);
    let least = u32::from(s.vsysmin);
    let vreg = may_hold(p, 1, volts);
    let ichg = may_hold(p, 2, s.ichg);
    let iprechg = may_hold(p, 3, s.iprechg);
    let iterm = may_hold(p, 4, s.iterm);
    let iindpm = may_hold(p, 5, s.iindpm);
    let vsysmin = may_hold(p, 6, least);
    let lowv = may_hold(p, 7, s.lowv);
    let vrechg = may_hold(p, 8, s.vrechg);
    let masks = may_hold(p, 14, s.masks);
    vreg & ichg & iprechg & iterm & iindpm & vsysmin & lowv & vrechg & masks
}
