// The settings by their numbers.
// A number and no enum of settings: the log and the paper have it, and so do `held_of`, `store_of` and each row of specs/Rows that is a setting's.
ghost use Rattle.std.specs.Prelude.{◌≡◌};
ghost use Rattle.state_settings.specs.Numbered.{held_of, store_of};

use base::units::PackMv;
use base::{choice, entry};
use state_parts::settings::Settings;

// The number that a setting holds; 0 if there is no such setting.
pub fn held(s: Settings, number: u32) -> u32
    ensures { result ≡ held_of s number }
{
    let vreg = u32::from(s.vreg);
    let vsysmin = u32::from(s.vsysmin);
    let enchg = choice::bit(s.enchg);
    let enterm = choice::bit(s.enterm);
    let enhiz = choice::bit(s.enhiz);
    let enextilim = choice::bit(s.enextilim);
    let disstat = choice::bit(s.disstat);
    entry::of(
        number,
        [
            0, vreg, s.ichg, s.iprechg, s.iterm, s.iindpm, vsysmin, s.lowv, s.vrechg, enchg,
            enterm, enhiz, enextilim, disstat, s.masks,
        ],
    )
}

// The settings with this value at this number; a setting that is a test takes 1 as true.
#[tactic(auto, unfolding(crate::specs::Numbered::store_of))]
pub fn store(s: Settings, number: u32, value: u32) -> Settings
    ensures { result ≡ store_of s number value }
{
    let on = value == 1;
    match number {
        1 => Settings {
            vreg: PackMv::from(value),
            ..s
        },
        2 => Settings { ichg: value, ..s },
        3 => Settings {
            iprechg: value,
            ..s
        },
        4 => Settings { iterm: value, ..s },
        5 => Settings { iindpm: value, ..s },
        6 => Settings {
            vsysmin: PackMv::from(value),
            ..s
        },
        7 => Settings { lowv: value, ..s },
        8 => Settings { vrechg: value, ..s },
        9 => Settings { enchg: on, ..s },
        10 => Settings { enterm: on, ..s },
        11 => Settings { enhiz: on, ..s },
        12 => Settings { enextilim: on, ..s },
        13 => Settings { disstat: on, ..s },
        14 => Settings { masks: value, ..s },
        _ => s,
    }
}
