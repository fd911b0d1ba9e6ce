// The temperature band of a thermistor's value, by registers 0x18 and 0x19: the first edition's judgement.
// The profile is the first parameter of every table of the paper, also where no row goes by it yet (CONTRIBUTING.md, House rules).
ghost use Rattle.std.specs.Prelude.{◌≡◌};
ghost use Rattle.settle_bands.specs.Thresholds.{th1_of, th2_of, th3_of, th5_of, first_band, marks_of, band_by};

use base::entry;
use state_fields::named;
use state_parts::band::TsBand;
use state_parts::profile::Profile;
use state_parts::registers::Registers;

// What the registers say of bands: whether they are judged, cool and warm too, and the thresholds.
#[derive(Clone, Copy)]
pub struct Marks {
    pub off: bool,
    pub jeita: bool,
    pub th1: u32,
    pub th2: u32,
    pub th3: u32,
    pub th5: u32,
}

// Each threshold has a function, as it has a definition; what they share is `entry::of`.
fn th1(profile: Profile, registers: Registers) -> u32
    ensures { result ≡ th1_of profile registers }
{
    let code = named::ts_th1(registers);
    entry::of(code, [77150, 75320, 73300, 70900])
}

fn th2(profile: Profile, registers: Registers) -> u32
    ensures { result ≡ th2_of profile registers }
{
    let code = named::ts_th2(registers);
    entry::of(code, [70900, 68250, 65350, 62250])
}

fn th3(profile: Profile, registers: Registers) -> u32
    ensures { result ≡ th3_of profile registers }
{
    let code = named::ts_th3(registers);
    entry::of(code, [48400, 44750, 41200, 37700])
}

fn th5(profile: Profile, registers: Registers) -> u32
    ensures { result ≡ th5_of profile registers }
{
    let code = named::ts_th5(registers);
    entry::of(code, [41200, 37700, 34375, 31250])
}

// The judged order of bands.
fn first_band(off: bool, cold: bool, hot: bool, cool: bool, warm: bool) -> TsBand
    ensures { result ≡ first_band off cold hot cool warm }
{
    if off {
        TsBand::Normal
    } else if cold {
        TsBand::Cold
    } else if hot {
        TsBand::Hot
    } else if cool {
        TsBand::Cool
    } else if warm {
        TsBand::Warm
    } else {
        TsBand::Normal
    }
}

// The marks that the registers hold.
#[tactic(auto, unfolding(crate::specs::Thresholds::marks_of))]
pub fn marks_in(profile: Profile, registers: Registers) -> Marks
    ensures { result ≡ marks_of profile registers }
{
    let off = named::en_ts(registers) == 0;
    let jeita = named::en_jeita(registers) == 1;
    let first = th1(profile, registers);
    let second = th2(profile, registers);
    let third = th3(profile, registers);
    let fifth = th5(profile, registers);
    Marks {
        off,
        jeita,
        th1: first,
        th2: second,
        th3: third,
        th5: fifth,
    }
}

// The band of one TS value.
#[tactic(auto, unfolding(crate::specs::Thresholds::band_by))]
pub fn band_at(m: Marks, ts: u32) -> TsBand
    ensures { result ≡ band_by m ts }
{
    let cold = m.th1 <= ts;
    let hot = ts <= m.th5;
    let cool = m.jeita & (m.th2 <= ts);
    let warm = m.jeita & (ts <= m.th3);
    first_band(m.off, cold, hot, cool, warm)
}
